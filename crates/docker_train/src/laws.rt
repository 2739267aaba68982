//! Laws of the schedule that is found and printed for a UID and a day, and of lists of trains. Each
//! law is the contract of a function with an empty body, so it holds for all values of its
//! variables.
ghost use Rattle.std.specs.Prelude.{◌≡◌, ◌≤◌, ℕ, List, Option, Some, option_map};
ghost use Rattle.docker_model.specs.records.Date.{IsDay};
ghost use Rattle.docker_model.specs.run.Knowledge.{HaveSameFiles};
ghost use Rattle.docker_model.specs.state.Lapse.{IsDayRefused};
ghost use Rattle.docker_model.specs.state.State.{State, IsValid, live_table};
ghost use Rattle.docker_model.specs.state.Summary.{IsSummary};
ghost use Rattle.docker_model.specs.state.Table.{Table, IsPlainTable};
ghost use Rattle.docker_model.specs.docker.Association.{IsAssociationLine};
ghost use Rattle.docker_model.specs.docker.DockerLine.{DockerLine};
ghost use Rattle.docker_model.specs.docker.DockerList.{IsEventLine};
ghost use Rattle.docker_model.specs.docker.Choice.{IsChosenOn, Train};
ghost use Rattle.docker_model.specs.lists.TrainText.{IsFoundFor, IsTrainText, Stamped};
ghost use Rattle.docker_train.specs.Origin.{CameFrom, IsFoundToRun};
ghost use Rattle.docker_model.specs.lists.TrainsText.{IsListed, IsTrainsText};

/// A state has at most one train text for a UID and a day.
pub fn one_train_text()
    ensures { (state : State) (uid : List ℕ) (day : ℕ) (text other : List ℕ)
        → IsTrainText state uid day text → IsTrainText state uid day other → text ≡ other }
{}

/// A schedule found in the summary of a set of files came from one of these files. This file has
/// the stamp's date, time and reference. The schedule comes from one of the file's changes, and
/// this change has the stamp's record number.
pub fn train_came_from_a_file()
    ensures { (files : List (List (List ℕ))) (horizon : ℕ) (state : State) (uid : List ℕ) (day : ℕ)
        (found : Stamped) → IsSummary files horizon state → IsFoundFor state uid day (Some found)
        → CameFrom files found }
{}

/// Suppose that no two files of a set have the same moment. On each day from the horizon on, the
/// summary and the plain table of the files have the same chosen schedule for each UID.
pub fn found_train_is_plain()
    ensures { (files : List (List (List ℕ))) (horizon : ℕ) (state : State) (table : Table)
        (uid : List ℕ) (day : ℕ) (found : Option Stamped) → IsSummary files horizon state
        → IsPlainTable files table → IsDay horizon → horizon ≤ day → IsFoundFor state uid day found
        → IsChosenOn table uid day (option_map (λ (it : Stamped). it.schedule) found) }
{}

/// On a docker that isn't refused, each event's train runs according to the schedule found for the
/// train's UID and start day. The same holds for the base train of each association on the docker.
pub fn trains_of_a_docker()
    ensures events { (state : State) (place : List ℕ) (day : ℕ) (line : DockerLine)
        → IsValid state → ¬ IsDayRefused state.horizon day
        → (made : IsEventLine (live_table state) place day line)
        → IsFoundToRun state line.uid line.start
        (record { key = made.key; lines = made.schedule }) }
    ensures associations { (state : State) (place : List ℕ) (day : ℕ) (line : DockerLine)
        → IsValid state → ¬ IsDayRefused state.horizon day
        → (made : IsAssociationLine (live_table state) place day line)
        → IsFoundToRun state line.uid line.start
        (record { key = made.base_key; lines = made.base }) }
{}

/// A live table has at most one list of the trains that have an identity and start on a day.
pub fn one_trains_text()
    ensures { (live : Table) (identity : List ℕ) (day : ℕ) (text other : List ℕ)
        → IsTrainsText live identity day text → IsTrainsText live identity day other
        → text ≡ other }
{}

/// Two summaries of the same files, even under different horizons, have the same list of trains for
/// each identity and each day that isn't before either horizon.
pub fn files_fix_trains_text()
    ensures { (files others : List (List (List ℕ))) (horizon theirs : ℕ) (one two : State)
        → HaveSameFiles files others → IsDay horizon → IsDay theirs → IsSummary files horizon one
        → IsSummary others theirs two → (identity : List ℕ) (day : ℕ) → horizon ≤ day
        → theirs ≤ day → (text other : List ℕ)
        → IsTrainsText (live_table one) identity day text
        → IsTrainsText (live_table two) identity day other → text ≡ other }
{}

/// Suppose that no two files of a set have the same moment. On each day from the horizon on, the
/// list of trains of the summary is the list of the files' plain table.
pub fn trains_text_is_plain()
    ensures { (files : List (List (List ℕ))) (horizon : ℕ) (state : State) (table : Table)
        (identity : List ℕ) (day : ℕ) (text : List ℕ) → IsSummary files horizon state
        → IsPlainTable files table → IsDay horizon → horizon ≤ day
        → IsTrainsText (live_table state) identity day text
        → IsTrainsText table identity day text }
{}

/// Each train of a list runs according to the schedule found for its UID on the day.
pub fn listed_trains_are_found()
    ensures { (state : State) (identity : List ℕ) (day : ℕ) (train : Train) → state.horizon ≤ day
        → IsListed (live_table state) identity day train
        → IsFoundToRun state train.key.uid day train }
{}
