//! Laws of detailed dockers, whose lines show what each docker line was made from. A law is a
//! function with an empty body. Its contract states a fact, which holds for all values of the
//! variables.
ghost use Rattle.std.specs.Prelude.{◌≡◌, ◌<◌, ◌^◌, ℕ, List, ◌↔◌};
ghost use Rattle.docker_model.specs.records.Field.{IsTiploc};
ghost use Rattle.docker_model.specs.records.Date.{IsDay};
ghost use Rattle.docker_model.specs.state.Lapse.{IsDayRefused};
ghost use Rattle.docker_model.specs.state.State.{HasGoodBodies, State, live_table};
ghost use Rattle.docker_model.specs.state.Summary.{IsSummary};
ghost use Rattle.docker_model.specs.state.Table.{Table, IsPlainTable};
ghost use Rattle.docker_model.specs.docker.DetailedText.{IsDetailedText};
ghost use Rattle.docker_model.specs.docker.DockerLine.{DockerLine};
ghost use Rattle.docker_model.specs.docker.DockerText.{IsDockerText};
ghost use Rattle.docker_model.specs.docker.Permanent.{permanent_table};
ghost use Rattle.docker_model.specs.run.Knowledge.{AreFiles, HaveSameFiles};
ghost use Rattle.docker_laws.specs.FirstColumns.{HasWidth, first_columns};
ghost use Rattle.docker_laws.specs.Gathering.{IsDockerLine};

/// A table has at most one detailed docker for a place and a day.
pub fn one_detailed_docker()
    ensures { (live : Table) (place : List ℕ) (day : ℕ) (text other : List ℕ)
        → IsDetailedText live place day text → IsDetailedText live place day other
        → text ≡ other }
{}

/// Two summaries of the same files have the same detailed docker for each place and each day,
/// unless the program refuses the docker because of a horizon. The same is true of permanent
/// detailed dockers. The horizons of the summaries may differ.
pub fn known_files_fix_detailed_dockers()
    ensures docker { (files others : List (List (List ℕ))) (horizon theirs : ℕ) (one two : State)
        → AreFiles files → AreFiles others → HaveSameFiles files others → IsDay horizon
        → IsDay theirs → IsSummary files horizon one → IsSummary others theirs two
        → (place : List ℕ) (day : ℕ) → ¬ IsDayRefused horizon day → ¬ IsDayRefused theirs day
        → (text other : List ℕ) → IsDetailedText (live_table one) place day text
        → IsDetailedText (live_table two) place day other → text ≡ other }
    ensures permanent { (files others : List (List (List ℕ))) (horizon theirs : ℕ)
        (one two : State) → AreFiles files → AreFiles others → HaveSameFiles files others
        → IsDay horizon → IsDay theirs → IsSummary files horizon one
        → IsSummary others theirs two → (place : List ℕ) (day : ℕ) → ¬ IsDayRefused horizon day
        → ¬ IsDayRefused theirs day → (text other : List ℕ)
        → IsDetailedText (permanent_table (live_table one)) place day text
        → IsDetailedText (permanent_table (live_table two)) place day other → text ≡ other }
{}

/// If the files of a set have distinct moments, a detailed docker printed from their summary is the
/// detailed docker of their plain table. The same is true of permanent detailed dockers. The
/// summary may have any horizon with which the program doesn't refuse the docker.
pub fn detailed_docker_is_plain()
    ensures docker { (files : List (List (List ℕ))) (horizon : ℕ) (state : State) (table : Table)
        (place : List ℕ) (day : ℕ) (text : List ℕ) → AreFiles files → IsDay horizon
        → IsSummary files horizon state → IsPlainTable files table → ¬ IsDayRefused horizon day
        → IsDetailedText (live_table state) place day text
        ↔ IsDetailedText table place day text }
    ensures permanent { (files : List (List (List ℕ))) (horizon : ℕ) (state : State)
        (table : Table) (place : List ℕ) (day : ℕ) (text : List ℕ) → AreFiles files
        → IsDay horizon → IsSummary files horizon state → IsPlainTable files table
        → ¬ IsDayRefused horizon day
        → IsDetailedText (permanent_table (live_table state)) place day text
        ↔ IsDetailedText (permanent_table table) place day text }
{}

/// The first 56 columns of each line of a detailed docker are the docker. `cut -c1-56` prints them.
/// A line ends at its line feed, because no record has a line feed. The bodies of the table have to
/// be well formed, as in the live table of each valid state.
pub fn detailed_docker_has_docker()
    ensures columns { (live : Table) (place : List ℕ) (day : ℕ) (text : List ℕ)
        → HasGoodBodies live → IsTiploc place → IsDetailedText live place day text
        → IsDockerText live place day (first_columns 56 text) }
    ensures width { (live : Table) (place : List ℕ) (day : ℕ) (text : List ℕ)
        → HasGoodBodies live → IsTiploc place → IsDetailedText live place day text
        → ((line : DockerLine) → IsDockerLine live place day line → line.number < 10 ^ 10)
        → HasWidth 483 text }
{}
