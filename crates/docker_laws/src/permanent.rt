//! Laws of permanent dockers, which are dockers of a table without the short-term plan. A law is a
//! function with an empty body. Its contract states a fact, which holds for all values of the
//! variables.
ghost use Rattle.std.specs.Prelude.{◌≡◌, ℕ, List, ◌↔◌, filter, fold};
ghost use Rattle.docker_model.specs.file.Change.{Change};
ghost use Rattle.docker_model.specs.records.Date.{IsDay};
ghost use Rattle.docker_model.specs.state.Lapse.{IsDayRefused};
ghost use Rattle.docker_model.specs.state.State.{State, live_table};
ghost use Rattle.docker_model.specs.state.Summary.{IsSummary};
ghost use Rattle.docker_model.specs.state.Table.{Table, IsPlainTable, after_change};
ghost use Rattle.docker_model.specs.docker.DockerLine.{DockerLine};
ghost use Rattle.docker_model.specs.docker.DockerText.{IsDockerText};
ghost use Rattle.docker_model.specs.docker.Permanent.{is_permanent, permanent_table};
ghost use Rattle.docker_model.specs.run.Knowledge.{AreFiles, HaveSameFiles};
ghost use Rattle.docker_laws.specs.Gathering.{IsDockerLine};

/// Applying changes and then leaving out the short-term plan gives the same table as leaving out
/// the plan first and then applying only the changes whose keys pass `is_permanent`. These are the
/// keys of TIPLOCs, and the keys with the STP indicator `P`.
pub fn permanent_table_of_changes()
    ensures { (table : Table) (changes : List Change)
        → permanent_table (fold after_change table changes) ≡ fold after_change
        (permanent_table table) (filter (λ (it : Change). is_permanent it.key) changes) }
{}

/// Each line of a permanent docker has the STP indicator `P`, whether it is the line of an event or
/// of an association.
pub fn permanent_lines_are_permanent()
    ensures { (live : Table) (place : List ℕ) (day : ℕ) (line : DockerLine)
        → IsDockerLine (permanent_table live) place day line → line.indicator ≡ 80 }
{}

/// Two summaries of the same files have the same permanent docker for each place and each day,
/// unless the program refuses the docker because of a horizon. The horizons of the summaries may
/// differ.
pub fn known_files_fix_permanent_dockers()
    ensures { (files others : List (List (List ℕ))) (horizon theirs : ℕ) (one two : State)
        → AreFiles files → AreFiles others → HaveSameFiles files others → IsDay horizon
        → IsDay theirs → IsSummary files horizon one → IsSummary others theirs two
        → (place : List ℕ) (day : ℕ) → ¬ IsDayRefused horizon day → ¬ IsDayRefused theirs day
        → (text other : List ℕ) → IsDockerText (permanent_table (live_table one)) place day text
        → IsDockerText (permanent_table (live_table two)) place day other → text ≡ other }
{}

/// If the files of a set have distinct moments, a permanent docker printed from their summary is
/// the permanent docker of their plain table. The summary may have any horizon with which the
/// program doesn't refuse the docker.
pub fn permanent_docker_is_plain()
    ensures { (files : List (List (List ℕ))) (horizon : ℕ) (state : State) (table : Table)
        (place : List ℕ) (day : ℕ) (text : List ℕ) → AreFiles files → IsDay horizon
        → IsSummary files horizon state → IsPlainTable files table → ¬ IsDayRefused horizon day
        → IsDockerText (permanent_table (live_table state)) place day text
        ↔ IsDockerText (permanent_table table) place day text }
{}
