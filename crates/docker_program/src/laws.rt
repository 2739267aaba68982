//! Laws that hold for each command, and for each list of versions of STATE files. Each law is the
//! contract of a function that does nothing. The law holds for all values of the variables in the
//! function's clauses.
ghost use Rattle.std.specs.Prelude.{◌≡◌, ◌≢◌, ◌≤◌, ℕ, List, Some};
ghost use Rattle.docker_model.specs.state.StateText.{dks_2};
ghost use Rattle.docker_model.specs.state.Summary.{HaveDistinctMoments};
ghost use Rattle.docker_model.specs.state.Table.{Table, IsPlainTable};
ghost use Rattle.docker_model.specs.docker.DockerText.{IsDockerText};
ghost use Rattle.docker_model.specs.run.Run.{Known};
ghost use Rattle.docker_model.specs.run.Knowledge.{AreOneKnowledge, HaveSameFiles};
ghost use Rattle.docker_cmd.specs.Job.{JobView};
ghost use Rattle.docker_cmd.specs.Words.{Text};
ghost use Rattle.docker_program.specs.Commands.{AreVersions, IsDone, IsKnownText, IsRun, IsUndone, IsVersion, Knows, MayStore, Prints, PrintsKnown, Run, Stores, Version, WritesKnown, printing};
ghost use Rattle.docker_host.specs.Standing.{IsStandingOf, Standing};
ghost use Rattle.docker_program.specs.Program.{IsUsageStatus};
ghost use Rattle.docker_program.specs.Replacing.{ReplacesRead};
ghost use Rattle.docker_program.specs.Sources.{SourcesRead};

/// A command that ends with status 0 has stored or printed the output of its job, which is made
/// from what its sources held. A command that ends with another status has stored nothing, unless
/// replacing the file with a draft of the whole output failed. In that case the status is 4, and the
/// file holds either the whole output or what it held before.
pub fn commands_store_or_print()
    ensures done { (run : Run) → IsRun run 0 → IsDone run }
    ensures undone { (run : Run) (status : ℕ) → IsRun run status → status ≢ 0
        → IsUndone run status }
{}

/// If a command is started with words, its status is 2 if and only if the words name no job. No
/// status is greater than 4.
pub fn commands_end_with_few_statuses()
    ensures usage { (run : Run) (status : ℕ) → IsRun run status → IsUsageStatus run.words status }
    ensures few { (run : Run) (status : ℕ) → IsRun run status → status ≤ 4 }
{}

/// A command never overwrites a text unread. Suppose that contracts can say which bytes the files of
/// the folder hold (`standing`). When a command makes its draft, STATE has held the same bytes since
/// the command looked at STATE. If the command reads STATE, these are the bytes that it opened, and
/// they are the whole text of a state. `new` reads nothing: it replaces what STATE held when `new`
/// looked at it, and nothing that came since.
pub fn commands_replace_what_they_read()
    ensures stored { (standing : Standing) (run : Run) (job : JobView) (read : SourcesRead)
        (text : List ℕ) → Stores run job read text → IsStandingOf standing run.new.history
        → ReplacesRead standing run job read }
    ensures may_be_stored { (standing : Standing) (run : Run) (job : JobView) (read : SourcesRead)
        (text : List ℕ) → MayStore run job read text → IsStandingOf standing run.new.history
        → ReplacesRead standing run job read }
{}

/// Suppose that STATE held the text of the summary of some files and a horizon. Suppose also that
/// the command took a file, or merged the text of another summary. If the command stores a text,
/// this is the text of the summary of all these files, with the latest horizon. If the command
/// prints, it prints the docker of that summary, or the list of its files.
pub fn commands_keep_summaries()
    ensures stored { (run : Run) (job : JobView) (read : SourcesRead) (text : List ℕ)
        (known : Known) → Stores run job read text → Knows job.task read.first read.second known
        → IsKnownText dks_2 known text }
    ensures may_be_stored { (run : Run) (job : JobView) (read : SourcesRead) (text : List ℕ)
        (known : Known) → MayStore run job read text → Knows job.task read.first read.second known
        → IsKnownText dks_2 known text }
    ensures printed { (run : Run) (job : JobView) (read : SourcesRead) (text : List ℕ)
        (known : Known) → Prints run job read text → Knows job.task read.first read.second known
        → WritesKnown job.task known text }
{}

/// Each version of a STATE file is the text of the summary of what the version knows. The list of
/// versions determines what each version knows: the list records how each version was made, and
/// from which earlier versions of any office. So versions that know the same files and the same
/// horizon are equal, byte for byte. Each docker printed from a version is the docker of the
/// summary of what that version knows.
pub fn versions_are_summaries()
    ensures summary { (versions : List Version) (number : ℕ) (text : List ℕ) (known : Known)
        → AreVersions versions → IsVersion versions number text known
        → IsKnownText dks_2 known text }
    ensures same { (versions : List Version) (number another : ℕ) (text other : List ℕ)
        (known also : Known) → AreVersions versions → IsVersion versions number text known
        → IsVersion versions another other also → AreOneKnowledge known also → text ≡ other }
    ensures docker { (versions : List Version) (number : ℕ) (version : List ℕ) (known : Known)
        → AreVersions versions → IsVersion versions number version known
        → (run : Run) (read : SourcesRead) (place : List ℕ) (day : ℕ) (words : List Text)
        (text : List ℕ) → Prints run (printing place day words) read text
        → read.first ≡ Some version → PrintsKnown known place day text }
{}

/// If two texts are the texts of summaries of the same files and the same horizon, they are equal,
/// byte for byte. Two offices that know the same files print equal dockers, for each timing point
/// and each day that isn't refused under either office's horizon.
pub fn known_files_fix_texts()
    ensures text { (one two : Known) (text other : List ℕ) → IsKnownText dks_2 one text
        → IsKnownText dks_2 two other → AreOneKnowledge one two → text ≡ other }
    ensures docker { (one two : Known) (place : List ℕ) (day : ℕ) (text other : List ℕ)
        → PrintsKnown one place day text → PrintsKnown two place day other
        → HaveSameFiles one.files two.files → text ≡ other }
{}

/// If no two of the known files have the same moment, there is a plain table of these files. Each
/// docker that is printed is the docker of this table.
pub fn dockers_are_of_the_plain_table()
    ensures { (known : Known) (place : List ℕ) (day : ℕ) (text : List ℕ)
        → PrintsKnown known place day text → HaveDistinctMoments known.files
        → (plain : Table) × IsPlainTable known.files plain × IsDockerText plain place day text }
{}
