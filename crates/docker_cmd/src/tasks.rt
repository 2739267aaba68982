//! The table of subcommands, and the tasks of jobs.
ghost use Rattle.std.specs.Prelude.{◌≡◌, None, Some, codes, if◌then◌else◌, length, map, option_map};
ghost use Rattle.std.specs.Str.{bytes_eq};
ghost use Rattle.docker_cmd.specs.Job.{IsTaskOf};
ghost use Rattle.docker_cmd.specs.Reads.{sources_meant};
ghost use Rattle.docker_cmd.specs.Tasks.{day_of, ids_of, row_meant, row_of, sources_of, subcommand_of, task_meant, tiploc_of, usage_line, writes_of};
ghost use Rattle.docker_cmd.specs.Words.{texts};
ghost use Rattle.docker_cmd.specs.Tasks as tasks;

use crate::named::{TableWord, place_and_day};
use crate::reads::Sources;
use crate::reads::Sources::{
    CheckedFile, NoSource, OlderState, OneState, StateAndFile, TakenFile, TwoStates,
};
use crate::writes::OutputKind;
use crate::writes::OutputKind::{Counts, Docker, Files, State};
use cif_line::{Day, Tiploc};

/// The subcommands.
#[derive(Clone, Copy, PartialEq, Eq, Debug)]
pub enum Subcommand {
    /// Makes an empty state.
    New,
    /// Checks a file, and counts its records and changes.
    Check,
    /// Reads one file, and prints the docker of a timing point on a day.
    Day,
    /// Takes a file into a state.
    Take,
    /// Joins a state with another state.
    Merge,
    /// Reads a state, and prints the docker of a timing point on a day.
    Print,
    /// Lists the files that a state knows.
    Files,
    /// Raises the horizon of a state.
    Horizon,
    /// Reads a state in the format `DKS1`, and writes it in the format `DKS2`.
    Migrate,
}

/// A row of the table of subcommands.
#[derive(Clone, Copy, Debug)]
pub(crate) struct Row<'a> {
    /// The subcommand's name.
    name: &'a str,
    /// The names of the words after the subcommand, as the usage line shows them. All words are
    /// required.
    ids: &'a [&'a str],
    /// What the subcommand reads, in the order of its words.
    reads: Sources,
    /// What the subcommand writes.
    writes: OutputKind,
}

impl<'a> Row<'a> {
    /// Makes a row from these columns.
    fn of(name: &'a str, ids: &'a [&'a str], reads: Sources, writes: OutputKind) -> Row<'a>
        ensures name { result.name.now ≡ name.now }
        ensures ids { result.ids.now ≡ ids.now }
        ensures reads { result.reads ≡ reads }
        ensures writes { result.writes ≡ writes }
    {
        Row {
            name,
            ids,
            reads,
            writes,
        }
    }
}

impl TableWord for Subcommand {
    ghost words = { tasks.subcommands };

    ghost name_of = { tasks.name_of };

    fn all<'a>() -> &'a [Subcommand] {
        &[
            Subcommand::New,
            Subcommand::Check,
            Subcommand::Day,
            Subcommand::Take,
            Subcommand::Merge,
            Subcommand::Print,
            Subcommand::Files,
            Subcommand::Horizon,
            Subcommand::Migrate,
        ]
    }

    fn name<'a>(self) -> &'a str {
        self.row().name
    }
}

impl Subcommand {
    /// Returns the subcommand's row in the table.
    pub(crate) fn row<'a>(self) -> Row<'a>
        ensures { row_meant result ≡ row_of self }
    {
        match self {
            Subcommand::New => Row::of("new", &["STATE"], NoSource, State),
            Subcommand::Check => Row::of("check", &["FILE"], CheckedFile, Counts),
            Subcommand::Day => Row::of("day", &["FILE", "TIPLOC", "DATE"], TakenFile, Docker),
            Subcommand::Take => Row::of("take", &["STATE", "FILE"], StateAndFile, State),
            Subcommand::Merge => Row::of("merge", &["STATE", "OTHER"], TwoStates, State),
            Subcommand::Print => Row::of("print", &["STATE", "TIPLOC", "DATE"], OneState, Docker),
            Subcommand::Files => Row::of("files", &["STATE"], OneState, Files),
            Subcommand::Horizon => Row::of("horizon", &["STATE", "DATE"], OneState, State),
            Subcommand::Migrate => Row::of("migrate", &["STATE"], OlderState, State),
        }
    }

    /// Returns the names of the words after the subcommand, as the usage line shows them.
    pub(crate) fn ids<'a>(self) -> &'a [&'a str]
        ensures { map (λ id. id.now) result.now ≡ ids_of self }
    {
        self.row().ids
    }

    /// Returns the task that these words name for this subcommand. There must be as many words as
    /// the subcommand requires. Returns `None` if STATE is to be written but is named `stdin`, or
    /// if a word that has to name a timing point or a day doesn't name one.
    pub(crate) fn task(self, words: &[&str]) -> Option<Task>
        requires { length words.now ≡ length (ids_of self) }
        ensures { IsTaskOf self (texts words.now) (option_map task_meant result) }
    {
        match self {
            Subcommand::New => unless_stdin(words[0], Task::New),
            Subcommand::Check => Some(Task::Check),
            Subcommand::Day => {
                let (place, day) = place_and_day(words[1], words[2])?;
                Some(Task::Day { place, day })
            }
            Subcommand::Take => unless_stdin(words[0], Task::Take),
            Subcommand::Merge => unless_stdin(words[0], Task::Merge),
            Subcommand::Print => {
                let (place, day) = place_and_day(words[1], words[2])?;
                Some(Task::Print { place, day })
            }
            Subcommand::Files => Some(Task::Files),
            Subcommand::Horizon => {
                let day = Day::from_iso(words[1])?;
                unless_stdin(words[0], Task::Horizon { day })
            }
            Subcommand::Migrate => unless_stdin(words[0], Task::Migrate),
        }
    }
}

/// Returns the usage line: each subcommand's name and the words that it requires. This literal
/// repeats the table, but can't differ from it, because the clause says that the line is made from
/// the table.
pub(crate) fn usage<'a>() -> &'a [u8]
    ensures { result.now ≡ usage_line }
{
    b"docker: usage: new STATE | check FILE | day FILE TIPLOC DATE | take STATE FILE | merge STATE OTHER | print STATE TIPLOC DATE | files STATE | horizon STATE DATE | migrate STATE\n"
}

/// Returns the task, or `None` if STATE is named `stdin`. A state on standard input can't be
/// replaced.
fn unless_stdin(state: &str, task: Task) -> Option<Task>
    ensures { result ≡ if bytes_eq state.now (codes "stdin") then None else Some task }
{
    if state == "stdin" { None } else { Some(task) }
}

/// A task: what a job does, with the timing point and the day that its words name.
#[derive(Clone, Copy, PartialEq, Eq, Debug)]
pub enum Task {
    /// `new`: makes an empty state.
    New,
    /// `check`: counts the records and changes of a file.
    Check,
    /// `day`: prints a docker from one file.
    Day {
        /// The timing point.
        place: Tiploc,
        /// The day.
        day: Day,
    },
    /// `take`: takes a file into a state.
    Take,
    /// `merge`: joins a state with a second state.
    Merge,
    /// `print`: prints a docker from a state.
    Print {
        /// The timing point.
        place: Tiploc,
        /// The day.
        day: Day,
    },
    /// `files`: lists the files that a state knows.
    Files,
    /// `horizon`: raises the horizon of a state.
    Horizon {
        /// The day.
        day: Day,
    },
    /// `migrate`: converts a state from the format `DKS1` to the format `DKS2`.
    Migrate,
}

impl Task {
    /// Returns the subcommand that does this task.
    pub(crate) fn subcommand(self) -> Subcommand
        ensures { result ≡ subcommand_of (task_meant self) }
    {
        match self {
            Task::New => Subcommand::New,
            Task::Check => Subcommand::Check,
            Task::Day { .. } => Subcommand::Day,
            Task::Take => Subcommand::Take,
            Task::Merge => Subcommand::Merge,
            Task::Print { .. } => Subcommand::Print,
            Task::Files => Subcommand::Files,
            Task::Horizon { .. } => Subcommand::Horizon,
            Task::Migrate => Subcommand::Migrate,
        }
    }

    /// Returns the timing point that the task names, if it names one.
    pub(crate) fn tiploc(self) -> Option<Tiploc>
        ensures { result ≡ tiploc_of (task_meant self) }
    {
        match self {
            Task::Day { place, .. } | Task::Print { place, .. } => Some(place),
            _ => None,
        }
    }

    /// Returns the day that the task names, if it names one.
    pub(crate) fn day(self) -> Option<Day>
        ensures { result ≡ day_of (task_meant self) }
    {
        match self {
            Task::Day { day, .. } | Task::Print { day, .. } | Task::Horizon { day } => Some(day),
            _ => None,
        }
    }

    /// Returns the kind of input that the task reads.
    pub fn reads(self) -> Sources
        ensures { sources_meant result ≡ sources_of (task_meant self) }
    {
        self.subcommand().row().reads
    }

    /// Returns the kind of output that the task writes.
    pub fn writes(self) -> OutputKind
        ensures { result ≡ writes_of (task_meant self) }
    {
        self.subcommand().row().writes
    }
}
