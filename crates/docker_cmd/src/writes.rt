//! The kinds of output that a task writes.

/// A kind of output.
#[derive(Clone, Copy, PartialEq, Eq, Debug)]
pub enum OutputKind {
    /// The line with a file's counts.
    Counts,
    /// The docker of a timing point on a day.
    Docker,
    /// The list of the files that a state knows.
    Files,
    /// The text of a state. This text replaces the file that the first word names.
    State,
}
