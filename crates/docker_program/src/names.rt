//! The sources that the words of a job name.

/// The word that names standard input.
pub(crate) const STDIN: &str = "stdin";

/// The sources of a job, in the order of its words.
#[derive(Clone, Copy, Debug)]
pub(crate) enum SourceNames<'a> {
    /// No source.
    None,
    /// Standard input.
    Stdin,
    /// The file with this name.
    File(&'a str),
    /// The file with this name, and then standard input.
    FileAndStdin(&'a str),
    /// The file with the first name, and then the file with the second name.
    Files(&'a str, &'a str),
}
