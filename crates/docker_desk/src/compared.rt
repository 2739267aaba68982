//! The result of comparing the text in a file with the text of a state.
/// Whether a file held the text of an office's state.
#[derive(Clone, Copy, PartialEq, Eq, Debug)]
pub enum Compared {
    /// The file held exactly the text of the state.
    Same,
    /// The file held a text that differs from the text of the state.
    Other,
    /// The texts weren't compared, because the caller didn't request a comparison or because there
    /// was no memory to keep the file's text.
    Unknown,
}
