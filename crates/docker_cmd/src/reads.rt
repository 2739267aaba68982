//! The kinds of input that a task reads.

/// The input of a task, in the order of its words. It says which of the words name files or standard
/// input, and so which devices the program has to open. `prepare` doesn't need it: the task itself
/// determines how the sources are read.
#[derive(Clone, Copy, PartialEq, Eq, Debug)]
pub enum Sources {
    /// No input.
    NoSource,
    /// A CIF file that is only checked. No office takes it.
    CheckedFile,
    /// A CIF file that an office takes.
    TakenFile,
    /// A state.
    OneState,
    /// A state in the older format, whose mark is `DKS1`.
    OlderState,
    /// A state, and then a CIF file that the office with this state takes.
    StateAndFile,
    /// A state, and then a second state that is joined to the first.
    TwoStates,
}
