//! The outcomes that a call may have in a row of a table.

use crate::desk::Desk;
use docker_cmd::{Fault, fault_text};

/// The outcome of a call that an office makes.
#[derive(Clone, Copy, PartialEq, Eq)]
pub(crate) enum Answer {
    /// The call succeeded, with the expected result.
    Done,
    /// The call was refused, and nothing changed.
    Refused(Fault),
    /// The outcome depends on the number of bytes per read.
    Uneven,
    /// The call was refused, but the office's state changed.
    Changed,
    /// The call succeeded, but its result isn't the expected result.
    Unlike,
    /// After a device failed, a second try with a good device gave the wrong result.
    Stuck,
}

impl Answer {
    /// Prints the answer.
    pub(crate) fn report(self, desk: &Desk) {
        match self {
            Answer::Done => desk.print(b"done\n"),
            Answer::Refused(fault) => desk.print(fault_text(&fault).as_slice()),
            Answer::Uneven => desk.print(b"not so: it differs by the bytes of a read\n"),
            Answer::Changed => desk.print(b"not so: refused, and the office is changed\n"),
            Answer::Unlike => desk.print(b"not so: something else came of it\n"),
            Answer::Stuck => desk.print(b"not so: another answer with good devices\n"),
        }
    }
}
