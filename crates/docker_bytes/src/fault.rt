//! Why a text isn't the text of a state, and whether the text of a state is complete.
ghost use Rattle.std.specs.Prelude.{Some};
ghost use Rattle.docker_bytes.specs.FaultText.{fault_text};

use state_text::StateCause;
use std::error::Error;
use std::fmt;

/// The offset and the cause of a fault in the text of a state, or the offset at which memory ran
/// out.
#[derive(Clone, Copy, PartialEq, Eq, Debug)]
pub struct StateFault {
    /// The offset in the text, from 0. For `Long` it is the limit, and for `Tail` the offset of the
    /// first byte after the state. For any other fault of a text it is the offset at which the item
    /// at fault begins.
    pub at: u64,
    /// The cause of the fault at this offset.
    pub cause: StateCause,
}

impl fmt::Display for StateFault {
    ghost output = { λ fault. Some (fault_text fault) };

    fn fmt<W: fmt::Write>(&self, f: &mut fmt::Formatter<W>) -> fmt::Result {
        write!(f, "offset {}: {}", self.at, self.cause)
    }
}

impl Error for StateFault {}

/// Whether the text of a state is complete.
#[derive(Clone, Copy, PartialEq, Eq, Debug)]
pub enum Step {
    /// The last byte of the state was read.
    Done,
    /// The state needs more bytes.
    More,
}
