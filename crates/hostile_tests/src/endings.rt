//! How a call ends if the allocator may refuse memory.

use cif_file::{FileCause, FileFault};
use cif_line::Memory;
use docker_bytes::{ReadFault, StateCause, StateFault};
use docker_cmd::JobFault;
use docker_day::DockerFault;
use docker_office::OfficeFault;

/// How a call ended.
#[derive(Clone, Copy, PartialEq, Eq)]
pub(crate) enum Ending {
    /// The call succeeded.
    Done,
    /// The call failed because memory ran out.
    Memory,
    /// The call was refused, and memory wasn't the reason.
    Other,
}

impl Ending {
    /// The line that is printed for this ending.
    pub(crate) fn line<'a>(self) -> &'a [u8] {
        match self {
            Ending::Done => b"  done\n",
            Ending::Memory => b"  want of memory\n",
            Ending::Other => b"  refused for something else\n",
        }
    }
}

/// A fault that may mean that memory ran out.
pub(crate) trait MayWant {
    /// Whether the fault means that memory ran out.
    fn is_memory(&self) -> bool;
}

/// How a call with this result ended.
pub(crate) fn ending_of<T, F: MayWant>(answer: &Result<T, F>) -> Ending {
    match answer {
        Ok(_) => Ending::Done,
        Err(fault) => {
            if fault.is_memory() {
                Ending::Memory
            } else {
                Ending::Other
            }
        }
    }
}

impl MayWant for Memory {
    fn is_memory(&self) -> bool {
        true
    }
}

impl MayWant for FileFault {
    fn is_memory(&self) -> bool {
        self.cause == FileCause::Memory
    }
}

impl MayWant for StateFault {
    fn is_memory(&self) -> bool {
        self.cause == StateCause::Memory
    }
}

impl MayWant for ReadFault {
    fn is_memory(&self) -> bool {
        *self == ReadFault::Memory
    }
}

impl MayWant for DockerFault {
    fn is_memory(&self) -> bool {
        *self == DockerFault::Memory
    }
}

impl MayWant for OfficeFault {
    fn is_memory(&self) -> bool {
        *self == OfficeFault::Memory
    }
}

impl MayWant for JobFault {
    fn is_memory(&self) -> bool {
        *self == JobFault::Memory
    }
}
