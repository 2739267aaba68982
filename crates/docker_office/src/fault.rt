//! The reasons why an office refuses a request.
ghost use Rattle.std.specs.Prelude.{◌≡◌};
ghost use Rattle.docker_office.specs.Faults.{office_fault_of_file, office_fault_of_state, office_fault_of_docker};

use cif_file::FileFault;
use docker_bytes::StateFault;
use docker_day::DockerFault;
use thiserror::Error;

/// Why an office refuses a request.
#[derive(Clone, Copy, PartialEq, Eq, Debug, Error)]
pub enum OfficeFault {
    /// The source doesn't hold a file. The fault is at the first bad record, and its cause is never
    /// that memory ran out.
    #[error("file refused: {0}")]
    File(FileFault),
    /// The source doesn't hold a state. The fault is at the first bad part, and its cause is never
    /// that memory ran out.
    #[error("state refused: {0}")]
    State(StateFault),
    /// The state has a horizon, and the day is before the third day after the horizon.
    #[error("day refused: before horizon plus three days")]
    Lapsed,
    /// The source failed.
    #[error("the source failed")]
    Source,
    /// The sink failed.
    #[error("the sink failed")]
    Sink,
    /// Out of memory: the allocator refused a request.
    #[error("want of memory")]
    Memory,
}

impl From<cif_file::FileReadFault> for OfficeFault {
    ghost from_gives = { λ cause fault. fault ≡ office_fault_of_file cause };

    fn from(cause: cif_file::FileReadFault) -> OfficeFault {
        match cause {
            cif_file::FileReadFault::Source => OfficeFault::Source,
            cif_file::FileReadFault::File(fault) => OfficeFault::File(fault),
            cif_file::FileReadFault::Memory => OfficeFault::Memory,
        }
    }
}

impl From<docker_bytes::ReadFault> for OfficeFault {
    ghost from_gives = { λ cause fault. fault ≡ office_fault_of_state cause };

    fn from(cause: docker_bytes::ReadFault) -> OfficeFault {
        match cause {
            docker_bytes::ReadFault::Source => OfficeFault::Source,
            docker_bytes::ReadFault::State(fault) => OfficeFault::State(fault),
            docker_bytes::ReadFault::Memory => OfficeFault::Memory,
        }
    }
}

impl From<DockerFault> for OfficeFault {
    ghost from_gives = { λ cause fault. fault ≡ office_fault_of_docker cause };

    fn from(cause: DockerFault) -> OfficeFault {
        match cause {
            DockerFault::Lapsed => OfficeFault::Lapsed,
            DockerFault::Memory => OfficeFault::Memory,
        }
    }
}
