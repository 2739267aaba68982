//! The reasons why no job was found.
ghost use Rattle.std.specs.Prelude.{◌≡◌};
ghost use Rattle.docker_cmd.specs.declared.job_fault.JobFault.TheVariants.{Memory};

use std::alloc::AllocError;
use thiserror::Error;

/// The reason why no job was found in the words or in the job line.
#[derive(Clone, Copy, PartialEq, Eq, Debug, Error)]
pub enum JobFault {
    /// The words aren't a subcommand followed by the words that it requires.
    #[error("usage")]
    Usage,
    /// Out of memory: the allocator refused a request.
    #[error("want of memory")]
    Memory,
    /// The source of the job line failed.
    #[error("device failed")]
    Source,
}

impl From<AllocError> for JobFault {
    ghost from_gives = { λ _ fault. fault ≡ Memory };

    fn from(_refused: AllocError) -> JobFault {
        JobFault::Memory
    }
}
