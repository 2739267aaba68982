//! The faults that end the program before it has finished its job.
ghost use Rattle.std.specs.Prelude.{◌≡◌};
ghost use Rattle.docker_cmd.specs.declared.fault.Fault.TheVariants.{Job, Office};

use crate::job_fault::JobFault;
use docker_office::OfficeFault;
use thiserror::Error;

/// A fault that ends the program. `Display` writes the inner fault; `fault_text` returns the line
/// that the program writes to standard error.
#[derive(Clone, Copy, PartialEq, Eq, Debug, Error)]
pub enum Fault {
    /// No job was found. The inner fault says why.
    #[error("{0}")]
    Job(JobFault),
    /// The job was refused or couldn't be finished. The inner fault says why.
    #[error("{0}")]
    Office(OfficeFault),
}

impl From<JobFault> for Fault {
    ghost from_gives = { λ cause fault. fault ≡ Job cause };

    fn from(cause: JobFault) -> Fault {
        Fault::Job(cause)
    }
}

impl From<OfficeFault> for Fault {
    ghost from_gives = { λ cause fault. fault ≡ Office cause };

    fn from(cause: OfficeFault) -> Fault {
        Fault::Office(cause)
    }
}
