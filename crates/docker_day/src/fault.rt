//! Why no docker can be made.
use thiserror::Error;

/// Why no docker can be made.
#[derive(Clone, Copy, PartialEq, Eq, Debug, Error)]
pub enum DockerFault {
    /// The state has a horizon, and the day is earlier than three days after the horizon.
    #[error("lapsed")]
    Lapsed,
    /// Out of memory: the allocator refused a request.
    #[error("out of memory")]
    Memory,
}
