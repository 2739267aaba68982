//! Reasons why the schedule chosen for a UID on a day isn't printed.
use thiserror::Error;

/// Why the schedule chosen for a UID on a day isn't printed.
#[derive(Clone, Copy, PartialEq, Eq, Debug, Error)]
pub enum TrainFault {
    /// The day is before the state's horizon. Schedules that ran on the day may have lapsed.
    #[error("lapsed")]
    Lapsed,
    /// The sink failed.
    #[error("the sink failed")]
    Sink,
}
