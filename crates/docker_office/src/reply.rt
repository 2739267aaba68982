//! Replies to the events of a run.
use crate::fault::OfficeFault;
use thiserror::Error;

/// The reply to an event.
#[derive(Clone, Copy, PartialEq, Eq, Debug)]
pub enum Reply {
    /// The event was carried out.
    Done,
    /// The event was refused, and had no effect.
    Refused(RunFault),
}

/// Why an event is refused.
#[derive(Clone, Copy, PartialEq, Eq, Debug, Error)]
pub enum RunFault {
    /// The office doesn't exist.
    #[error("no such office")]
    NoOffice,
    /// The office exists, but the message doesn't.
    #[error("no such message")]
    NoMessage,
    /// The office refused the event: for a `Take`, because of the file's fault or because memory
    /// ran out; for any other event, because memory ran out.
    #[error("{0}")]
    Office(OfficeFault),
}
