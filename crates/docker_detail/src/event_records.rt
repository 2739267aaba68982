//! The records of a schedule that belong to one of its events.
use cif_line::Line;

/// The records of a schedule that belong to one of its events. A record that there isn't is `None`.
#[derive(Debug, Drop)]
pub(crate) struct EventRecords<'a> {
    /// The basic schedule.
    pub(crate) basic: Option<&'a Line>,
    /// The extra details of the schedule.
    pub(crate) extra: Option<&'a Line>,
    /// The change en route that is in force at the event.
    pub(crate) change: Option<&'a Line>,
    /// The location record of the event.
    pub(crate) location: Option<&'a Line>,
}
