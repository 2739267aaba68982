//! Where a docker line comes from.
use cif_line::{Day, Line};

/// Where a docker line comes from. A record that there isn't is `None`.
#[derive(Debug, Drop)]
pub(crate) struct LineOrigin<'a> {
    /// The day on which the train starts.
    pub(crate) start: Day,
    /// The number of the event, counted from 1.
    pub(crate) number: u64,
    /// The basic schedule.
    pub(crate) basic: Option<&'a Line>,
    /// The extra details of the schedule.
    pub(crate) extra: Option<&'a Line>,
    /// The change en route that is in force at the event.
    pub(crate) change: Option<&'a Line>,
    /// The location record of the event.
    pub(crate) location: Option<&'a Line>,
    /// The association, if it is the line of one.
    pub(crate) association: Option<&'a Line>,
}
