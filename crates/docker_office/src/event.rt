//! The events of a run, each at one office.
use cif_line::Day;

/// An event at one office in a run. Offices and messages are numbered from 0. A message that no
/// event delivers is lost.
#[derive(Clone, Copy, Debug)]
pub enum Event<'a> {
    /// The office takes a file: it joins its state with the file's state.
    Take {
        /// The number of the office.
        office: usize,
        /// The text of the file.
        text: &'a [u8],
        /// The greatest number of records that the file may have. It is at most 4,294,967,294.
        limit: u32,
    },
    /// The office sends its state as a new message.
    Send {
        /// The number of the office.
        office: usize,
    },
    /// The office receives a message: it joins its state with the state in the message.
    Deliver {
        /// The number of the office.
        office: usize,
        /// The number of the message.
        message: usize,
    },
    /// The office replaces its state with the state in a message.
    Reload {
        /// The number of the office.
        office: usize,
        /// The number of the message.
        message: usize,
    },
    /// The office sets its horizon.
    Horizon {
        /// The number of the office.
        office: usize,
        /// The horizon. Schedules and associations that ended before this day lapse.
        day: Day,
    },
}
