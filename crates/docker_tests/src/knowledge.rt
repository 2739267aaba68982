//! Works out what offices know in a run. It uses only the events and the replies of the run. It
//! also makes the state that an office with this knowledge must have, without using an office.

use crate::offices::text_of;
use cif_file::{FileCause, FileFault, MOST_RECORDS, read_file};
use cif_line::{Bytes, Day, Kept};
use docker_office::{OfficeFault, Reply, RunFault};
use docker_state::{Merge, State};
use state_text::{encoded_len, write_state};
use std::alloc::Global;
use std::process::Abort;
use test_records::files::*;

/// The number of offices.
pub(crate) const OFFICES: usize = 3;

/// The files that an office may take. Offices refuse the first two files.
pub(crate) const FILES: [File; 18] = [
    OPEN,
    THREE_NIGHTS,
    MORNING,
    REVISION,
    FIFTH,
    SEVENTH,
    NINTH,
    DELETION,
    EIGHTH,
    PLACE,
    RENAMED,
    WEEK,
    DIVISION_FILE,
    LONGER,
    LATER,
    DELETED,
    JULY,
    FULL,
];

/// The faults for which offices refuse the first two files.
const REFUSED: [FileFault; 2] = [
    FileFault {
        number: 5,
        cause: FileCause::NoEnd,
    },
    FileFault {
        number: 6,
        cause: FileCause::Midnights,
    },
];

/// Returns the texts of the files.
pub(crate) fn texts_of_files(rt: &impl Abort, alloc: Global) -> Vec<Vec<u8>> {
    let mut texts = Vec::new(alloc);
    for file in FILES {
        let text = text_of(rt, alloc, file);
        texts.push(text).expect(rt, "room");
    }
    texts
}

/// An event at an office. A file is represented by its index in `FILES`.
#[derive(Clone, Copy)]
pub(crate) enum Step {
    /// The office takes a file.
    Take {
        /// The index of the office.
        office: usize,
        /// The index of the file in `FILES`.
        file: usize,
    },
    /// The office sends its state.
    Send {
        /// The index of the office.
        office: usize,
    },
    /// A message is delivered to an office.
    Deliver {
        /// The index of the office.
        office: usize,
        /// The index of the message.
        message: usize,
    },
    /// An office reloads a message.
    Reload {
        /// The index of the office.
        office: usize,
        /// The index of the message.
        message: usize,
    },
    /// An office sets a horizon.
    Horizon {
        /// The index of the office.
        office: usize,
        /// The horizon that the office sets.
        day: Day,
    },
}

impl Step {
    /// Returns the index of the office at which this event happens.
    fn office(&self) -> usize {
        match self {
            Step::Take { office, .. }
            | Step::Send { office }
            | Step::Deliver { office, .. }
            | Step::Reload { office, .. }
            | Step::Horizon { office, .. } => *office,
        }
    }

    /// Returns the index of the message that is delivered or reloaded, or `None` for other events.
    fn message(&self) -> Option<usize> {
        match self {
            Step::Deliver { message, .. } | Step::Reload { message, .. } => Some(*message),
            Step::Take { .. } | Step::Send { .. } | Step::Horizon { .. } => None,
        }
    }

    /// Returns the fault for which the office refuses the file. Returns `None` if the event doesn't
    /// take a file, or takes a file that isn't refused.
    fn refusal(&self) -> Option<FileFault> {
        match self {
            Step::Take { file, .. } => REFUSED.get(*file).copied(),
            _ => None,
        }
    }
}

/// What an office knows, or what a message carries: files, each by its index in `FILES`, and a
/// horizon.
#[derive(Clone, Copy)]
pub(crate) struct Known {
    files: [bool; FILES.len()],
    horizon: Option<Day>,
}

impl Known {
    /// Returns the knowledge of an office that knows no file and no horizon.
    fn nothing() -> Known {
        Known {
            files: [false; FILES.len()],
            horizon: None,
        }
    }

    /// Adds a file to this knowledge.
    fn take(&mut self, file: usize) {
        if let Some(known) = self.files.get_mut(file) {
            *known = true;
        }
    }

    /// Replaces the known horizon with this horizon, if this horizon is greater.
    fn raise(&mut self, horizon: Option<Day>) {
        if self.horizon < horizon {
            self.horizon = horizon;
        }
    }

    /// Adds what another office knows, or what a message carries, to this knowledge.
    fn join(&mut self, other: &Known) {
        for file in 0..FILES.len() {
            self.files[file] |= other.files[file];
        }
        self.raise(other.horizon);
    }

    /// Returns the state of an office that knows these files and this horizon.
    fn state(&self, rt: &impl Abort, alloc: Global, texts: &[Vec<u8>]) -> State {
        let mut state = State::empty(alloc);
        for (text, known) in texts.iter().zip(self.files.iter()) {
            if *known {
                let other = state_of(rt, alloc, text.as_slice());
                state = state.join(alloc, other).expect(rt, "room");
            }
        }
        if let Some(day) = self.horizon {
            state.set_horizon(day);
        }
        state
    }

    /// Returns the text of the state of an office that knows these files and this horizon.
    pub(crate) fn text(&self, rt: &impl Abort, alloc: Global, texts: &[Vec<u8>]) -> Kept {
        let state = self.state(rt, alloc, texts);
        let room = usize::try_from(encoded_len(&state)).expect(rt, "a length");
        let mut kept = Kept::new(alloc, room).expect(rt, "room");
        write_state(&state, &mut kept).expect(rt, "all is written");
        kept
    }
}

/// Returns the state of a file.
fn state_of(rt: &impl Abort, alloc: Global, text: &[u8]) -> State {
    let mut source = Bytes::new(text, 4096);
    let file = read_file(alloc, &mut source, MOST_RECORDS).expect(rt, "a file");
    State::of_file(alloc, file).expect(rt, "room")
}

/// What each office knows, and what each message carries.
#[derive(Drop)]
pub(crate) struct Knowledge {
    pub(crate) offices: [Known; OFFICES],
    pub(crate) messages: Vec<Known>,
}

impl Knowledge {
    /// Returns the knowledge at the start of a run, when no office knows anything and no message
    /// has been sent.
    pub(crate) fn new(alloc: Global) -> Knowledge {
        Knowledge {
            offices: [Known::nothing(); OFFICES],
            messages: Vec::new(alloc),
        }
    }

    /// Returns the reply that is expected for this event if memory doesn't run out.
    pub(crate) fn due(&self, step: &Step) -> Reply {
        if step.office() >= OFFICES {
            return Reply::Refused(RunFault::NoOffice);
        }
        if let Some(message) = step.message() {
            if message >= self.messages.len() {
                return Reply::Refused(RunFault::NoMessage);
            }
        }
        match step.refusal() {
            Some(fault) => Reply::Refused(RunFault::Office(OfficeFault::File(fault))),
            None => Reply::Done,
        }
    }

    /// Updates the knowledge after an event with this reply. A refused event changes nothing.
    pub(crate) fn follow(&mut self, rt: &impl Abort, step: &Step, reply: Reply) {
        if reply == Reply::Done {
            self.follow_done(rt, step);
        }
    }

    /// Updates the knowledge after an event that was carried out.
    fn follow_done(&mut self, rt: &impl Abort, step: &Step) {
        let known = self.offices.get_mut(step.office()).expect(rt, "an office");
        match step {
            Step::Take { file, .. } => known.take(*file),
            Step::Send { .. } => self.messages.push(*known).expect(rt, "room"),
            Step::Deliver { message, .. } => {
                known.join(self.messages.get(*message).expect(rt, "a message"));
            }
            Step::Reload { message, .. } => {
                *known = *self.messages.get(*message).expect(rt, "a message");
            }
            Step::Horizon { day, .. } => known.raise(Some(*day)),
        }
    }
}
