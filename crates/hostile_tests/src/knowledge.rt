//! What offices know after the events of a run, computed from the replies.

use cif_file::{FileCause, FileFault};
use docker_office::{OfficeFault, Reply, RunFault};
use std::alloc::{AllocError, Global};

/// The number of offices.
pub(crate) const OFFICES: usize = 3;

/// Which of the three files an office knows, or which of them the state in a message includes.
#[derive(Clone, Copy, PartialEq, Eq)]
pub(crate) struct Known {
    /// Whether the update of 5 June is known or included.
    pub(crate) fifth: bool,
    /// Whether the full extract of 7 June is known or included.
    pub(crate) seventh: bool,
    /// Whether the update of 9 June is known or included.
    pub(crate) ninth: bool,
}

/// The empty set: none of the three files.
const NONE: Known = Known {
    fifth: false,
    seventh: false,
    ninth: false,
};

/// The set with only the update of 5 June.
const FIFTH: Known = Known {
    fifth: true,
    seventh: false,
    ninth: false,
};

/// The set with only the full extract of 7 June.
const SEVENTH: Known = Known {
    fifth: false,
    seventh: true,
    ninth: false,
};

/// The set with only the update of 9 June.
const NINTH: Known = Known {
    fifth: false,
    seventh: false,
    ninth: true,
};

impl Known {
    /// The union of two sets of files.
    fn with(self, other: Known) -> Known {
        Known {
            fifth: self.fifth | other.fifth,
            seventh: self.seventh | other.seventh,
            ninth: self.ninth | other.ninth,
        }
    }

    /// The name of the text that holds the state of these files. If the full extract is known, the
    /// update of 5 June is below the floor and doesn't count.
    pub(crate) fn state<'a>(self) -> &'a str {
        if self.seventh {
            return if self.ninth {
                "late.state"
            } else {
                "seventh.state"
            };
        }
        match (self.fifth, self.ninth) {
            (false, false) => "empty.state",
            (false, true) => "ninth.state",
            (true, false) => "fifth.state",
            (true, true) => "fifth-and-ninth.state",
        }
    }

    /// The name of the docker of these files, for Ashfeld on 10 June.
    pub(crate) fn docker<'a>(self) -> &'a str {
        match (self.seventh, self.ninth) {
            (false, true) => "ninth.docker",
            (true, false) => "seventh.docker",
            (true, true) => "late.docker",
            (false, false) => {
                if self.fifth {
                    "train.docker"
                } else {
                    "none.docker"
                }
            }
        }
    }
}

/// An event of the run.
#[derive(Clone, Copy, PartialEq, Eq)]
pub(crate) enum Step {
    /// An office takes a file.
    Take(usize, Known),
    /// An office takes the file of 9 June without its trailer.
    TakeOpen(usize),
    /// An office sends its state.
    Send(usize),
    /// A message is delivered to an office.
    Deliver(usize, usize),
    /// An office reloads the state in a message.
    Reload(usize, usize),
}

/// The events of the run, in order.
pub(crate) const STEPS: [Step; 18] = [
    Step::Take(0, FIFTH),
    Step::Send(0),
    Step::Take(1, SEVENTH),
    Step::Send(1),
    Step::Take(2, NINTH),
    Step::Send(2),
    Step::Deliver(0, 2),
    Step::Deliver(0, 2),
    Step::Send(0),
    Step::Deliver(1, 2),
    Step::Deliver(1, 0),
    Step::Send(1),
    Step::Reload(0, 0),
    Step::Deliver(0, 4),
    Step::Deliver(2, 1),
    Step::Deliver(3, 0),
    Step::Deliver(0, 5),
    Step::TakeOpen(2),
];

/// The reply to an event during which memory runs out.
const OUT_OF_MEMORY: Reply = Reply::Refused(RunFault::Office(OfficeFault::Memory));

/// What each office knows, and which files each message includes, after the first events of the
/// run.
#[derive(Drop)]
pub(crate) struct Book {
    /// What each office knows.
    pub(crate) offices: [Known; OFFICES],
    /// The files that the state in each message includes.
    pub(crate) messages: Vec<Known>,
    /// Whether each reply so far is a reply that is allowed for its event.
    pub(crate) fits: bool,
    /// How many events were refused because memory ran out.
    pub(crate) wanting: u32,
}

impl Book {
    /// The book before the first event: no office knows a file, and no message has been sent.
    pub(crate) fn new(alloc: Global) -> Book {
        Book {
            offices: [NONE; OFFICES],
            messages: Vec::new(alloc),
            fits: true,
            wanting: 0,
        }
    }

    /// Records an event and its reply.
    pub(crate) fn enter(&mut self, step: Step, reply: Reply) -> Result<(), AllocError> {
        let wanted = self.reply_to(step);
        if reply == OUT_OF_MEMORY {
            self.wanting = self.wanting.saturating_add(1);
            self.fits &= is_tried(wanted);
            return Ok(());
        }
        self.fits &= reply == wanted;
        if reply == Reply::Done {
            self.meet(step)?;
        }
        Ok(())
    }

    /// The only reply that is allowed for an event unless memory runs out.
    fn reply_to(&self, step: Step) -> Reply {
        match step {
            Step::Take(_, _) | Step::Send(_) => Reply::Done,
            Step::TakeOpen(_) => Reply::Refused(RunFault::Office(OfficeFault::File(FileFault {
                number: 5,
                cause: FileCause::NoEnd,
            }))),
            Step::Deliver(office, message) | Step::Reload(office, message) => {
                if office >= OFFICES {
                    Reply::Refused(RunFault::NoOffice)
                } else if message >= self.messages.len() {
                    Reply::Refused(RunFault::NoMessage)
                } else {
                    Reply::Done
                }
            }
        }
    }

    /// Records the effect of an event that was carried out.
    fn meet(&mut self, step: Step) -> Result<(), AllocError> {
        match step {
            Step::Take(office, file) => self.learn(office, file),
            Step::TakeOpen(_) => {}
            Step::Send(office) => {
                let files = self.known(office);
                self.messages.push(files)?;
            }
            Step::Deliver(office, message) => {
                let files = self.known_by(message);
                self.learn(office, files);
            }
            Step::Reload(office, message) => {
                let files = self.known_by(message);
                self.set(office, files);
            }
        }
        Ok(())
    }

    /// What an office knows.
    fn known(&self, office: usize) -> Known {
        self.offices.get(office).copied().unwrap_or(NONE)
    }

    /// The files that the state in a message includes.
    fn known_by(&self, message: usize) -> Known {
        self.messages.get(message).copied().unwrap_or(NONE)
    }

    /// Adds these files to what an office knows.
    fn learn(&mut self, office: usize, files: Known) {
        let all = self.known(office).with(files);
        self.set(office, all);
    }

    /// Sets what an office knows to exactly these files.
    fn set(&mut self, office: usize, files: Known) {
        if let Some(known) = self.offices.get_mut(office) {
            *known = files;
        }
    }
}

/// Whether the event was refused because memory ran out.
pub(crate) fn is_out_of_memory(reply: &Reply) -> bool {
    *reply == OUT_OF_MEMORY
}

/// Whether memory may run out during an event that should get this reply. Memory can't run out if
/// the office or the message doesn't exist.
fn is_tried(reply: Reply) -> bool {
    match reply {
        Reply::Done => true,
        Reply::Refused(fault) => match fault {
            RunFault::NoOffice | RunFault::NoMessage => false,
            RunFault::Office(_) => true,
        },
    }
}
