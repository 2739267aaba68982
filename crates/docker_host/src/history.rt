//! The history of a folder: its events, which only proofs see. A history takes no memory, and its
//! functions do nothing at run time.
ghost use Rattle.std.specs.Prelude.{◌≡◌, ℕ, List, [], ◌∷◌, ◌++◌, length};
ghost use Rattle.std.specs.Borrow.{ftrue};
ghost use Rattle.docker_host.specs.History.{Event};

use std::marker::Model;

/// The events of a folder, oldest first. Only proofs see them.
#[derive(Drop)]
pub struct History {
    pub ghost events: { List Event },
}

impl Model for History {
    ghost also_owns = { λ _. ftrue };
}

/// A position in a history: the number of events before it. Only proofs see it.
#[derive(Drop)]
pub struct Position {
    pub ghost at: { ℕ },
}

impl Model for Position {
    ghost also_owns = { λ _. ftrue };
}

/// An event that is about to be added to a history.
#[derive(Clone, Copy, Drop)]
pub enum Note<'a> {
    /// A named file was looked at.
    Looked(&'a str),
    /// A named file was opened, and held these bytes.
    Opened(&'a str, &'a [u8]),
    /// A named file was opened. Contracts can't say which bytes it held.
    OpenedUnnamed(&'a str),
    /// A named file couldn't be opened.
    Unopened(&'a str),
    /// An opened file was closed while these bytes were still unread.
    Closed(&'a [u8]),
    /// An opened file was closed. Contracts can't say which bytes were left in it.
    ClosedUnnamed,
    /// A draft for a named file was made. It is based on the look at this position in the history.
    Drafted(&'a str, &'a Position),
    /// A draft for a named file, based on the look at this position in the history, couldn't be
    /// made.
    Undrafted(&'a str, &'a Position),
    /// A draft replaced a named file. From then on the file holds these bytes.
    Placed(&'a str, &'a [u8]),
    /// A draft replaced a named file. Contracts can't say which bytes the draft held.
    PlacedUnnamed(&'a str),
    /// Replacing a named file with a draft that held these bytes failed.
    Unplaced(&'a str, &'a [u8]),
    /// Replacing a named file with a draft failed. Contracts can't say which bytes the draft held.
    UnplacedUnnamed(&'a str),
    /// A draft for a named file was discarded.
    Dropped(&'a str),
}

impl History {
    ghost use Rattle.docker_host.specs.Notes.{event_of};

    /// Returns a history without events.
    pub fn new() -> History
        ensures { result.events ≡ [] }
    {
        History {}
    }

    /// Returns the history with this event appended.
    pub fn then(&self, _note: &Note<'_>) -> History
        ensures { result.events ≡ self.now.events ++ event_of _note.now ∷ [] }
    {
        History {}
    }

    /// Returns the position that the next event will have: the number of events so far.
    pub fn position(&self) -> Position
        ensures { result.at ≡ length self.now.events }
    {
        Position {}
    }
}
