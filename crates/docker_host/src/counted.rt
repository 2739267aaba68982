//! A history whose events are counted at run time.
ghost use Rattle.std.specs.Prelude.{◌≡◌, ℕ, ◌+◌, [], ◌∷◌, ◌++◌, length, List};
ghost use Rattle.docker_host.specs.Counts.{IsCountOf};
ghost use Rattle.docker_host.specs.Notes.{event_of};
ghost use Rattle.docker_host.specs.History.{Event};

use crate::history::{History, Note, Position};
use std::marker::Model;

/// A history, and the number of its events. The number isn't increased beyond `u64::MAX`.
#[derive(Drop)]
pub(crate) struct CountedHistory {
    history: History,
    count: u64,
}

impl Model for CountedHistory {
    ghost Value = { List Event };

    ghost view = { λ counted. counted.history.events };

    ghost invariant = { λ counted. IsCountOf counted.count (length counted.history.events) };
}

impl CountedHistory {
    /// Returns a history without events.
    pub(crate) fn new() -> CountedHistory
        ensures { result ≡ [] }
    {
        CountedHistory {
            history: History::new(),
            count: 0,
        }
    }

    /// Returns the history with this event appended.
    pub(crate) fn then(&self, note: &Note<'_>) -> CountedHistory
        ensures { result ≡ self.now ++ event_of note.now ∷ [] }
    {
        CountedHistory {
            history: self.history.then(note),
            count: next_count(self.count),
        }
    }

    /// Returns the number of events so far, or `u64::MAX` if there are at least as many.
    pub(crate) fn count(&self) -> u64
        ensures { IsCountOf result (length self.now) }
    {
        self.count
    }

    /// Returns the position that the next event will have: the number of events so far.
    pub(crate) fn position(&self) -> Position
        ensures { result.at ≡ length self.now }
    {
        self.history.position()
    }
}

/// Returns the count after one more event. The count isn't increased beyond `u64::MAX`.
pub(crate) fn next_count(count: u64) -> u64
    ensures { (number : ℕ) → IsCountOf count number → IsCountOf result (number + 1) }
{
    count.saturating_add(1)
}
