//! The first event of a call, in a form that can be stored in a map.
ghost use Rattle.std.specs.Prelude.{◌≡◌};
ghost use Rattle.train_choice.specs.EventWalk.{occurrence_meant};
ghost use Rattle.train_choice.specs.Meaning.{occasion_meant};
ghost use Rattle.train_choice.specs.Occurrences as events;

use cif_line::{Line, Time};
use std::marker::Model;
use train_choice::{Occasion, Occurrence};

/// The first event of a train's call, in a form that can be stored in a map.
#[derive(Debug, Drop)]
pub(crate) struct FirstEvent<'a> {
    number: u64,
    occasion: Occasion,
    time: Time,
    falls: u64,
    line: &'a Line,
    identity: &'a [u8; 4],
}

impl<'a> Model for FirstEvent<'a> {
    ghost Value = { events.Occurrence };

    ghost view = { λ call. record {
      number = call.number;
      occasion = occasion_meant call.occasion;
      time = call.time;
      falls = call.falls;
      line = call.line.now;
      identity = call.identity.now;
    } };
}

impl<'a> FirstEvent<'a> {
    /// Converts the event to a form that can be stored in a map.
    pub(crate) fn of(event: &Occurrence<'a>) -> FirstEvent<'a>
        ensures { result ≡ occurrence_meant event.now }
    {
        FirstEvent {
            number: event.number,
            occasion: event.occasion,
            time: event.time,
            falls: event.falls,
            line: event.line,
            identity: event.identity,
        }
    }

    /// Converts the stored event back to an `Occurrence`.
    pub(crate) fn event(&self) -> Occurrence<'a>
        ensures { occurrence_meant result ≡ self.now }
    {
        Occurrence {
            number: self.number,
            occasion: self.occasion,
            time: self.time,
            falls: self.falls,
            line: self.line,
            identity: self.identity,
        }
    }
}
