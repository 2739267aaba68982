//! The events of a schedule, in order.
ghost use Rattle.std.specs.Prelude.{◌≡◌, ◌^◌, ◌<◌, None, All, length, List};
ghost use Rattle.std.specs.Iterator.{YieldsFirstBy, item_count};
ghost use Rattle.docker_model.specs.records.Field.{HasGoodFields};
ghost use Rattle.train_choice.specs.Occurrences.{Occurrence as Event, occurrences_from};
ghost use Rattle.train_choice.specs.EventWalk.{CanWalk, events_left, occurrence_meant};

use crate::walk::{EventWalk, Occurrence};
use cif_line::Line;
use std::marker::Model;

/// An iterator over the events of a schedule.
#[derive(Debug, Drop)]
pub struct Events<'a> {
    walk: EventWalk<'a>,
    lines: &'a [Line],
}

impl<'a> Model for Events<'a> {
    ghost Value = { List Event };

    ghost view = { λ events. events_left events.walk events.lines.now };

    ghost invariant = { λ events. CanWalk events.walk events.lines.now };
}

impl<'a> Events<'a> {
    /// The events of these lines. `basic` is the first line of the schedule, and `identity` is the
    /// train identity in that line.
    pub(crate) fn of(basic: &'a Line, identity: &'a [u8; 4], lines: &'a [Line]) -> Events<'a>
        requires good { All HasGoodFields lines.now }
        requires few { length lines.now < 2 ^ 32 }
        ensures { result ≡ occurrences_from
            (record { number = 1; falls = 0; last = None; identity = identity.entry.now })
            lines.entry.now }
    {
        Events {
            walk: EventWalk::new(basic, identity),
            lines,
        }
    }
}

impl<'a> Iterator for Events<'a> {
    type Item = Occurrence<'a>;

    ghost next_gives = { YieldsFirstBy occurrence_meant (λ events. events) };

    ghost remaining = { item_count (λ events. events) };

    fn next(&mut self) -> Option<Occurrence<'a>> {
        'lines: loop {
            if let Some(event) = self.walk.next_event() {
                return Some(event);
            }
            let (line, rest) = self.lines.split_first()?;
            self.lines = rest;
            self.walk.advance(line);
        }
    }
}
