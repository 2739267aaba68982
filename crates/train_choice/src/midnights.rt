//! How often a train passes midnight.
ghost use Rattle.std.specs.Prelude.{◌≡◌, ◌↔◌, ◌≤◌, All, Contains, IsSome, IfSome};
ghost use Rattle.docker_model.specs.records.Field.{HasGoodFields};
ghost use Rattle.docker_model.specs.file.Journey.{times_of};
ghost use Rattle.docker_model.specs.docker.Event.{Event, events_of, falls_to};
ghost use Rattle.train_choice.specs.Falls.{falls_among};
ghost use Rattle.train_choice.specs.Midnights.{some_late, ascends, falls_along};
ghost use Rattle.train_choice.specs.UpTo.{occurrences_to};

use crate::events::Events;
use crate::schedule_view::ScheduleView;
use crate::times::EventTimes;
use cif_line::{Line, Tiploc, kind};

/// How often a train passes midnight between its start and an event: 0 to 2 times. Events are
/// numbered from 1. Returns `None` if there is no event with this number.
#[tactic(auto, using(crate::proofs::FallsCounted::falls_there, crate::proofs::FallsCounted::falls_are))]
pub fn falls(view: &ScheduleView<'_>, event: u64) -> Option<u8>
    ensures there { IsSome result ↔
        ((e : Event) × Contains (events_of view.now.lines) e × (e.number ≡ event)) }
    ensures value { IfSome result (λ falls. falls ≡ falls_to view.now.lines event) }
    ensures few { IfSome result (λ falls. falls ≤ 2) }
{
    let falls = falls_among(view.events(), event)?;
    Some(falls as u8)
}

/// How often midnight is passed before the event with this number. Returns `None` if no event has
/// this number.
fn falls_among(events: Events<'_>, event: u64) -> Option<u64>
    ensures { result ≡ falls_among event events.entry }
{
    for found in events {
        if found.number == event {
            return Some(found.falls);
        }
    }
    None
}

/// Whether a train passes midnight before one of its events up to its last line at a place. The
/// call reads only the times of the lines, so it costs less than a walk over the events.
pub fn passes_midnight(view: &ScheduleView<'_>, place: &Tiploc) -> bool
    ensures { result ≡ some_late (occurrences_to place.now view.now.lines) }
{
    falls_along(view.lines_to(place))
}

/// Whether some time in these lines is below the preceding time. Times are in half minutes from
/// midnight, so the train passes midnight between these two times.
fn falls_along(lines: &[Line]) -> bool
    requires good { All HasGoodFields lines.now }
    ensures { result ≡ falls_along 0 lines.now }
{
    let mut last = 0;
    let mut behind = lines;
    while let Some((line, rest)) = behind.split_first() {
        match ascending_to(line, last) {
            Some(time) => last = time,
            None => return true,
        }
        behind = rest;
    }
    false
}

/// The last time in the line, in half minutes, or `before` if the line has no time. Returns `None`
/// if a time is below the preceding time, where `before` precedes the first time.
fn ascending_to(line: &Line, before: u16) -> Option<u16>
    requires good { HasGoodFields line.now }
    ensures { result ≡ ascends before (times_of line.now) }
{
    let mut last = before;
    for found in EventTimes::of(kind(line), line) {
        let time = found.1.half_minutes();
        if time < last {
            return None;
        }
        last = time;
    }
    Some(last)
}
