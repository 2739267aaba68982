//! A walk over the lines of a schedule, line by line.
ghost use Rattle.std.specs.Prelude.{◌≡◌, ℕ, ◌+◌, ◌≤◌, [], None, length, option_map};
ghost use Rattle.cif_line.specs.Kind.{meaning};
ghost use Rattle.std.specs.Iterator.{YieldsFirstBy};
ghost use Rattle.docker_model.specs.records.Record.{kind_of};
ghost use Rattle.docker_model.specs.records.Field.{HasGoodFields};
ghost use Rattle.docker_model.specs.file.Journey.{times_of};
ghost use Rattle.docker_laws.specs.EventWalk.{fall_at};
ghost use Rattle.train_choice.specs.Meaning.{times_meant};
ghost use Rattle.train_choice.specs.Occurrences.{turned, identity_after};
ghost use Rattle.train_choice.specs.EventWalk.{occurrence_meant, progress_of, events_here, progress_after_line, HasRoom};

use crate::occasion::Occasion;
use crate::times::EventTimes;
use cif_line::{Kind, Line, Time, change, kind};

/// An event of a schedule, with the data that a walk over the lines computes for it.
#[derive(Clone, Copy, Debug)]
pub struct Occurrence<'a> {
    /// The event's number in the schedule, from 1.
    pub number: u64,
    /// The kind of event.
    pub occasion: Occasion,
    /// The event's time of day.
    pub time: Time,
    /// How often the train passes midnight between its start and the event.
    pub falls: u64,
    /// The event's line.
    pub line: &'a Line,
    /// The train identity at the event.
    pub identity: &'a [u8; 4],
}

/// A walk over the lines of a schedule. It keeps the current line and the remaining times of this
/// line. It also keeps the number of the next event, the number of midnights passed, the last time
/// that was read, and the train identity.
#[derive(Clone, Copy, Debug)]
pub(crate) struct EventWalk<'a> {
    line: &'a Line,
    times: EventTimes,
    number: u64,
    falls: u64,
    last: Option<Time>,
    identity: &'a [u8; 4],
}

impl<'a> EventWalk<'a> {
    /// A walk before its first line. `basic` is the schedule's first line, and `identity` is the
    /// train identity at the start.
    pub(crate) fn new(basic: &'a Line, identity: &'a [u8; 4]) -> EventWalk<'a>
        ensures times { times_meant result.times ≡ [] }
        ensures progress { progress_of result
            ≡ record { number = 1; falls = 0; last = None; identity = identity.entry.now } }
    {
        EventWalk {
            line: basic,
            times: EventTimes::none(),
            number: 1,
            falls: 0,
            last: None,
            identity,
        }
    }

    /// Moves to the next line.
    pub(crate) fn advance(&mut self, line: &'a Line)
        requires good { HasGoodFields line.now }
        ensures line { self.new.line ≡ line.entry }
        ensures times { times_meant self.new.times ≡ times_of line.entry.now }
        ensures few { length (times_meant self.new.times) ≤ 3 }
        ensures progress { progress_of self.new ≡ turned (progress_of self.old) line.entry.now }
    {
        self.line = line;
        let kind = kind(line);
        self.times = EventTimes::of(kind, line);
        self.identity = identity_after(kind, line, self.identity);
    }

    /// The next event of the current line, or `None` if the line has no further events.
    pub(crate) fn next_event(&mut self) -> Option<Occurrence<'a>>
        requires room { HasRoom self.old 0 }
        ensures event { YieldsFirstBy occurrence_meant events_here self.old result self.new }
        ensures behind { progress_after_line self.new ≡ progress_after_line self.old }
        ensures room { (more : ℕ) → HasRoom self.old more → HasRoom self.new more }
    {
        let (occasion, time) = self.times.next()?;
        let falls = self.falls + fall(self.last, time);
        let event = Occurrence {
            number: self.number,
            occasion,
            time,
            falls,
            line: self.line,
            identity: self.identity,
        };
        self.number += 1;
        self.falls = falls;
        self.last = Some(time);
        Some(event)
    }
}

/// Returns 1 if `time` is below the previous time, because the train then passes midnight between
/// the two times. Otherwise returns 0.
fn fall(last: Option<Time>, time: Time) -> u64
    ensures value { result ≡ fall_at last time }
    ensures few { result ≤ 1 }
{
    match last {
        Some(last) => { if time < last { 1 } else { 0 } }
        None => 0,
    }
}

/// The train identity after a line of this kind. A change en route (CR) sets a new train identity.
/// All other lines leave the train identity unchanged.
fn identity_after<'a>(kind: Option<Kind>, line: &'a Line, identity: &'a [u8; 4]) -> &'a [u8; 4]
    requires { option_map meaning kind ≡ kind_of line.now }
    ensures { result.now ≡ identity_after line.entry.now identity.entry.now }
{
    match kind {
        Some(Kind::ChangeEnRoute) => match change(line) {
            Ok(view) => view.identity(),
            Err(_) => unreachable!(),
        },
        _ => identity,
    }
}
