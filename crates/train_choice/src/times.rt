//! The scheduled times in a line.
ghost use Rattle.std.specs.Prelude.{◌≡◌, ◌≤◌, [], length, option_map};
ghost use Rattle.cif_line.specs.Kind.{meaning};
ghost use Rattle.std.specs.Iterator.{YieldsFirstBy, item_count};
ghost use Rattle.docker_model.specs.records.Record.{HasKind, kind_of, origin_location, intermediate_location, terminating_location};
ghost use Rattle.docker_model.specs.records.Field.{HasGoodFields};
ghost use Rattle.docker_model.specs.file.Journey.{timed, times_of};
ghost use Rattle.docker_model.specs.file.Journey as journey;
ghost use Rattle.train_choice.specs.Meaning.{occasion_meant, times_meant};

use crate::occasion::Occasion;
use cif_line::{Kind, Line, Time, kind};

/// The times in a line, in order: an arrival, a pass and a departure. Each time may be absent.
#[derive(Clone, Copy, Debug)]
pub(crate) struct EventTimes {
    arrival: Option<Time>,
    pass: Option<Time>,
    departure: Option<Time>,
}

impl EventTimes {
    /// No times, for a line without times.
    pub(crate) fn none() -> EventTimes
        ensures { times_meant result ≡ [] }
    {
        EventTimes {
            arrival: None,
            pass: None,
            departure: None,
        }
    }

    /// The times in a line. `kind` has to be the line's kind.
    pub(crate) fn of(kind: Option<Kind>, line: &Line) -> EventTimes
        requires kind { option_map meaning kind ≡ kind_of line.now }
        requires good { HasGoodFields line.now }
        ensures times { times_meant result ≡ times_of line.now }
        ensures few { length (times_meant result) ≤ 3 }
    {
        match kind {
            Some(Kind::OriginLocation) => origin_times(line),
            Some(Kind::IntermediateLocation) => call_times(line),
            Some(Kind::TerminatingLocation) => terminus_times(line),
            _ => EventTimes::none(),
        }
    }
}

/// How many events a line has. It has one event for each of its scheduled times.
pub fn event_count(line: &Line) -> u64
    requires good { HasGoodFields line.now }
    ensures count { result ≡ length (times_of line.now) }
    ensures few { result ≤ 3 }
{
    let times = EventTimes::of(kind(line), line);
    one_if(times.arrival) + one_if(times.pass) + one_if(times.departure)
}

/// Returns 1 if there is a time, and otherwise 0.
fn one_if(time: Option<Time>) -> u64
    ensures count { (occasion : journey.Occasion) → result ≡ length (timed occasion time) }
    ensures few { result ≤ 1 }
{
    match time {
        Some(_) => 1,
        None => 0,
    }
}

impl Iterator for EventTimes {
    type Item = (Occasion, Time);

    ghost next_gives = { YieldsFirstBy (λ time. (occasion_meant time.0, time.1)) times_meant };

    ghost remaining = { item_count times_meant };

    fn next(&mut self) -> Option<(Occasion, Time)> {
        if let Some(time) = self.arrival.take() {
            return Some((Occasion::Arrival, time));
        }
        if let Some(time) = self.pass.take() {
            return Some((Occasion::Pass, time));
        }
        let time = self.departure.take()?;
        Some((Occasion::Departure, time))
    }
}

/// The times at an origin: only a departure.
#[tactic(auto, using(crate::proofs::LineTimes::line_times))]
fn origin_times(line: &Line) -> EventTimes
    requires kind { HasKind origin_location line.now }
    requires good { HasGoodFields line.now }
    ensures { times_meant result ≡ times_of line.now }
{
    EventTimes {
        arrival: None,
        pass: None,
        departure: Some(line.present_time(11)),
    }
}

/// The times at an intermediate location, which may have an arrival, a pass and a departure.
#[tactic(auto, using(crate::proofs::LineTimes::line_times))]
fn call_times(line: &Line) -> EventTimes
    requires kind { HasKind intermediate_location line.now }
    requires good { HasGoodFields line.now }
    ensures { times_meant result ≡ times_of line.now }
{
    EventTimes {
        arrival: line.scheduled_time(11),
        pass: line.scheduled_time(21),
        departure: line.scheduled_time(16),
    }
}

/// The times at a terminus: only an arrival.
#[tactic(auto, using(crate::proofs::LineTimes::line_times))]
fn terminus_times(line: &Line) -> EventTimes
    requires kind { HasKind terminating_location line.now }
    requires good { HasGoodFields line.now }
    ensures { times_meant result ≡ times_of line.now }
{
    EventTimes {
        arrival: Some(line.present_time(11)),
        pass: None,
        departure: None,
    }
}
