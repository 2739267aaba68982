//! The scheduled times of a journey's lines, and how often the journey passes midnight.
ghost use Rattle.std.specs.Prelude.{◌≡◌, ◌+◌, ◌≤◌, ◌<◌, ◌↔◌, [], ◌∷◌, IsOk, IfOk, IfErr, Some, true};
ghost use Rattle.docker_model.specs.records.Record.{HasKind, origin_location, intermediate_location, terminating_location};
ghost use Rattle.docker_model.specs.records.Field.{HasGoodFields, leftmost_bad_field};
ghost use Rattle.docker_model.specs.file.File.{follows_basic};
ghost use Rattle.cif_laws.specs.TimesSoFar.{falls_after, later_or};
ghost use Rattle.cif_line.specs.CallRead.{number_meant};
ghost use Rattle.cif_line.specs.Kind.{meaning};
ghost use Rattle.cif_change.specs.JourneyRead.{time_list, times_list, AreTimesOf};

use cif_line::{FieldFault, Kind, Line, Time, call, origin, terminus};

/// How many half minutes a day has. A time is below this number. This number and all greater
/// numbers stand for no time.
const HALF_MINUTES: u16 = 2880;

/// What a reader remembers of the times read so far: how often the journey has passed midnight
/// (`falls`), and the last time in half minutes. Before the first time, `last` is 0: no time is
/// below 0, so the first time never counts as past midnight.
#[derive(Clone, Copy, PartialEq, Eq, Debug)]
pub(crate) struct Clock {
    pub falls: u8,
    pub last: u16,
}

/// The scheduled times of one line in half minutes, in the order of the journey. A line has at most
/// three. A number that is [`HALF_MINUTES`] or more stands for no time.
#[derive(Clone, Copy, PartialEq, Eq, Debug)]
pub(crate) struct LineTimes {
    first: u16,
    second: u16,
    third: u16,
}

impl Clock {
    /// The clock before the first time: midnight hasn't been passed.
    pub(crate) fn new() -> Clock
        ensures { result ≡ record { falls = 0; last = 0 } }
    {
        Clock { falls: 0, last: 0 }
    }

    /// The clock after one more time. If the number stands for no time, the clock is unchanged. A
    /// time below the last time means that midnight has been passed. There is no branch on whether
    /// there is a time: calls and passes follow each other so irregularly that the processor
    /// couldn't predict such a branch.
    fn then(self, time: u16) -> Clock
        requires few { self.falls < 255 }
        requires in_day { self.last < HALF_MINUTES }
        ensures falls { result.falls ≡
            self.falls + falls_after (Some self.last) (time_list (number_meant time)) }
        ensures last { Some result.last ≡ later_or (number_meant time) (Some self.last) }
        ensures few { result.falls ≤ self.falls + 1 }
        ensures in_day { result.last < HALF_MINUTES }
    {
        let Clock { falls, last } = self;
        Clock {
            falls: falls + u8::from(time < last),
            last: if time < HALF_MINUTES { time } else { last },
        }
    }

    /// The clock after the times of one more line.
    pub(crate) fn past(self, times: LineTimes) -> Clock
        requires few { self.falls < 250 }
        requires in_day { self.last < HALF_MINUTES }
        ensures falls { result.falls ≡
            self.falls + falls_after (Some self.last) (times_list times) }
        ensures last { Some result.last ≡ later_or (number_meant times.third)
            (later_or (number_meant times.second)
            (later_or (number_meant times.first) (Some self.last))) }
        ensures in_day { result.last < HALF_MINUTES }
    {
        self.then(times.first).then(times.second).then(times.third)
    }
}

impl LineTimes {
    /// The times of a line without a time.
    fn none() -> LineTimes
        ensures { times_list result ≡ [] }
    {
        LineTimes {
            first: HALF_MINUTES,
            second: HALF_MINUTES,
            third: HALF_MINUTES,
        }
    }

    /// The times of a line with one time.
    fn one(time: Time) -> LineTimes
        ensures { times_list result ≡ time ∷ [] }
    {
        LineTimes {
            first: time.half_minutes(),
            second: HALF_MINUTES,
            third: HALF_MINUTES,
        }
    }
}

/// The scheduled times of any line after the basic schedule. The error is the first column of the
/// line's leftmost bad field. Most lines are intermediate locations, so they are tested first. For
/// them the processor needn't predict a jump into a table of kinds.
pub(crate) fn times_at(kind: Kind, line: &Line) -> Result<LineTimes, FieldFault>
    requires kind { HasKind (meaning kind) line.now }
    requires follows { follows_basic (Some (meaning kind)) ≡ true }
    ensures ok { IsOk result ↔ HasGoodFields line.now }
    ensures value { IfOk result (AreTimesOf line.now) }
    ensures err { IfErr result (λ fault. leftmost_bad_field line.now ≡ Some fault.0) }
{
    match kind {
        Kind::IntermediateLocation => call_times(line),
        _ => times_of_any(kind, line),
    }
}

/// The same as `times_at`, for any kind.
#[cold]
#[inline(never)]
fn times_of_any(kind: Kind, line: &Line) -> Result<LineTimes, FieldFault>
    requires kind { HasKind (meaning kind) line.now }
    requires follows { follows_basic (Some (meaning kind)) ≡ true }
    ensures ok { IsOk result ↔ HasGoodFields line.now }
    ensures value { IfOk result (AreTimesOf line.now) }
    ensures err { IfErr result (λ fault. leftmost_bad_field line.now ≡ Some fault.0) }
{
    match kind {
        Kind::OriginLocation => origin_times(line),
        Kind::IntermediateLocation => call_times(line),
        Kind::TerminatingLocation => terminus_times(line),
        _ => Ok(LineTimes::none()),
    }
}

/// The time of an origin: its departure. The error is the first column of the leftmost bad field.
fn origin_times(line: &Line) -> Result<LineTimes, FieldFault>
    requires kind { HasKind origin_location line.now }
    ensures ok { IsOk result ↔ HasGoodFields line.now }
    ensures value { IfOk result (AreTimesOf line.now) }
    ensures err { IfErr result (λ fault. leftmost_bad_field line.now ≡ Some fault.0) }
{
    let view = origin(line)?;
    Ok(LineTimes::one(view.departure()))
}

/// The times of an intermediate location: its arrival, pass and departure. The number of a blank
/// field stands for no time. The error is the first column of the leftmost bad field.
#[inline(always)]
fn call_times(line: &Line) -> Result<LineTimes, FieldFault>
    requires kind { HasKind intermediate_location line.now }
    ensures ok { IsOk result ↔ HasGoodFields line.now }
    ensures value { IfOk result (AreTimesOf line.now) }
    ensures err { IfErr result (λ fault. leftmost_bad_field line.now ≡ Some fault.0) }
{
    let view = call(line)?;
    Ok(LineTimes {
        first: view.arrival_number(),
        second: view.pass_number(),
        third: view.departure_number(),
    })
}

/// The time of a terminus: its arrival. The error is the first column of the leftmost bad field.
fn terminus_times(line: &Line) -> Result<LineTimes, FieldFault>
    requires kind { HasKind terminating_location line.now }
    ensures ok { IsOk result ↔ HasGoodFields line.now }
    ensures value { IfOk result (AreTimesOf line.now) }
    ensures err { IfErr result (λ fault. leftmost_bad_field line.now ≡ Some fault.0) }
{
    let view = terminus(line)?;
    Ok(LineTimes::one(view.arrival()))
}
