//! Times of day in location records (LO, LI and LT).
ghost use Rattle.std.specs.Prelude.{◌≡◌, ◌↔◌, ◌≤◌, ◌<◌, ◌+◌, length, IsSome, is_some, IfSome, IsTrue, ◌*◌, true, nat_lt, Some, None, if◌then◌else◌};
ghost use Rattle.std.specs.Prelude.{ℕ};
ghost use Rattle.docker_model.specs.records.Date.{two_digits};
ghost use Rattle.docker_model.specs.records.Clock.{is_clock, minute_of, is_present_time, half_minutes, is_scheduled_time, scheduled_time, is_public_time};
ghost use Rattle.docker_model.specs.records.PrintedTime.{shown_public, time_text};
ghost use Rattle.cif_line.specs.FieldRead.{public_half_minutes, public_text};

use crate::digits::two_digits;
use crate::time_field::{ClockField, TimeField, is_blank_public_time, is_blank_time};
use std::marker::Model;

/// A scheduled time of day, in half minutes since midnight, from 0 to 2879.
#[derive(Clone, Copy, PartialEq, Eq, PartialOrd, Ord, Debug)]
pub struct Time {
    half_minutes: u16,
}

impl Model for Time {
    ghost Value = { ℕ };

    ghost view = { λ time. time.half_minutes };

    ghost invariant = { λ time. time.half_minutes < 2880 };

    ghost inverse = { λ half_minutes. record { half_minutes = half_minutes } };
}

impl Time {
    /// The time that is this many half minutes after midnight. Returns `None` if the number is 2880
    /// or more.
    pub(crate) fn from_half_minutes(half_minutes: u16) -> Option<Time>
        ensures { result ≡ (if nat_lt half_minutes 2880 then Some half_minutes else None) }
    {
        if half_minutes < 2880 {
            Some(Time { half_minutes })
        } else {
            None
        }
    }

    /// Reads a scheduled time: HHMM from `0000` to `2359`, followed by `H` for a half minute or by
    /// a space for a whole minute. Returns `None` for any other field, including a blank one.
    pub fn from_field(field: &[u8; 5]) -> Option<Time>
        ensures some { IsSome result ↔ IsTrue (is_present_time field.now) }
        ensures value { IfSome result (λ time. time ≡ half_minutes field.now) }
    {
        TimeField::read(field).time()
    }

    /// Reads a scheduled time that may be blank. Returns `Some(None)` for a blank field, and `None`
    /// for a field that is neither blank nor a time.
    #[tactic(auto, using(crate::proofs::Times::scheduled_times))]
    pub fn scheduled(field: &[u8; 5]) -> Option<Option<Time>>
        ensures some { is_some result ≡ is_scheduled_time field.now }
        ensures value { IfSome result (λ time. time ≡ scheduled_time field.now) }
    {
        let read = TimeField::read(field);
        if read.is_good() {
            Some(read.time())
        } else {
            None
        }
    }

    /// The scheduled time in a field that is known to be blank or a time. Returns `None` if it is
    /// blank.
    #[tactic(auto, using(crate::proofs::Times::scheduled_times))]
    pub(crate) fn from_scheduled(field: &[u8; 5]) -> Option<Time>
        requires good { is_scheduled_time field.now ≡ true }
        ensures { result ≡ scheduled_time field.now }
    {
        if is_blank_time(field) {
            return None;
        }
        Some(Time::from_present(field))
    }

    /// The scheduled time in a field that is known to be a time.
    #[tactic(auto, using(crate::proofs::Times::clock_bounds))]
    pub(crate) fn from_present(field: &[u8; 5]) -> Time
        requires good { is_present_time field.now ≡ true }
        ensures { result ≡ half_minutes field.now }
    {
        let half = if field[4] == b'H' { 1 } else { 0 };
        Time {
            half_minutes: 2 * minute_in(field) + half,
        }
    }

    /// The public time, a whole minute, in a field that is known to be HHMM or blank. Returns
    /// `None` if it is blank or `0000`.
    pub(crate) fn from_public(field: &[u8; 4]) -> Option<Time>
        requires good { is_public_time field.now ≡ true }
        ensures value { result ≡ public_half_minutes field.now }
        ensures shown { shown_public field.now ≡ public_text result }
    {
        if is_blank_public_time(field) || field == b"0000" {
            return None;
        }
        let minute = clock(field)?;
        Some(Time {
            half_minutes: 2 * minute,
        })
    }

    /// The half minutes since midnight, from 0 to 2879.
    pub fn half_minutes(&self) -> u16
        ensures value { result ≡ self.now }
        ensures bound { self.now < 2880 }
    {
        self.half_minutes
    }

    /// The time as HHMM, followed by `H` for a half minute or by a space for a whole minute.
    pub fn text(&self) -> [u8; 5]
        ensures { result ≡ time_text self.now }
    {
        let minute = self.half_minutes / 2;
        let hour = (minute / 60) as u8;
        let minute = (minute % 60) as u8;
        let half = if self.half_minutes % 2 == 1 {
            b'H'
        } else {
            b' '
        };
        [
            b'0' + hour / 10,
            b'0' + hour % 10,
            b'0' + minute / 10,
            b'0' + minute % 10,
            half,
        ]
    }
}

/// The minute of the day, from 0 to 1439, in a field that begins with HHMM. Returns `None` if the
/// first four bytes aren't a time from `0000` to `2359`.
pub fn clock(field: &[u8]) -> Option<u16>
    requires { 4 ≤ length field.now }
    ensures some { IsSome result ↔ IsTrue (is_clock field.now) }
    ensures value { IfSome result (λ minute. minute ≡ minute_of field.now) }
    ensures bound { IfSome result (λ minute. minute < 1440) }
{
    let read = ClockField::read(field);
    if read.is_good {
        Some(read.minute)
    } else {
        None
    }
}

/// The minute of the day in a field that is known to begin with a time HHMM.
#[tactic(auto, using(crate::proofs::Times::clock_bounds))]
fn minute_in(field: &[u8; 5]) -> u16
    requires good { is_clock field.now ≡ true }
    ensures value { result ≡ minute_of field.now }
    ensures bound { result < 1440 }
{
    60 * two_digits(field, 0) + two_digits(field, 2)
}

/// Whether a field is a time HHMM from `0000` to `2359`.
pub fn is_clock(field: &[u8; 4]) -> bool
    ensures { result ≡ is_clock field.now }
{
    ClockField::read(field).is_good
}

/// Whether a field is a public time: HHMM from `0000` to `2359`, or blank.
pub fn is_public_time(field: &[u8; 4]) -> bool
    ensures { result ≡ is_public_time field.now }
{
    is_blank_public_time(field) | is_clock(field)
}
