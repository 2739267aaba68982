//! Time fields, read whether or not they are good. Reading a field needs no branch for each byte.
//! The result says whether the field is good. A caller combines this result with the tests of the
//! record's other fields.
ghost use Rattle.std.specs.Prelude.{◌≡◌, ◌≤◌, ◌<◌, ◌||◌, length, true, Some, None, if◌then◌else◌};
ghost use Rattle.docker_model.specs.records.Clock.{is_blank, is_clock, minute_of};

use crate::digits::{are_four_digits, spelled};
use crate::time::Time;

/// The result of reading the first four bytes of a field as HHMM.
#[derive(Clone, Copy, PartialEq, Eq, Debug)]
pub(crate) struct ClockField {
    /// Whether the bytes are a time from `0000` to `2359`.
    pub is_good: bool,
    /// The minute of the day, if the bytes are a time.
    pub minute: u16,
}

impl ClockField {
    /// Reads the first four bytes of a field as HHMM.
    #[inline(always)]
    pub(crate) fn read(field: &[u8]) -> ClockField
        requires { 4 ≤ length field.now }
        ensures good { result.is_good ≡ is_clock field.now }
        ensures minute { is_clock field.now ≡ true → result.minute ≡ minute_of field.now }
    {
        let hour = spelled(field[0], field[1]);
        let minute = spelled(field[2], field[3]);
        ClockField {
            is_good: are_four_digits(field) & (hour < 24) & (minute < 60),
            minute: hour.wrapping_mul(60).wrapping_add(minute),
        }
    }
}

/// The result of reading the field of a scheduled time.
#[derive(Clone, Copy, PartialEq, Eq, Debug)]
pub(crate) struct TimeField {
    /// Whether the field is all spaces.
    pub is_blank: bool,
    /// Whether the field is a time.
    pub is_time: bool,
    half_minutes: u16,
    ghost bound: { is_time ≡ true → half_minutes < 2880 },
}

impl TimeField {
    ghost use Rattle.cif_line.specs.TimeRead.{ReadsTime};

    /// Reads the field of a scheduled time.
    #[inline(always)]
    pub(crate) fn read(field: &[u8; 5]) -> TimeField
        ensures { ReadsTime field.now result }
    {
        let clock = ClockField::read(field);
        let is_half = field[4] == b'H';
        TimeField {
            is_blank: is_blank_time(field),
            is_time: clock.is_good & (is_half | (field[4] == b' ')),
            half_minutes: clock
                .minute
                .wrapping_mul(2)
                .wrapping_add(u16::from(is_half)),
        }
    }

    /// Whether the field is blank or a time.
    #[inline(always)]
    pub(crate) fn is_good(self) -> bool
        ensures { result ≡ (self.is_blank || self.is_time) }
    {
        self.is_blank | self.is_time
    }

    /// The scheduled time. Returns `None` if the field isn't a time.
    #[inline(always)]
    pub(crate) fn time(self) -> Option<Time>
        ensures { result ≡ (if self.is_time then Some self.half_minutes else None) }
    {
        if self.is_time {
            Time::from_half_minutes(self.half_minutes)
        } else {
            None
        }
    }
}

/// Whether the field of a public time is all spaces.
#[tactic(auto, using(crate::proofs::Times::four_spaces))]
pub(crate) fn is_blank_public_time(field: &[u8; 4]) -> bool
    ensures { result ≡ is_blank field.now }
{
    field == b"    "
}

/// Whether the field of a scheduled time is all spaces.
#[tactic(auto, using(crate::proofs::Times::five_spaces))]
pub(crate) fn is_blank_time(field: &[u8; 5]) -> bool
    ensures { result ≡ is_blank field.now }
{
    field == b"     "
}
