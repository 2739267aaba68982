//! Days of the calendar, as numbers counted from 1 January 1960.
ghost use Rattle.std.specs.Prelude.{◌≡◌, ℕ, ◌+◌, ◌<◌, ◌≤◌, ◌↔◌, pos, ◌+ℤ◌, IsTrue, true, IsSome, IfSome, Some, unsigned_abs};
ghost use Rattle.std.specs.Option.{SomeIff};
ghost use Rattle.std.specs.Str.{IsAscii};
ghost use Rattle.jiff.specs.Words.{IsBetween};
ghost use Rattle.docker_model.specs.records.Date.{is_date, date_number, is_date_day_first, date_number_day_first};
ghost use Rattle.docker_model.specs.records.Date.{last_day, weekday_of};
ghost use Rattle.docker_model.specs.records.PrintedTime.{day_text, date_text};

use crate::date::{date_number, date_number_day_first, is_date, is_date_day_first};
use jiff_core::civil;
use std::marker::Model;
use std::{fmt, str};

/// How many days there are from -9999-01-01, where the library's calendar begins, to 1960-01-01.
const FIRST: u32 = 4_367_934;

/// The day number of 2059-12-31.
const LAST: u16 = 36524;

/// A day from 1960-01-01 to 2059-12-31, stored as its day number. The day number is the number of
/// days since 1960-01-01, from 0 to 36524.
#[derive(Clone, Copy, PartialEq, Eq, PartialOrd, Ord, Debug)]
pub struct Day {
    number: u16,
}

impl Model for Day {
    ghost Value = { ℕ };

    ghost view = { λ day. day.number };

    ghost inverse = { λ number. record { number = number } };

    ghost invariant = { λ day. day.number ≤ last_day };
}

impl Day {
    /// The day that six digits YYMMDD mean, as in a basic schedule (BS). Years 60 to 99 are 1960 to
    /// 1999, and 00 to 59 are 2000 to 2059. Returns `None` if a byte isn't a digit or the calendar
    /// has no such day.
    pub fn from_yymmdd(field: &[u8; 6]) -> Option<Day>
        ensures some { IsSome result ↔ IsTrue (is_date field.now) }
        ensures value { IfSome result (λ day. day ≡ date_number field.now) }
    {
        if !is_date(field) {
            return None;
        }
        Some(Day::of_date(field))
    }

    /// The day of a field that is known to be a date YYMMDD.
    #[inline(always)]
    pub(crate) fn of_date(field: &[u8; 6]) -> Day
        requires good { is_date field.now ≡ true }
        ensures { result ≡ date_number field.now }
    {
        Day {
            number: date_number(field),
        }
    }

    /// The day that six digits DDMMYY mean, as in a header (HD). Years are as in `from_yymmdd`.
    /// Returns `None` if a byte isn't a digit or the calendar has no such day.
    pub fn from_ddmmyy(field: &[u8; 6]) -> Option<Day>
        ensures some { IsSome result ↔ IsTrue (is_date_day_first field.now) }
        ensures value { IfSome result (λ day. day ≡ date_number_day_first field.now) }
    {
        if !is_date_day_first(field) {
            return None;
        }
        Some(Day::of_date_day_first(field))
    }

    /// The day of a field that is known to be a date DDMMYY.
    #[inline(always)]
    pub(crate) fn of_date_day_first(field: &[u8; 6]) -> Day
        requires good { is_date_day_first field.now ≡ true }
        ensures { result ≡ date_number_day_first field.now }
    {
        Day {
            number: date_number_day_first(field),
        }
    }

    /// Reads a day from a text YYYY-MM-DD, as `iso` writes it. Returns `None` for any other text.
    pub fn from_iso(text: &str) -> Option<Day>
        ensures value { IfSome result (λ day. text.now ≡ day_text day) }
        ensures read { (day : ℕ) → day ≤ last_day → text.now ≡ day_text day → result ≡ Some day }
    {
        let [_, _, y1, y2, _, m1, m2, _, d1, d2] = text.as_bytes() else {
            return None;
        };
        let day = Day::from_yymmdd(&[*y1, *y2, *m1, *m2, *d1, *d2])?;
        if day.iso().as_slice() == text.as_bytes() {
            Some(day)
        } else {
            None
        }
    }

    /// The day with this number. Returns `None` if the number is above 36524.
    pub fn from_number(number: u16) -> Option<Day>
        ensures { SomeIff result (number ≤ last_day) number }
    {
        if number > LAST {
            return None;
        }
        Some(Day { number })
    }

    /// The day as YYYY-MM-DD, in ten bytes of ASCII.
    pub fn iso(&self) -> [u8; 10]
        ensures text { result ≡ day_text self.now }
        ensures ascii { IsAscii result }
    {
        let date = self.date();
        let (century, year) = (date.year as u16 / 100, date.year as u16 % 100);
        let (month, day) = (date.month as u16, date.day as u16);
        [
            digit(century / 10),
            digit(century % 10),
            digit(year / 10),
            digit(year % 10),
            b'-',
            digit(month / 10),
            digit(month % 10),
            b'-',
            digit(day / 10),
            digit(day % 10),
        ]
    }

    /// The day number, from 0 to 36524.
    pub fn number(&self) -> u16
        ensures value { result ≡ self.now }
        ensures bound { result ≤ last_day }
    {
        self.number
    }

    /// The day of the week: 0 for Monday to 6 for Sunday.
    pub fn weekday(&self) -> u8
        ensures value { result ≡ weekday_of self.now }
        ensures bound { result < 7 }
    {
        // Day 0 was a Friday.
        ((self.number + 4) % 7) as u8
    }

    /// The day that is this many days later, or earlier if `days` is negative. Returns `None` if
    /// the result would be before 1960-01-01 or after 2059-12-31.
    pub fn plus(&self, days: i32) -> Option<Day>
        ensures some { IsSome result ↔ IsBetween (pos 0) (pos last_day) (pos self.now +ℤ days) }
        ensures value { IfSome result (λ day. pos day ≡ pos self.now +ℤ days) }
    {
        let sum = self.number as i64 + days as i64;
        if sum < 0 || sum > LAST as i64 {
            return None;
        }
        Some(Day { number: sum as u16 })
    }

    /// This day as a date of the library's calendar.
    fn date(&self) -> civil::Date
        ensures years { IsBetween (pos 1960) (pos 2059) result.year }
        ensures months { result.month ≤ 12 }
        ensures days { result.day ≤ 31 }
        ensures text { day_text self.now ≡
            date_text (unsigned_abs result.year) result.month result.day }
    {
        civil::Date::from_days_since_min(FIRST + self.number as u32)
    }
}

impl fmt::Display for Day {
    ghost output = { λ day. Some (day_text day) };

    fn fmt<W: fmt::Write>(&self, f: &mut fmt::Formatter<W>) -> fmt::Result {
        match str::from_utf8(&self.iso()) {
            Ok(text) => f.write_str(text),
            Err(_) => unreachable!(),
        }
    }
}

/// The ASCII digit for a number below 10.
fn digit(n: u16) -> u8
    requires { n < 10 }
    ensures value { result ≡ 48 + n }
    ensures ascii { result < 128 }
{
    b'0' + n as u8
}
