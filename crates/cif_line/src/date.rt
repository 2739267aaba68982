//! Tests and reads date fields. All six bytes are tested at once, without a branch for each digit,
//! or for the year, the month or the day. A field that is known to be a date is read without a
//! test.
ghost use Rattle.std.specs.Prelude.{◌≡◌, ◌<◌, ◌≤◌, ◌+◌, true};
ghost use Rattle.std.specs.List.{list_all};
ghost use Rattle.std.specs.Char.{is_ascii_digit};
ghost use Rattle.docker_model.specs.records.Date.{is_date, date_number, is_date_day_first, date_number_day_first};
ghost use Rattle.docker_model.specs.records.Date.{two_digits, last_day};

use crate::calendar::{day_number, is_calendar_day};
use crate::digits::{are_six_digits, spelled};

/// Whether a field is a date with the year first.
#[inline(always)]
pub(crate) fn is_date(field: &[u8; 6]) -> bool
    ensures { result ≡ is_date field.now }
{
    are_six_digits(field) & is_calendar_day(pair(field, 0), pair(field, 2), pair(field, 4))
}

/// Whether a field is a date with the day first.
#[inline(always)]
pub(crate) fn is_date_day_first(field: &[u8; 6]) -> bool
    ensures { result ≡ is_date_day_first field.now }
{
    are_six_digits(field) & is_calendar_day(pair(field, 4), pair(field, 2), pair(field, 0))
}

/// The day number of a date with the year first.
#[inline(always)]
pub(crate) fn date_number(field: &[u8; 6]) -> u16
    requires good { is_date field.now ≡ true }
    ensures value { result ≡ date_number field.now }
    ensures bound { result ≤ last_day }
{
    day_number(pair(field, 0), pair(field, 2), pair(field, 4))
}

/// The day number of a date with the day first.
#[inline(always)]
pub(crate) fn date_number_day_first(field: &[u8; 6]) -> u16
    requires good { is_date_day_first field.now ≡ true }
    ensures value { result ≡ date_number_day_first field.now }
    ensures bound { result ≤ last_day }
{
    day_number(pair(field, 4), pair(field, 2), pair(field, 0))
}

/// The number that two digits of a field spell. `at` is the index of the first digit, counted from
/// 0.
#[inline(always)]
fn pair(field: &[u8; 6], at: usize) -> u16
    requires within { at + 1 < 6 }
    ensures value { list_all is_ascii_digit field.now ≡ true → result ≡ two_digits field.now at }
    ensures bound { list_all is_ascii_digit field.now ≡ true → result < 100 }
{
    spelled(field[at], field[at + 1])
}
