//! The calendar of the years 1960 to 2059, computed from tables of the months. Testing a day and
//! computing its number need no branch. Years have two digits: 60 to 99 are 1960 to 1999, and 0 to
//! 59 are 2000 to 2059.
ghost use Rattle.std.specs.Prelude.{◌≡◌, ◌<◌, ◌≤◌, ◌+◌, true, pos};
ghost use Rattle.jiff.specs.Words.{is_leap_year};
ghost use Rattle.docker_model.specs.records.Date.{is_calendar_day, day_number, last_day, full_year};

/// The number of days in each month, in a year that isn't a leap year. The index is the month, from
/// 1 to 12. Indexes 0 and 13 aren't months, and have 0 days.
const LENGTHS: [u16; 14] = [0, 31, 28, 31, 30, 31, 30, 31, 31, 30, 31, 30, 31, 0];

/// The number of days of the year before each month, in a year that isn't a leap year. The index is
/// the month, from 1 to 12.
const BEFORE: [u16; 13] = [0, 0, 31, 59, 90, 120, 151, 181, 212, 243, 273, 304, 334];

/// Whether a year of two digits, a month and a day are a day of the calendar.
#[inline(always)]
pub(crate) fn is_calendar_day(year: u16, month: u16, day: u16) -> bool
    ensures { year < 100 → result ≡ is_calendar_day (full_year year) month day }
{
    let leap_day = u16::from((month == 2) & is_leap_year(year));
    let length = LENGTHS[month.min(13) as usize] + leap_day;
    (1 <= day) & (day <= length)
}

/// The day number of a day of the calendar.
#[inline(always)]
pub(crate) fn day_number(year: u16, month: u16, day: u16) -> u16
    requires year_in { year < 100 }
    requires good { is_calendar_day (full_year year) month day ≡ true }
    ensures value { result ≡ day_number (full_year year) month day }
    ensures bound { result ≤ last_day }
{
    let years = years_from_1960(year);
    let leap_days = (years + 3) / 4 + u16::from((2 < month) & is_leap_year(year));
    365 * years + leap_days + BEFORE[month as usize] + day - 1
}

/// Whether the year is a leap year. From 1960 to 2059 every fourth year is one, including 2000.
#[inline(always)]
fn is_leap_year(year: u16) -> bool
    ensures { year < 100 → result ≡ is_leap_year (pos (full_year year)) }
{
    year % 4 == 0
}

/// How many years there are from 1960 to this year.
#[inline(always)]
fn years_from_1960(year: u16) -> u16
    requires { year < 100 }
    ensures value { result + 1960 ≡ full_year year }
    ensures bound { result < 100 }
{
    if year >= 60 { year - 60 } else { year + 40 }
}
