//! The end date of a basic schedule (BS) or of an association (AA).
ghost use Rattle.std.specs.Prelude.{◌≡◌, ℕ, ◌≤◌, ◌⊎◌, ◌↔◌, IsTrue, true, IsSome, IfSome};
ghost use Rattle.docker_model.specs.records.Date.{is_end_date, end_number, is_no_end, last_day, no_end_number};

use crate::date::{date_number, is_date};
use std::marker::Model;

/// The end number that stands for no end. It is greater than every day number.
pub const NO_END: u16 = 65535;

/// An end date, as its end number: the day number of the last day, or 65535 for no end. In the
/// order of end dates, 65535 comes last.
#[derive(Clone, Copy, PartialEq, Eq, PartialOrd, Ord, Debug)]
pub struct Until {
    number: u16,
}

impl Model for Until {
    ghost Value = { ℕ };

    ghost view = { λ end. end.number };

    ghost inverse = { λ number. record { number = number } };

    ghost invariant = { λ end. (end.number ≤ last_day) ⊎ (end.number ≡ no_end_number) };
}

impl Until {
    /// The end date in six digits: `999999` for no end, or a day YYMMDD. Returns `None` for any
    /// other field.
    pub fn from_field(field: &[u8; 6]) -> Option<Until>
        ensures some { IsSome result ↔ IsTrue (is_end_date field.now) }
        ensures value { IfSome result (λ end. end ≡ end_number field.now) }
    {
        if !is_end_date(field) {
            return None;
        }
        Some(Until::of_end_date(field))
    }

    /// The end date in a field that is known to be an end date.
    #[inline(always)]
    pub(crate) fn of_end_date(field: &[u8; 6]) -> Until
        requires good { is_end_date field.now ≡ true }
        ensures { result ≡ end_number field.now }
    {
        let number = if is_no_end(field) {
            NO_END
        } else {
            date_number(field)
        };
        Until { number }
    }

    /// The end number: the day number of the last day, or 65535 for no end.
    pub fn number(&self) -> u16
        ensures value { result ≡ self.now }
        ensures range { (result ≤ last_day) ⊎ (result ≡ no_end_number) }
    {
        self.number
    }
}

/// Whether a field is an end date: a date with the year first, or `999999`.
#[inline(always)]
pub(crate) fn is_end_date(field: &[u8; 6]) -> bool
    ensures { result ≡ is_end_date field.now }
{
    is_no_end(field) | is_date(field)
}

/// Whether a field is `999999`.
#[inline(always)]
fn is_no_end(field: &[u8; 6]) -> bool
    ensures { result ≡ is_no_end field.now }
{
    field == b"999999"
}
