//! The weekdays on which a basic schedule (BS) or an association (AA) runs.
ghost use Rattle.std.specs.Prelude.{◌≡◌, ℕ, ◌<◌, ◌≤◌, ◌==◌, ◌||◌, ◌↔◌, length, take, true, IsTrue, IsSome, IfSome, List};
ghost use Rattle.docker_model.specs.records.Date.{is_days, runs_on_weekday};

use std::marker::Model;
use std::simd::prelude::*;

/// The weekdays on which a schedule or an association runs: seven flags, Monday first. A flag is
/// `1` if the schedule or association runs on its weekday, and otherwise `0`.
#[derive(Clone, Copy, PartialEq, Eq, Debug)]
pub struct Days {
    flags: [u8; 7],
}

impl Model for Days {
    ghost Value = { List ℕ };

    ghost view = { λ days. days.flags };

    ghost inverse = { λ flags. record { flags = flags } };

    ghost invariant = { λ days. IsTrue (is_days days.flags) };
}

impl Days {
    /// The weekdays whose flags are `1` in a field of seven flags. Returns `None` if a byte is
    /// neither `0` nor `1`.
    pub fn from_field(field: &[u8; 7]) -> Option<Days>
        ensures some { IsSome result ↔ IsTrue (is_days field.now) }
        ensures value { IfSome result (λ days. days ≡ field.now) }
    {
        if is_days(field) {
            Some(Days::of_flags(field))
        } else {
            None
        }
    }

    /// The weekdays of a field that is known to be seven flags.
    #[inline(always)]
    pub(crate) fn of_flags(field: &[u8; 7]) -> Days
        requires good { is_days field.now ≡ true }
        ensures { result ≡ field.now }
    {
        Days { flags: *field }
    }

    /// Whether the schedule or association runs on a weekday: 0 for Monday to 6 for Sunday.
    pub fn on(&self, weekday: u8) -> bool
        requires { weekday < 7 }
        ensures { result ≡ runs_on_weekday self.now weekday }
    {
        self.flags[weekday as usize] == b'1'
    }
}

/// Whether each byte is `0` or `1`. The test needs no branch for each byte.
#[inline(always)]
#[tactic(auto, using(crate::proofs::Dates::seven_flags))]
pub(crate) fn is_days(field: &[u8; 7]) -> bool
    ensures { result ≡ is_days field.now }
{
    are_four_flags(field) & is_flag(field[4]) & is_flag(field[5]) & is_flag(field[6])
}

/// Whether each of the first four bytes of a field is `0` or `1`, tested at once.
#[inline(always)]
fn are_four_flags(field: &[u8]) -> bool
    requires { 4 ≤ length field.now }
    ensures { result ≡ is_days (take 4 field.now) }
{
    let above_zero = u8x4::from_slice(field) - u8x4::splat(b'0');
    above_zero.simd_gt(u8x4::splat(1)).to_bitmask() == 0
}

/// Whether a byte is `0` or `1`.
#[inline(always)]
fn is_flag(byte: u8) -> bool
    ensures { result ≡ ((byte == 48) || (byte == 49)) }
{
    (byte == b'0') | (byte == b'1')
}
