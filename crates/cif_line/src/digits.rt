//! Digits of a field, and the numbers that two digits spell. Several bytes are tested at once,
//! without a branch per byte.
ghost use Rattle.std.specs.Prelude.{◌≡◌, ◌+◌, ◌-◌, ◌*◌, ◌≤◌, ◌<◌, length, take, true};
ghost use Rattle.std.specs.List.{list_all};
ghost use Rattle.std.specs.Char.{is_ascii_digit};
ghost use Rattle.docker_model.specs.records.Date.{two_digits};

use std::simd::prelude::*;

/// Whether the first four bytes of a field are digits, tested at once.
#[inline(always)]
pub(crate) fn are_four_digits(field: &[u8]) -> bool
    requires { 4 ≤ length field.now }
    ensures { result ≡ list_all is_ascii_digit (take 4 field.now) }
{
    let above_zero = u8x4::from_slice(field) - u8x4::splat(b'0');
    above_zero.simd_gt(u8x4::splat(9)).to_bitmask() == 0
}

/// Whether six bytes are digits.
#[inline(always)]
#[tactic(auto, using(crate::proofs::Dates::six_digits))]
pub(crate) fn are_six_digits(field: &[u8; 6]) -> bool
    ensures { result ≡ list_all is_ascii_digit field.now }
{
    are_four_digits(field) & field[4].is_ascii_digit() & field[5].is_ascii_digit()
}

/// The number that two bytes spell, if they are digits.
#[inline(always)]
pub(crate) fn spelled(tens: u8, units: u8) -> u16
    ensures { 48 ≤ tens → 48 ≤ units → result ≡ 10 * (tens - 48) + (units - 48) }
{
    (10 * u16::from(tens) + u16::from(units)).wrapping_sub(11 * u16::from(b'0'))
}

/// The number that the bytes at index `at` and at the next index spell. If both bytes are digits,
/// the number is below 100.
pub(crate) fn two_digits(field: &[u8], at: usize) -> u16
    requires { at + 1 < length field.now }
    ensures value { result ≡ two_digits field.now at }
    ensures bound { result < 2300 }
    ensures digits { list_all is_ascii_digit field.now ≡ true → result < 100 }
{
    let tens = u16::from(field[at]).saturating_sub(u16::from(b'0'));
    let units = u16::from(field[at + 1]).saturating_sub(u16::from(b'0'));
    10 * tens + units
}
