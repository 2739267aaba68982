//! Compares lines sixteen bytes at a time, since most lines that are compared are equal.
ghost use Rattle.std.specs.Prelude.{◌≡◌, ◌↔◌, ◌+◌, ◌≤◌, length, take, drop, IsTrue};
ghost use Rattle.std.specs.List.{concat};
ghost use Rattle.docker_model.specs.state.Order.{bytes_cmp};

use crate::joined::Joined;
use cif_line::Line;
use std::cmp::Ordering;
use std::simd::prelude::*;

/// How many bytes are compared at once.
const BLOCK: usize = 16;

/// Whether two lists of lines are equal.
pub(crate) fn are_same_lines(mut own: &[Line], mut other: &[Line]) -> bool
    ensures { IsTrue result ↔ (own.entry.now ≡ other.entry.now) }
{
    while let (Some((one, ones)), Some((two, twos))) = (own.split_first(), other.split_first()) {
        if !is_same_line(one, two) {
            return false;
        }
        own = ones;
        other = twos;
    }
    own.is_empty() && other.is_empty()
}

/// Compares the joined bytes of two lists of lines. First skips the lines at the front that are
/// equal in both.
pub(crate) fn compare_lines(mut own: &[Line], mut other: &[Line]) -> Ordering
    ensures { result ≡ bytes_cmp (concat own.entry.now) (concat other.entry.now) }
{
    while let (Some((one, ones)), Some((two, twos))) = (own.split_first(), other.split_first()) {
        if !is_same_line(one, two) {
            break;
        }
        own = ones;
        other = twos;
    }
    Joined::new(&[], own).compare(Joined::new(&[], other))
}

/// Whether two lines are equal. There is no branch for each byte.
pub(crate) fn is_same_line(own: &Line, other: &Line) -> bool
    ensures { IsTrue result ↔ (own.now ≡ other.now) }
{
    let (one, two) = (own.bytes(), other.bytes());
    is_same_block(one, two, 0)
        & is_same_block(one, two, BLOCK)
        & is_same_block(one, two, 2 * BLOCK)
        & is_same_block(one, two, 3 * BLOCK)
        & is_same_block(one, two, 4 * BLOCK)
}

/// Whether two lines have the same sixteen bytes from index `at` on.
#[inline(always)]
fn is_same_block(one: &[u8], two: &[u8], at: usize) -> bool
    requires one { at + BLOCK ≤ length one.now }
    requires two { at + BLOCK ≤ length two.now }
    ensures { IsTrue result
        ↔ (take BLOCK (drop at one.now) ≡ take BLOCK (drop at two.now)) }
{
    let bytes = u8x16::from_slice(&one[at..]);
    bytes.simd_ne(u8x16::from_slice(&two[at..])).to_bitmask() == 0
}
