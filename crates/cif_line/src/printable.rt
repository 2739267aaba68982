//! Tests whether a line may contain given bytes, sixteen bytes at a time.
ghost use Rattle.std.specs.Prelude.{◌≡◌, ◌↔◌, ◌+◌, ◌≤◌, IsTrue, length, take, drop};
ghost use Rattle.std.specs.List.{AllPass, list_all};
ghost use Rattle.docker_model.specs.records.Record.{is_printable};

use std::simd::prelude::*;

/// How many bytes are tested at once.
const BLOCK: usize = 16;

/// Whether a line may contain all of the sixteen bytes that begin at index `at`.
#[inline(always)]
fn is_printable_block(bytes: &[u8], at: usize) -> bool
    requires { at + BLOCK ≤ length bytes.now }
    ensures { result ≡ list_all is_printable (take BLOCK (drop at bytes.now)) }
{
    let above_space = u8x16::from_slice(&bytes[at..]) - u8x16::splat(b' ');
    above_space.simd_gt(u8x16::splat(b'~' - b' ')).to_bitmask() == 0
}

/// Whether a line may contain all of the 80 bytes. The test needs no branch for each byte.
pub(crate) fn is_printable_line(bytes: &[u8; 80]) -> bool
    ensures { IsTrue result ↔ AllPass is_printable bytes.now }
{
    is_printable_block(bytes, 0)
        & is_printable_block(bytes, BLOCK)
        & is_printable_block(bytes, 2 * BLOCK)
        & is_printable_block(bytes, 3 * BLOCK)
        & is_printable_block(bytes, 4 * BLOCK)
}
