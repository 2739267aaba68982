//! Reads numbers and texts from bytes. Numbers are big-endian.
ghost use Rattle.std.specs.Prelude.{◌≡◌, ◌+◌, ◌≤◌, ◌↔◌, ◌<◌, length, slice_range, IsTrue};
ghost use Rattle.std.specs.List.{AllPass};
ghost use Rattle.std.specs.Int.{w16, w32, w64, from_be_bytes};
ghost use Rattle.docker_model.specs.records.Record.{is_printable};

use cif_line::is_printable;

/// The `N` bytes that begin at this index.
pub(crate) fn field<const N: usize>(bytes: &[u8], at: usize) -> &[u8; N]
    requires { at + N ≤ length bytes.now }
    ensures { result.now ≡ slice_range bytes.now at (at + N) }
{
    match bytes[at..at + N].first_chunk() {
        Some(field) => field,
        None => unreachable!(),
    }
}

/// The number in the two bytes that begin at this index.
pub(crate) fn number_16(bytes: &[u8], at: usize) -> u16
    requires { at + 2 ≤ length bytes.now }
    ensures { result ≡ from_be_bytes w16 (slice_range bytes.now at (at + 2)) }
{
    u16::from_be_bytes(*field(bytes, at))
}

/// The number in the four bytes that begin at this index.
pub(crate) fn number_32(bytes: &[u8], at: usize) -> u32
    requires { at + 4 ≤ length bytes.now }
    ensures { result ≡ from_be_bytes w32 (slice_range bytes.now at (at + 4)) }
{
    u32::from_be_bytes(*field(bytes, at))
}

/// The number in the eight bytes that begin at this index.
pub(crate) fn number_64(bytes: &[u8], at: usize) -> u64
    requires { at + 8 ≤ length bytes.now }
    ensures { result ≡ from_be_bytes w64 (slice_range bytes.now at (at + 8)) }
{
    u64::from_be_bytes(*field(bytes, at))
}

/// Whether each byte is printable.
pub(crate) fn is_text(bytes: &[u8]) -> bool
    ensures { IsTrue result ↔ AllPass is_printable bytes.now }
{
    bytes.iter().all(|byte| is_printable(*byte))
}
