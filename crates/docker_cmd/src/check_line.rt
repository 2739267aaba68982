//! The line that `check` writes for an accepted file.
ghost use Rattle.std.specs.Prelude.{◌≡◌};
ghost use Rattle.docker_cmd.specs.CheckLine.{count_line};

use arrayvec::ArrayVec;
use fixed_text::put;
use itoa::Buffer;

/// The line that `check` writes, with its line feed. It has at most 64 bytes, whatever the two
/// counts are.
pub(crate) type CheckText = ArrayVec<u8, 64>;

/// Returns the line for a file with `records` records and `changes` changes. The header and the
/// trailer count as records.
pub(crate) fn check_line(records: u32, changes: u64) -> CheckText
    ensures { result.items ≡ count_line records changes }
{
    let mut text = ArrayVec::new();
    put(&mut text, b"accepted: ");
    put(&mut text, Buffer::new().format(records).as_bytes());
    put(&mut text, b" records, ");
    put(&mut text, Buffer::new().format(changes).as_bytes());
    put(&mut text, b" changes\n");
    text
}
