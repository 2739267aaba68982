//! A buffer in front of a sink: small pieces are gathered and then written to the sink together.
ghost use Rattle.std.specs.Prelude.{◌≡◌, ◌+◌, ◌-◌, ◌^◌, ◌<◌, ◌≤◌, [], OnOk};
ghost use Rattle.arrayvec.specs.ArrayVec.{array_vec_len};
ghost use Rattle.state_text.specs.Written.{Gives, Flushes};

use arrayvec::ArrayVec;
use cif_line::{Failed, Sink, write_all};

/// The greatest number of bytes that the buffer can hold.
pub(crate) const ROOM: usize = 65_536;

/// Bytes that wait to be written to a sink.
pub(crate) type Buffer = ArrayVec<u8, ROOM>;

/// Writes the buffer's bytes to the sink, and empties the buffer.
pub(crate) fn flush<K: Sink>(sink: &mut K, buffer: &mut Buffer) -> Result<(), Failed>
    requires { K.failures sink.old < 2 ^ 64 - 1 }
    ensures gives { Flushes K.taken K.failures sink.old buffer.old.items result sink.new }
    ensures empty { OnOk result (buffer.new.items ≡ []) }
{
    write_all(sink, buffer.as_slice())?;
    buffer.clear();
    Ok(())
}

/// Makes room in the buffer for `more` bytes. If the buffer has too little room, the bytes that it
/// holds are written to the sink first.
pub(crate) fn make_room<K: Sink>(
    sink: &mut K,
    buffer: &mut Buffer,
    more: usize,
) -> Result<(), Failed>
    requires failures { K.failures sink.old < 2 ^ 64 - 1 }
    requires small { more ≤ ROOM }
    ensures gives { Gives K.taken K.failures sink.old buffer.old.items [] result
        sink.new buffer.new.items }
    ensures room { OnOk result (array_vec_len buffer.new + more ≤ ROOM) }
{
    if buffer.remaining_capacity() < more {
        flush(sink, buffer)
    } else {
        Ok(())
    }
}
