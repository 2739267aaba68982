//! Writes the text of a state to a sink, through a buffer.
ghost use Rattle.std.specs.Prelude.{◌≡◌, ◌+◌, ◌-◌, ◌^◌, ◌<◌, ◌≤◌, ◌++◌, map, All, IsErr, OnOk, OnErr};
ghost use Rattle.std.specs.List.{concat, flat_map};
ghost use Rattle.std.specs.Int.{w64, to_be_bytes};
ghost use Rattle.arrayvec.specs.ArrayVec.{array_vec_len};
ghost use Rattle.cif_device.specs.Device.{CountsFailure, Takes, TakesPart};
ghost use Rattle.docker_model.specs.state.StateText.{dks_2, head_text, item_bytes, entry_bytes, state_text};
ghost use Rattle.docker_join.specs.Meaning.{row_meant};
ghost use Rattle.docker_state.specs.Meaning.{item_meant};
ghost use Rattle.state_text.specs.Written.{Gives, Flushes, body_text};
ghost use Rattle.state_text.specs.Entries.{HasFewLines};

use crate::buffer::{Buffer, ROOM, flush, make_room};
use crate::encode::{add_entry_head, add_item, lines_of};
use crate::format::{COUNT, ENTRY_HEAD, HORIZON, ITEM, LINE, MARK};
use arrayvec::ArrayVec;
use cif_file::Key;
use cif_line::{Failed, Line, Sink};
use docker_join::Entry;
use docker_state::{LedgerItem, State};
use fixed_text::put;

/// Writes ledger items through the buffer.
fn put_items<K: Sink>(sink: &mut K, buffer: &mut Buffer, items: &[LedgerItem]) -> Result<(), Failed>
    requires { K.failures sink.old < 2 ^ 64 - 1 }
    ensures { Gives K.taken K.failures sink.old buffer.old.items
        (flat_map item_bytes (map item_meant items.now)) result sink.new buffer.new.items }
{
    for item in items {
        make_room(sink, buffer, ITEM)?;
        add_item(buffer, item);
    }
    Ok(())
}

/// Writes the lines of a schedule through the buffer.
fn put_lines<K: Sink>(sink: &mut K, buffer: &mut Buffer, lines: &[Line]) -> Result<(), Failed>
    requires { K.failures sink.old < 2 ^ 64 - 1 }
    ensures { Gives K.taken K.failures sink.old buffer.old.items (concat lines.now) result
        sink.new buffer.new.items }
{
    for line in lines {
        make_room(sink, buffer, LINE)?;
        put(buffer, line.bytes());
    }
    Ok(())
}

/// Writes an entry through the buffer.
fn put_row<K: Sink>(sink: &mut K, buffer: &mut Buffer, row: &(Key, Entry)) -> Result<(), Failed>
    requires failures { K.failures sink.old < 2 ^ 64 - 1 }
    requires few { HasFewLines (row_meant row.now) }
    ensures { Gives K.taken K.failures sink.old buffer.old.items (entry_bytes (row_meant row.now))
        result sink.new buffer.new.items }
{
    make_room(sink, buffer, ENTRY_HEAD)?;
    add_entry_head(buffer, row);
    put_lines(sink, buffer, lines_of(&row.1.op))
}

/// Writes entries through the buffer.
fn put_rows<K: Sink>(sink: &mut K, buffer: &mut Buffer, rows: &[(Key, Entry)]) -> Result<(), Failed>
    requires failures { K.failures sink.old < 2 ^ 64 - 1 }
    requires few { All HasFewLines (map row_meant rows.now) }
    ensures { Gives K.taken K.failures sink.old buffer.old.items
        (flat_map entry_bytes (map row_meant rows.now)) result sink.new buffer.new.items }
{
    for row in rows {
        put_row(sink, buffer, row)?;
    }
    Ok(())
}

/// Writes a count through the buffer.
fn put_count<K: Sink>(sink: &mut K, buffer: &mut Buffer, count: usize) -> Result<(), Failed>
    requires { K.failures sink.old < 2 ^ 64 - 1 }
    ensures { Gives K.taken K.failures sink.old buffer.old.items (to_be_bytes w64 count) result
        sink.new buffer.new.items }
{
    make_room(sink, buffer, COUNT)?;
    put(buffer, &(count as u64).to_be_bytes());
    Ok(())
}

/// Appends the mark, the horizon and the count of ledger items to a buffer that has room for them.
fn add_head(buffer: &mut Buffer, horizon: u16, count: usize)
    requires { array_vec_len buffer.old + (MARK + HORIZON + COUNT) ≤ ROOM }
    ensures { buffer.new.items ≡ buffer.old.items
        ++ head_text dks_2 horizon ++ to_be_bytes w64 count }
{
    put(buffer, b"DKS2");
    put(buffer, &horizon.to_be_bytes());
    put(buffer, &(count as u64).to_be_bytes());
}

/// Writes through the buffer all that follows the count of ledger items: the items, the count of
/// entries, and the entries.
fn put_body<K: Sink>(sink: &mut K, buffer: &mut Buffer, state: &State) -> Result<(), Failed>
    requires { K.failures sink.old < 2 ^ 64 - 1 }
    ensures { Gives K.taken K.failures sink.old buffer.old.items (body_text state.now) result
        sink.new buffer.new.items }
{
    put_items(sink, buffer, state.ledger())?;
    let entries = state.entries();
    put_count(sink, buffer, entries.len())?;
    put_rows(sink, buffer, entries)
}

/// Writes the text of a state to a sink, through a buffer that is empty at the beginning and at the
/// end.
fn put_text<K: Sink>(sink: &mut K, state: &State) -> Result<(), Failed>
    requires { K.failures sink.old < 2 ^ 64 - 1 }
    ensures { Flushes K.taken K.failures sink.old (state_text dks_2 state.now) result sink.new }
{
    let mut buffer = ArrayVec::new();
    add_head(&mut buffer, state.horizon(), state.ledger().len());
    put_body(sink, &mut buffer, state)?;
    flush(sink, &mut buffer)
}

/// Writes the text of a state. If this fails, the sink has taken only a proper prefix of the text,
/// and has failed once.
pub fn write_state<K: Sink>(state: &State, sink: &mut K) -> Result<(), Failed>
    requires { K.failures sink.old < 2 ^ 64 - 1 }
    ensures whole { OnOk result
        (Takes (K.taken sink.old) (state_text dks_2 state.now) (K.taken sink.new)) }
    ensures part { OnErr result
        (TakesPart (K.taken sink.old) (state_text dks_2 state.now) (K.taken sink.new)) }
    ensures failures { CountsFailure (IsErr result) (K.failures sink.old) (K.failures sink.new) }
{
    put_text(sink, state)
}
