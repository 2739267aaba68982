//! Encodes ledger items and entries: appends their bytes to a buffer that has room for them.
ghost use Rattle.std.specs.Prelude.{◌≡◌, ◌+◌, ◌<◌, ◌≤◌, ◌^◌, ◌++◌, length};
ghost use Rattle.arrayvec.specs.ArrayVec.{array_vec_len};
ghost use Rattle.docker_model.specs.state.StateText.{item_bytes, file_stamp_bytes, stamp_bytes};
ghost use Rattle.docker_model.specs.state.StatePart.{key_text};
ghost use Rattle.cif_change.specs.Meaning.{key_meant};
ghost use Rattle.docker_join.specs.Meaning.{file_stamp_meant, stamp_meant, op_meant, row_meant};
ghost use Rattle.docker_state.specs.Meaning.{item_meant};
ghost use Rattle.state_text.specs.Entries.{op_head, entry_head, op_lines, HasFewLines};

use crate::buffer::{Buffer, ROOM};
use crate::format::{
    ASSOC_KEY, ASSOC_TAG, DELETED, ENTRY_HEAD, FILE_STAMP, ITEM, LAPSED, LINE, OP, PUT,
    SCHEDULE_KEY, SCHEDULE_TAG, STAMP, TAG, TIPLOC_TAG,
};
use cif_file::{AssocKey, Body, Key, ScheduleKey};
use cif_line::Line;
use docker_join::{Entry, FileStamp, Op, Stamp};
use docker_state::LedgerItem;
use fixed_text::put;

/// Appends a file stamp.
fn add_file_stamp(buffer: &mut Buffer, stamp: &FileStamp)
    requires { array_vec_len buffer.old + FILE_STAMP ≤ ROOM }
    ensures items { buffer.new.items ≡ buffer.old.items
        ++ file_stamp_bytes (file_stamp_meant stamp.now) }
    ensures len { array_vec_len buffer.new ≡ array_vec_len buffer.old + FILE_STAMP }
{
    put(buffer, &stamp.day.number().to_be_bytes());
    put(buffer, &stamp.minute.to_be_bytes());
    put(buffer, &stamp.reference);
}

/// Appends a ledger item.
pub(crate) fn add_item(buffer: &mut Buffer, item: &LedgerItem)
    requires { array_vec_len buffer.old + ITEM ≤ ROOM }
    ensures items { buffer.new.items ≡ buffer.old.items ++ item_bytes (item_meant item.now) }
    ensures len { array_vec_len buffer.new ≡ array_vec_len buffer.old + ITEM }
{
    add_file_stamp(buffer, &item.stamp());
    put(buffer, &[item.indicator.letter()]);
    put(buffer, &item.last_reference);
}

/// Appends a stamp.
fn add_stamp(buffer: &mut Buffer, stamp: &Stamp)
    requires { array_vec_len buffer.old + STAMP ≤ ROOM }
    ensures items { buffer.new.items ≡ buffer.old.items ++ stamp_bytes (stamp_meant stamp.now) }
    ensures len { array_vec_len buffer.new ≡ array_vec_len buffer.old + STAMP }
{
    add_file_stamp(buffer, &stamp.file);
    put(buffer, &stamp.number.to_be_bytes());
}

/// Appends an association's tag and key.
fn add_assoc_key(buffer: &mut Buffer, key: &AssocKey)
    requires { array_vec_len buffer.old + (TAG + ASSOC_KEY) ≤ ROOM }
    ensures items { buffer.new.items ≡ buffer.old.items
        ++ key_text (key_meant (Key.Assoc key.now)) }
    ensures len { array_vec_len buffer.new ≡ array_vec_len buffer.old + (TAG + ASSOC_KEY) }
{
    put(buffer, &[ASSOC_TAG]);
    put(buffer, key.base.bytes());
    put(buffer, key.associated.bytes());
    put(buffer, &key.start.number().to_be_bytes());
    put(buffer, key.location.bytes());
    put(buffer, &[key.suffix, key.stp.letter()]);
}

/// Appends a schedule's tag and key.
fn add_schedule_key(buffer: &mut Buffer, key: &ScheduleKey)
    requires { array_vec_len buffer.old + (TAG + SCHEDULE_KEY) ≤ ROOM }
    ensures items { buffer.new.items ≡ buffer.old.items
        ++ key_text (key_meant (Key.Schedule key.now)) }
    ensures len { array_vec_len buffer.new ≡ array_vec_len buffer.old + (TAG + SCHEDULE_KEY) }
{
    put(buffer, &[SCHEDULE_TAG]);
    put(buffer, key.uid.bytes());
    put(buffer, &key.runs_from.number().to_be_bytes());
    put(buffer, &[key.stp.letter()]);
}

/// Appends a key's tag and the key. The buffer needs room for the longest key, an association's.
fn add_key(buffer: &mut Buffer, key: &Key)
    requires { array_vec_len buffer.old + (TAG + ASSOC_KEY) ≤ ROOM }
    ensures items { buffer.new.items ≡ buffer.old.items ++ key_text (key_meant key.now) }
    ensures len { array_vec_len buffer.new ≤ array_vec_len buffer.old + (TAG + ASSOC_KEY) }
{
    match key {
        Key::Tiploc(code) => {
            put(buffer, &[TIPLOC_TAG]);
            put(buffer, code.bytes());
        }
        Key::Assoc(key) => add_assoc_key(buffer, key),
        Key::Schedule(key) => add_schedule_key(buffer, key),
    }
}

/// Appends an op and its body. For a schedule's body it appends only the number of lines. The
/// buffer needs room for the longest op with its body, an association's put.
fn add_op(buffer: &mut Buffer, op: &Op)
    requires room { array_vec_len buffer.old + (OP + LINE) ≤ ROOM }
    requires few { length (op_lines (op_meant op.now)) < 2 ^ 32 }
    ensures items { buffer.new.items ≡ buffer.old.items ++ op_head (op_meant op.now) }
{
    match op {
        Op::Deleted => put(buffer, &[DELETED]),
        Op::Lapsed => put(buffer, &[LAPSED]),
        Op::Put(body) => {
            put(buffer, &[PUT]);
            match body {
                Body::Tiploc(bytes) => put(buffer, bytes),
                Body::Assoc(line) => put(buffer, line.bytes()),
                Body::Schedule(lines) => put(buffer, &(lines.len() as u32).to_be_bytes()),
            }
        }
    }
}

/// Appends the head of an entry: the whole entry except a schedule's lines.
pub(crate) fn add_entry_head(buffer: &mut Buffer, row: &(Key, Entry))
    requires room { array_vec_len buffer.old + ENTRY_HEAD ≤ ROOM }
    requires few { HasFewLines (row_meant row.now) }
    ensures items { buffer.new.items ≡ buffer.old.items ++ entry_head (row_meant row.now) }
{
    add_key(buffer, &row.0);
    add_stamp(buffer, &row.1.stamp);
    add_op(buffer, &row.1.op);
}

/// The lines of the schedule that an op puts, or no lines for any other op.
pub(crate) fn lines_of(op: &Op) -> &[Line]
    ensures { result.now ≡ op_lines (op_meant op.now) }
{
    match op {
        Op::Put(Body::Schedule(lines)) => lines.as_slice(),
        _ => &[],
    }
}
