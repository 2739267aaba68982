//! Computes the length of a state's text.
ghost use Rattle.std.specs.Prelude.{◌≡◌, ◌+◌, ◌*◌, ◌^◌, ◌<◌, ◌≤◌, length, map, All};
ghost use Rattle.std.specs.List.{flat_map};
ghost use Rattle.docker_model.specs.state.State.{IsGoodKey, IsBodyOf, IsOpOf};
ghost use Rattle.docker_model.specs.state.StateText.{dks_2, put_bytes, op_bytes, entry_bytes, state_text};
ghost use Rattle.docker_model.specs.state.StatePart.{key_text};
ghost use Rattle.cif_change.specs.Meaning.{key_meant, body_meant};
ghost use Rattle.docker_join.specs.Meaning.{op_meant, row_meant};
ghost use Rattle.state_text.specs.Entries.{IsOfWidth};

use crate::format::{
    ASSOC_KEY, COUNT, HORIZON, ITEM, LINE, LINE_COUNT, MARK, OP, SCHEDULE_KEY, STAMP, TAG,
    TIPLOC_BODY, TIPLOC_KEY,
};
use cif_file::{Body, Key};
use docker_join::{Entry, Op};
use docker_state::State;

/// The length in bytes of a key with its tag.
fn key_len(key: &Key) -> usize
    requires { IsGoodKey (key_meant key.now) }
    ensures value { result ≡ length (key_text (key_meant key.now)) }
    ensures bound { result ≤ TAG + ASSOC_KEY }
{
    match key {
        Key::Tiploc(_) => TAG + TIPLOC_KEY,
        Key::Assoc(_) => TAG + ASSOC_KEY,
        Key::Schedule(_) => TAG + SCHEDULE_KEY,
    }
}

/// The length in bytes of a body that fits the key.
fn body_len(key: &Key, body: &Body) -> u128
    requires { IsBodyOf (key_meant key.now) (body_meant body.now) }
    ensures value { result ≡ length (put_bytes (body_meant body.now)) }
    ensures bound { result < 2 ^ 39 }
{
    match body {
        Body::Tiploc(_) => TIPLOC_BODY as u128,
        Body::Assoc(_) => LINE as u128,
        Body::Schedule(lines) => LINE_COUNT as u128 + LINE as u128 * lines.len() as u128,
    }
}

/// The length in bytes of an op with its body. The op must fit the key.
fn op_len(key: &Key, op: &Op) -> u128
    requires { IsOpOf (key_meant key.now) (op_meant op.now) }
    ensures value { result ≡ length (op_bytes (op_meant op.now)) }
    ensures bound { result < 2 ^ 40 }
{
    match op {
        Op::Deleted | Op::Lapsed => OP as u128,
        Op::Put(body) => OP as u128 + body_len(key, body),
    }
}

/// The length of an entry in bytes.
fn row_len(row: &(Key, Entry)) -> u128
    requires { IsOfWidth (row_meant row.now) }
    ensures value { result ≡ length (entry_bytes (row_meant row.now)) }
    ensures bound { result < 2 ^ 41 }
{
    (key_len(&row.0) + STAMP) as u128 + op_len(&row.0, &row.1.op)
}

/// The total length of these entries in bytes.
fn rows_len(rows: &[(Key, Entry)]) -> u128
    requires { All IsOfWidth (map row_meant rows.now) }
    ensures value { result ≡ length (flat_map entry_bytes (map row_meant rows.now)) }
    ensures bound { result < 2 ^ 106 }
{
    let mut total = 0;
    for row in rows {
        total += row_len(row);
    }
    total
}

/// The length of a state's text in bytes: its mark, horizon and counts, its ledger items, and its
/// entries.
pub fn encoded_len(state: &State) -> u128
    ensures { result ≡ length (state_text dks_2 state.now) }
{
    let head = MARK + HORIZON + COUNT + COUNT;
    head as u128 + ITEM as u128 * state.ledger().len() as u128 + rows_len(state.entries())
}
