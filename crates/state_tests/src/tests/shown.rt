//! Shows a state as lines of text, which the tests compare with the expected lines.

use cif_file::{Body, Key};
use cif_line::Line;
use docker_join::{Entry, FileStamp, Op};
use docker_state::{LedgerItem, State};
use std::alloc::Global;
use std::process::Abort;

/// Appends bytes to a text.
pub(super) fn add(rt: &impl Abort, text: &mut Vec<u8>, bytes: &[u8]) {
    text.extend_from_slice(bytes).expect(rt, "memory");
}

/// Appends a line and a line feed to a text.
pub(super) fn add_line(rt: &impl Abort, text: &mut Vec<u8>, line: &[u8]) {
    add(rt, text, line);
    add(rt, text, b"\n");
}

/// Appends a number in decimal to a text.
pub(super) fn add_number(rt: &impl Abort, alloc: Global, text: &mut Vec<u8>, number: u64) {
    let digits = format!(in alloc; "{number}").expect(rt, "memory");
    add(rt, text, digits.as_bytes());
}

/// Appends a file stamp to a text.
fn add_stamp(rt: &impl Abort, alloc: Global, text: &mut Vec<u8>, stamp: &FileStamp) {
    add_number(rt, alloc, text, u64::from(stamp.day.number()));
    add(rt, text, b" ");
    add_number(rt, alloc, text, u64::from(stamp.minute));
    add(rt, text, b" ");
    add(rt, text, &stamp.reference);
}

/// Appends a ledger item to a text.
fn add_item(rt: &impl Abort, alloc: Global, text: &mut Vec<u8>, item: &LedgerItem) {
    add(rt, text, b"item ");
    add_stamp(rt, alloc, text, &item.stamp());
    add(rt, text, b" ");
    add(rt, text, &[item.indicator.letter()]);
    add(rt, text, b" ");
    add_line(rt, text, &item.last_reference);
}

/// Appends a key to a text.
pub(super) fn add_key(rt: &impl Abort, alloc: Global, text: &mut Vec<u8>, key: &Key) {
    match key {
        Key::Tiploc(code) => add(rt, text, code.bytes()),
        Key::Assoc(key) => add(rt, text, key.base.bytes()),
        Key::Schedule(key) => {
            add(rt, text, key.uid.bytes());
            add(rt, text, b" ");
            add_number(rt, alloc, text, u64::from(key.runs_from.number()));
        }
    }
}

/// Appends the lines of a schedule to a text.
fn add_lines(rt: &impl Abort, text: &mut Vec<u8>, lines: &[Line]) {
    for line in lines {
        add_line(rt, text, line.bytes());
    }
}

/// Appends the lines of a body to a text.
pub(super) fn add_body(rt: &impl Abort, text: &mut Vec<u8>, body: &Body) {
    match body {
        Body::Tiploc(details) => add_line(rt, text, details),
        Body::Assoc(line) => add_line(rt, text, line.bytes()),
        Body::Schedule(lines) => add_lines(rt, text, lines.as_slice()),
    }
}

/// Appends an op to a text.
fn add_op(rt: &impl Abort, text: &mut Vec<u8>, op: &Op) {
    match op {
        Op::Deleted => add_line(rt, text, b"deleted"),
        Op::Lapsed => add_line(rt, text, b"lapsed"),
        Op::Put(body) => add_body(rt, text, body),
    }
}

/// Appends a key and its entry to a text.
fn add_row(rt: &impl Abort, alloc: Global, text: &mut Vec<u8>, row: &(Key, Entry)) {
    add_key(rt, alloc, text, &row.0);
    add(rt, text, b": record ");
    add_number(rt, alloc, text, u64::from(row.1.stamp.number));
    add(rt, text, b" of ");
    add_stamp(rt, alloc, text, &row.1.stamp.file);
    add(rt, text, b"\n");
    add_op(rt, text, &row.1.op);
}

/// Appends the horizon to a text, unless it is 0.
fn add_horizon(rt: &impl Abort, alloc: Global, text: &mut Vec<u8>, horizon: u16) {
    if horizon > 0 {
        add(rt, text, b"horizon ");
        add_number(rt, alloc, text, u64::from(horizon));
        add(rt, text, b"\n");
    }
}

/// Appends the floor to a text, if there is a floor.
fn add_floor(rt: &impl Abort, alloc: Global, text: &mut Vec<u8>, floor: Option<FileStamp>) {
    if let Some(floor) = floor {
        add(rt, text, b"floor ");
        add_stamp(rt, alloc, text, &floor);
        add(rt, text, b"\n");
    }
}

/// Appends the items of a ledger to a text.
fn add_ledger(rt: &impl Abort, alloc: Global, text: &mut Vec<u8>, ledger: &[LedgerItem]) {
    for item in ledger {
        add_item(rt, alloc, text, item);
    }
}

/// Appends rows, each a key with its entry, to a text.
fn add_rows(rt: &impl Abort, alloc: Global, text: &mut Vec<u8>, rows: &[(Key, Entry)]) {
    for row in rows {
        add_row(rt, alloc, text, row);
    }
}

/// Appends the live rows of a state to a text.
fn add_live(rt: &impl Abort, alloc: Global, text: &mut Vec<u8>, state: &State) {
    for (key, body) in state.live() {
        add(rt, text, b"live ");
        add_key(rt, alloc, text, key);
        add(rt, text, b"\n");
        add_body(rt, text, body);
    }
}

/// The text of a state: its horizon, its ledger, its floor, its entries and its live rows.
pub(super) fn shown(rt: &impl Abort, alloc: Global, state: &State) -> Vec<u8> {
    let mut text = Vec::new(alloc);
    add_horizon(rt, alloc, &mut text, state.horizon());
    add_ledger(rt, alloc, &mut text, state.ledger());
    add_floor(rt, alloc, &mut text, state.floor());
    add_rows(rt, alloc, &mut text, state.entries());
    add_live(rt, alloc, &mut text, state);
    text
}
