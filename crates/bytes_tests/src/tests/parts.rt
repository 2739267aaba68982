//! Each kind of part at its bounds: keys, record numbers, bodies, counts of lines, and last lines.

use super::pieces::{ASHFELD, C10001, CENTRAL, FILE, JOINS, SECOND};
use super::{at, goes_round, joined_text, read, refused, text_is};
use docker_bytes::StateCause;
use std::alloc::Global;
use std::process::Abort;
use test_records::states::{DELETED, ITEM, MARK, ONE, PUT};
use test_records::{AA_JOIN, BS, BS_DELETED, LO, LT};

/// The text of a state with one file and one entry. The entry has these parts.
fn with_entry(rt: &impl Abort, alloc: Global, parts: &[&[u8]]) -> Vec<u8> {
    let entry = joined_text(rt, alloc, parts);
    joined_text(rt, alloc, &[MARK, ONE, ITEM, ONE, entry.as_slice()])
}

/// Asserts that a text with one entry, which has these parts, is read. Its state is written as the
/// same text, which has `len` bytes.
fn accepted(rt: &impl Abort, alloc: Global, parts: &[&[u8]], len: usize) {
    let text = with_entry(rt, alloc, parts);
    let state = read(rt, alloc, text.as_slice(), 4096, 1000);
    text_is(rt, alloc, &state, text.as_slice());
    goes_round(rt, alloc, &state, len, 1);
}

/// Asserts that a text with one entry, which has these parts, is refused. The fault has this cause,
/// and the offset of the entry.
fn refused_entry(rt: &impl Abort, alloc: Global, parts: &[&[u8]], cause: StateCause) {
    let text = with_entry(rt, alloc, parts);
    refused(rt, alloc, &[text.as_slice()], 1000, at(41, cause));
}

/// Asserts that a deletion of this key, by the record with this number, is accepted as an entry.
fn accepted_deletion(rt: &impl Abort, alloc: Global, key: &[u8], number: &[u8]) {
    accepted(rt, alloc, &[key, FILE, number, DELETED], 67);
}

/// Asserts that a deletion of this key, by the record with this number, is refused as an entry for
/// this cause.
fn refused_deletion(rt: &impl Abort, alloc: Global, key: &[u8], number: &[u8], cause: StateCause) {
    refused_entry(rt, alloc, &[key, FILE, number, DELETED], cause);
}

/// Asserts that an entry with this key is refused because of its body.
fn refused_body(rt: &impl Abort, alloc: Global, key: &[u8], body: &[u8]) {
    let parts = [key, FILE, SECOND, PUT, body];
    refused_entry(rt, alloc, &parts, StateCause::Body);
}

#[test]
fn entries_at_their_bounds(rt: HostRuntime) {
    let alloc = rt.alloc();
    accepted_deletion(&rt, alloc, C10001, SECOND);
    accepted_deletion(&rt, alloc, C10001, b"\xff\xff\xff\xfe");
    accepted_deletion(&rt, alloc, b"\x03C10001\x8e\xacC", SECOND);
    accepted(&rt, alloc, &[ASHFELD, FILE, SECOND, PUT, CENTRAL], 128);
    accepted(&rt, alloc, &[JOINS, FILE, SECOND, PUT, AA_JOIN], 161);
    let three = b"\x00\x00\x00\x03";
    let schedule: &[&[u8]] = &[C10001, FILE, SECOND, PUT, three, BS, LO, LT];
    accepted(&rt, alloc, schedule, 311);
}

/// Keys that no record can have.
const BAD_KEYS: &[&[u8]] = &[
    b"\x01 SHFELD",
    b"\x01ASHFEL\x7f",
    b"\x01ASH\x1fELD",
    b"\x02C1000\x1fC10002\x5b\xf1ASHFELD P",
    b"\x02C10001C1000\x7f\x5b\xf1ASHFELD P",
    b"\x02C10001C10002\x8e\xadASHFELD P",
    b"\x02C10001C10002\x5b\xf1 SHFELD P",
    b"\x02C10001C10002\x5b\xf1ASHFELD\x1fP",
    b"\x02C10001C10002\x5b\xf1ASHFELD X",
    b"\x03C1000\x7f\x5b\xf1P",
    b"\x03C10001\x8e\xadP",
    b"\x03C10001\x5b\xf1X",
    b"\x03C10001\x5b\xf1\x00",
];

#[test]
fn bad_keys(rt: HostRuntime) {
    for key in BAD_KEYS {
        refused_deletion(&rt, rt.alloc(), key, SECOND, StateCause::Body);
    }
}

#[test]
fn record_numbers_of_no_change(rt: HostRuntime) {
    let alloc = rt.alloc();
    let stamp = StateCause::Stamp;
    refused_deletion(&rt, alloc, C10001, b"\x00\x00\x00\x00", stamp);
    refused_deletion(&rt, alloc, C10001, b"\x00\x00\x00\x01", stamp);
    refused_deletion(&rt, alloc, C10001, b"\xff\xff\xff\xff", stamp);
}

/// Bodies that aren't valid for a TIPLOC.
const BAD_DESCRIPTIONS: &[&[u8]] = &[
    b"\x1f        ASHFIELD CENTRAL                                     ~",
    b"         ASHFIELD CENTRAL                                     \x7f",
];

/// Lines that aren't valid as the body of the association with the key `JOINS`.
const BAD_LINES: &[&[u8]] = &[
    b"AARC10001C100022406102406141111100JJSASHFELD  TP                               P",
    b"AANC10003C100022406102406141111100JJSASHFELD  TP                               P",
    b"AANC10001C100022406102406141111100JJSBRAYTON  TP                               P",
    b"AANC10001C100022406102406141111102JJSASHFELD  TP                               P",
    b"AANC10001C100022406102406141111100JJSASHFELD  TP                              \x7fP",
    BS,
];

#[test]
fn bad_bodies(rt: HostRuntime) {
    for body in BAD_DESCRIPTIONS {
        refused_body(&rt, rt.alloc(), ASHFELD, body);
    }
    for line in BAD_LINES {
        refused_body(&rt, rt.alloc(), JOINS, line);
    }
}

/// Asserts that an entry of a schedule is refused because of its body, which consists of this count
/// of lines and these lines.
fn refused_schedule(rt: &impl Abort, alloc: Global, count: &[u8; 4], lines: &[&[u8]]) {
    let lines = joined_text(rt, alloc, lines);
    let parts = [C10001, FILE, SECOND, PUT, count, lines.as_slice()];
    refused_entry(rt, alloc, &parts, StateCause::Body);
}

#[test]
fn lines_that_are_no_schedule(rt: HostRuntime) {
    let alloc = rt.alloc();
    refused_schedule(&rt, alloc, b"\x00\x00\x00\x00", &[]);
    refused_schedule(&rt, alloc, b"\x00\x00\x00\x01", &[BS]);
    refused_schedule(&rt, alloc, b"\x00\x00\x00\x01", &[BS_DELETED]);
    refused_schedule(&rt, alloc, b"\x00\x00\x00\x02", &[BS, LO]);
    refused_schedule(&rt, alloc, b"\x00\x00\x00\x04", &[BS, LO, LT, LT]);
}
