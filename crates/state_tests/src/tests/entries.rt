//! Stamps, ops and entries: how they are ordered and joined, and when they lapse.

use super::compare::same;
use cif_file::Body;
use cif_line::{Day, Line};
use docker_join::{Entry, FileStamp, Merge, Op, Pick, Stamp};
use std::alloc::Global;
use std::process::Abort;
use test_records::{AA_ENDS_1960, AA_ENDS_2059, AA_NO_END, AA_NO_END_DIVIDE};

/// A horizon just after the last day number, 36524.
const AFTER_2059: u16 = 36525;

/// The op that puts the association in this record.
fn put(rt: &impl Abort, line: &[u8]) -> Op {
    Op::Put(Body::Assoc(Line::new(line).expect(rt, "a line")))
}

/// The file stamp with this day, minute and reference.
fn file(rt: &impl Abort, day: u16, minute: u16, reference: &[u8; 7]) -> FileStamp {
    FileStamp {
        day: Day::from_number(day).expect(rt, "a day"),
        minute,
        reference: *reference,
    }
}

/// The op of one of the nine entries, which are numbered 0 to 8 in ascending order.
fn op(rt: &impl Abort, place: u8) -> Op {
    match place {
        1 => Op::Deleted,
        2 => Op::Lapsed,
        3 => put(rt, AA_ENDS_1960),
        4 => put(rt, AA_ENDS_2059),
        5 => Op::Put(Body::Tiploc([b' '; 63])),
        7 => put(rt, AA_NO_END_DIVIDE),
        8 => Op::Deleted,
        _ => put(rt, AA_NO_END),
    }
}

/// The record number in the stamp of one of the nine entries, which are numbered 0 to 8.
fn number(place: u8) -> u32 {
    match place {
        0 => 2,
        8 => 4,
        _ => 3,
    }
}

/// One of the nine entries, which are numbered 0 to 8 in ascending order.
pub(super) fn entry(rt: &impl Abort, place: u8) -> Entry {
    let stamp = Stamp {
        file: file(rt, 23536, 1260, b"DFROC1A"),
        number: number(place),
    };
    let op = op(rt, place);
    Entry { stamp, op }
}

/// Asserts that one file stamp is below another, and that the join of the two is the higher file
/// stamp.
fn file_is_below(rt: &impl Abort, alloc: Global, low: FileStamp, high: FileStamp) {
    same(rt, low < high, true);
    same(rt, low.pick(high), high);
    same(rt, high.pick(low), high);
    same(rt, low.join(alloc, high), Ok(high));
    same(rt, high.join(alloc, low), Ok(high));
}

#[test]
fn file_stamps(rt: HostRuntime) {
    let alloc = rt.alloc();
    let low = file(&rt, 23536, 1260, b"DFROC1B");
    file_is_below(&rt, alloc, low, file(&rt, 23537, 0, b"DFROC1C"));
    let low = file(&rt, 23537, 0, b"DFROC1C");
    file_is_below(&rt, alloc, low, file(&rt, 23537, 1260, b"DFROC1A"));
    let low = file(&rt, 23537, 1260, b"DFROC1A");
    file_is_below(&rt, alloc, low, file(&rt, 23537, 1260, b"DFROC1B"));
}

#[test]
fn stamps(rt: HostRuntime) {
    let low = Stamp {
        file: file(&rt, 23536, 1260, b"DFROC1A"),
        number: 7,
    };
    let high = Stamp {
        file: file(&rt, 23536, 1260, b"DFROC1B"),
        number: 2,
    };
    let next = Stamp { number: 3, ..high };
    same(&rt, low < high, true);
    same(&rt, high < next, true);
    same(&rt, high.pick(low), high);
    same(&rt, high.join(rt.alloc(), next), Ok(next));
}

/// Asserts that one entry is below another, and that the join of the two is the higher entry.
fn is_below(rt: &impl Abort, alloc: Global, low: u8, high: u8) {
    same(rt, entry(rt, low) < entry(rt, high), true);
    same(rt, entry(rt, low).pick(entry(rt, high)), entry(rt, high));
    same(rt, entry(rt, high).pick(entry(rt, low)), entry(rt, high));
    let joined = entry(rt, high).join(alloc, entry(rt, low));
    same(rt, joined, Ok(entry(rt, high)));
}

#[test]
fn entries(rt: HostRuntime) {
    is_below(&rt, rt.alloc(), 0, 1);
    is_below(&rt, rt.alloc(), 1, 2);
    is_below(&rt, rt.alloc(), 2, 3);
    is_below(&rt, rt.alloc(), 3, 4);
    is_below(&rt, rt.alloc(), 4, 5);
    is_below(&rt, rt.alloc(), 5, 6);
    is_below(&rt, rt.alloc(), 6, 7);
    is_below(&rt, rt.alloc(), 7, 8);
}

/// Asserts that the op of an entry doesn't lapse with this horizon.
fn stays(rt: &impl Abort, place: u8, horizon: u16) {
    same(rt, op(rt, place).lapse(horizon), op(rt, place));
}

/// Asserts that the op of an entry lapses with this horizon.
fn lapses(rt: &impl Abort, place: u8, horizon: u16) {
    same(rt, op(rt, place).lapse(horizon), Op::Lapsed);
}

#[test]
fn ops_lapse(rt: HostRuntime) {
    stays(&rt, 1, 65535);
    stays(&rt, 2, 65535);
    stays(&rt, 3, 0);
    stays(&rt, 4, AFTER_2059 - 1);
    stays(&rt, 5, 65535);
    stays(&rt, 6, 65535);
    lapses(&rt, 3, 1);
    lapses(&rt, 4, AFTER_2059);
}
