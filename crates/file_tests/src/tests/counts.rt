//! Tests of files that are checked, and whose records and changes are counted but not stored.
ghost use Rattle.std.specs.Prelude.{◌<◌};

use super::compare::{same, same_in};
use super::{LINKED, OVERLAID, at};
use cif_file::{FileCause, FileReadFault, judge_file};
use cif_line::{Bytes, Extract};
use std::alloc::Global;
use std::process::Abort;
use test_records::files::{AMENDED, DELETED, DELETED_AT_NO_TIME, MORNING, PLACE};
use test_records::{HD, TA, ZZ, text};

/// The records of a file, how many records and changes it has, and a name for the row.
type Row = (&'static [&'static [u8]], u32, u64, &'static str);

const ROWS: &[Row] = &[
    (&[HD, ZZ], 2, 0, "no unit"),
    (MORNING, 5, 1, "a schedule"),
    (DELETED, 3, 1, "a deletion"),
    (DELETED_AT_NO_TIME, 5, 1, "a deletion's journey"),
    (PLACE, 3, 1, "an insertion"),
    (&[HD, TA, ZZ], 3, 2, "a rename"),
    (AMENDED, 3, 1, "an amendment of the same code"),
    (OVERLAID, 9, 3, "an overlay and a cancellation"),
    (LINKED, 11, 3, "an association between schedules"),
];

/// Asserts that `judge_file`, reading a text in pieces of `step` bytes, returns these counts.
fn check_count(rt: &impl Abort, alloc: Global, text: &[u8], step: usize, row: Row)
    requires { 0 < step }
{
    let (_, records, changes, name) = row;
    let mut source = Bytes::new(text, step);
    let count = judge_file(alloc, &mut source, 1000).expect(rt, name);
    same_in(rt, name, count.records(), records);
    same_in(rt, name, count.changes(), changes);
    same_in(rt, name, count.header().minute(), 1260);
    same_in(rt, name, count.header().extract(), Extract::Update);
    same_in(rt, name, source.left().is_empty(), true);
}

#[test]
fn counts(rt: HostRuntime) {
    let alloc = rt.alloc();
    for row in ROWS {
        let text = text(alloc, row.0, b"\n").expect(&rt, "room");
        check_count(&rt, alloc, text.as_slice(), 1, *row);
        check_count(&rt, alloc, text.as_slice(), 81, *row);
        check_count(&rt, alloc, text.as_slice(), 4096, *row);
    }
}

#[test]
fn a_limit_on_records(rt: HostRuntime) {
    let whole = text(rt.alloc(), MORNING, b"\r\n").expect(&rt, "room");
    let mut source = Bytes::new(whole.as_slice(), 7);
    let count = judge_file(rt.alloc(), &mut source, 5).expect(&rt, "a file");
    same(&rt, count.changes(), 1);
    let mut source = Bytes::new(whole.as_slice(), 7);
    let fault = judge_file(rt.alloc(), &mut source, 4).err();
    let too_many = at(5, FileCause::TooMany);
    same(&rt, fault, Some(FileReadFault::File(too_many)));
}
