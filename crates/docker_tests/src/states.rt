//! Tests of the texts of states that offices send.
ghost use Rattle.std.specs.Prelude.{◌<◌};

use crate::compare::same;
use crate::offices::{day_of, has, ledger_of, merged, office_of, text_of, text_of_parts};
use crate::runs::ORDERS;
use cif_line::{Bytes, Kept};
use docker_office::Office;
use std::alloc::Global;
use std::process::Abort;
use test_records::dockers::Lines;
use test_records::files::*;
use test_records::ledgers::{
    EXTRACT_7B, EXTRACT_9A, UPDATE_9A, UPDATE_9C, UPDATE_10B, UPDATE_EARLY,
};
use test_records::states::{
    BOTH_STATE, DELETED_STATE, EMPTY_STATE, LATE_STATE, LATER_STATE, LONGER_STATE, MORNING_STATE,
    OLD_STATE, Parts, RENAMED_STATE, REVISED_STATE, WITHDRAWN_STATE,
};
use test_records::text;

/// A row: files in one order, the same files in another order, the size of their state's text in
/// bytes, and the parts of that text.
type Row = (&'static [File], &'static [File], usize, Parts);

const ROWS: &[Row] = &[
    (&[], &[], 22, EMPTY_STATE),
    (&[MORNING], &[MORNING, MORNING], 311, MORNING_STATE),
    (
        &[MORNING, REVISION],
        &[REVISION, MORNING],
        330,
        REVISED_STATE,
    ),
    (&[DELETION, EIGHTH], &[EIGHTH, DELETION], 86, DELETED_STATE),
    (
        &[PUT_AND_DELETED],
        &[PUT_AND_DELETED, PUT_AND_DELETED],
        67,
        WITHDRAWN_STATE,
    ),
    (&[PLACE, RENAMED], &[RENAMED, PLACE], 171, RENAMED_STATE),
];

/// A row with a full extract, and an update that is newer.
const LATE: Row = (&[SEVENTH, NINTH], &[NINTH, SEVENTH], 600, LATE_STATE);

/// Rows with files that have equal stamps.
const TIES: &[Row] = &[
    (&[MORNING, LONGER], &[LONGER, MORNING], 311, LONGER_STATE),
    (&[MORNING, LATER], &[LATER, MORNING], 311, LATER_STATE),
    (&[MORNING, DELETED], &[DELETED, MORNING], 311, MORNING_STATE),
    (&[MORNING, FULL], &[FULL, MORNING], 330, BOTH_STATE),
];

/// Asserts that an office that takes these files in this order has a state with this text. An
/// office that receives the state of each file from another office must have a state with the same
/// text.
fn have(rt: &impl Abort, alloc: Global, files: &[File], parts: Parts) {
    has(rt, alloc, &office_of(rt, alloc, files), parts);
    has(rt, alloc, &merged(rt, alloc, files), parts);
}

/// Asserts that an office that takes this row's files, in either order, has a state with this row's
/// text. Also asserts that the text has this row's number of bytes.
fn is_state(rt: &impl Abort, alloc: Global, row: &Row) {
    let (files, others, bytes, parts) = *row;
    same(rt, text_of_parts(rt, alloc, parts).len(), bytes);
    have(rt, alloc, files, parts);
    have(rt, alloc, others, parts);
}

#[test]
fn states_in_any_order(rt: HostRuntime) {
    for row in ROWS {
        is_state(&rt, rt.alloc(), row);
    }
    for row in TIES {
        is_state(&rt, rt.alloc(), row);
    }
    is_state(&rt, rt.alloc(), &LATE);
    for files in ORDERS {
        have(&rt, rt.alloc(), files, LATE_STATE);
    }
}

/// Rows: files, and the lines that the command `files` writes for their state.
const LISTS: &[(&[File], Lines)] = &[
    (&[], &[]),
    (&[REVISION, MORNING], &[UPDATE_9A, UPDATE_10B]),
    (&[NINTH, FIFTH, SEVENTH], &[EXTRACT_7B, UPDATE_9C]),
    (&[MORNING, FULL], &[EXTRACT_9A, UPDATE_9A]),
    (&[EARLY], &[UPDATE_EARLY]),
];

/// Asserts which list of files an office writes after it has taken these files. An office with only
/// the ledger must write the same list.
fn lists(rt: &impl Abort, alloc: Global, files: &[File], wanted: Lines) {
    let wanted = text_of(rt, alloc, wanted);
    let office = office_of(rt, alloc, files);
    let mut text = Kept::new(alloc, 100).expect(rt, "room");
    same(rt, office.files(&mut text), Ok(()));
    same(rt, text.bytes(), wanted.as_slice());
    let ledger = ledger_of(rt, alloc, &office);
    let mut text = Kept::new(alloc, 100).expect(rt, "room");
    same(rt, ledger.files(&mut text), Ok(()));
    same(rt, text.bytes(), wanted.as_slice());
}

#[test]
fn files_of_states(rt: HostRuntime) {
    for (files, wanted) in LISTS {
        lists(&rt, rt.alloc(), files, wanted);
    }
}

/// Asserts that an office has the state `MORNING_STATE` after it has taken this text. The source of
/// the text returns at most `step` bytes per read.
fn is_taken(rt: &impl Abort, alloc: Global, text: &[u8], step: usize)
    requires { 0 < step }
{
    let mut office = Office::new(alloc);
    let answer = office.take(&mut Bytes::new(text, step), 5);
    same(rt, answer, Ok(()));
    has(rt, alloc, &office, MORNING_STATE);
}

#[test]
fn a_file_in_pieces_and_with_other_line_ends(rt: HostRuntime) {
    let alloc = rt.alloc();
    let feeds = text_of(&rt, alloc, MORNING);
    let returns = text(alloc, MORNING, b"\r\n").expect(&rt, "room");
    is_taken(&rt, alloc, feeds.as_slice(), 1);
    is_taken(&rt, alloc, returns.as_slice(), 64);
    let open = feeds.as_slice().get(..404).expect(&rt, "a text");
    is_taken(&rt, alloc, open, 100);
}

#[test]
fn a_state_received_and_reloaded(rt: HostRuntime) {
    let alloc = rt.alloc();
    let mut office = office_of(&rt, alloc, &[REVISION]);
    let known = text_of_parts(&rt, alloc, MORNING_STATE);
    let received = office.receive(&mut Bytes::new(known.as_slice(), 4096), 311);
    same(&rt, received, Ok(()));
    has(&rt, alloc, &office, REVISED_STATE);
    let reloaded = office.reload(&mut Bytes::new(known.as_slice(), 4096), 311);
    same(&rt, reloaded, Ok(()));
    has(&rt, alloc, &office, MORNING_STATE);
}

#[test]
fn a_state_of_the_older_format(rt: HostRuntime) {
    let alloc = rt.alloc();
    let mut office = office_of(&rt, alloc, &[REVISION]);
    office.set_horizon(day_of(&rt, "2024-06-15"));
    let old = text_of_parts(&rt, alloc, OLD_STATE);
    let answer = office.migrate(&mut Bytes::new(old.as_slice(), 4096), 309);
    same(&rt, answer, Ok(()));
    has(&rt, alloc, &office, MORNING_STATE);
}
