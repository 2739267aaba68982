//! The states of single files, and their joins.

use super::compare::same;
use super::{file, joined, made_is, pair, shown, shown_again, state, state_is};
use cif_file::{CifFile, Key};
use cif_line::Tiploc;
use docker_join::Merge;
use docker_state::State;
use std::alloc::Global;
use std::process::Abort;
use test_records::files::{
    DELETED, DELETION, EIGHTH, FIFTH, FULL, LATER, LONGER, MORNING, NINTH, PLACE, PUT_AND_DELETED,
    RENAMED, REVISION, SEVENTH,
};
use test_records::{
    BODY_OF_TA, BS, BS_C10002, BS_DELETED, BS_LONGER, HD_10B, HD_FULL, LO, LO_0850, LO_0905,
    LO_1000, LO_1100, LT, LT_0935, LT_1030, LT_1130, TI, ZZ,
};

/// Asserts that a state has no entry for a timing point.
fn has_none_at(rt: &impl Abort, state: &State, code: &str) {
    let code = Tiploc::from_text(code).expect(rt, "a TIPLOC");
    same(rt, state.get(&Key::Tiploc(code)), None);
}

#[test]
fn no_file(rt: HostRuntime) {
    let alloc = rt.alloc();
    let empty = State::empty(alloc);
    state_is(&rt, alloc, &empty, &[]);
    has_none_at(&rt, &empty, "ASHFELD");
    let twice = joined(&rt, alloc, empty, State::empty(alloc));
    state_is(&rt, alloc, &twice, &[]);
    let one = state(&rt, alloc, PLACE);
    let before = shown(&rt, alloc, &one);
    same(&rt, before.is_empty(), false);
    let all = joined(&rt, alloc, twice, one);
    shown_again(&rt, alloc, &all, before.as_slice());
    has_none_at(&rt, &all, "ASHFLDN");
}

/// Asserts that the state of a file is shown as these lines.
fn file_is(rt: &impl Abort, alloc: Global, file: &[&[u8]], lines: &[&[u8]]) {
    made_is(rt, alloc, state(rt, alloc, file), lines);
}

/// What is shown for the state of `PUT_AND_DELETED`.
const ONLY_DELETED: &[&[u8]] = &[
    b"item 23536 1260 DFROC1A U DFROC1Z",
    b"C10001 23537: record 5 of 23536 1260 DFROC1A",
    b"deleted",
];

/// What is shown for the state of a full extract that puts a schedule and then deletes it.
const ONLY_DELETED_IN_FULL: &[&[u8]] = &[
    b"item 23536 1260 DFROC1A F DFROC1Z",
    b"floor 23536 1260 DFROC1A",
    b"C10001 23537: record 5 of 23536 1260 DFROC1A",
    b"deleted",
];

#[test]
fn one_file(rt: HostRuntime) {
    let alloc = rt.alloc();
    file_is(&rt, alloc, PUT_AND_DELETED, ONLY_DELETED);
    let full: &[&[u8]] = &[HD_FULL, BS, LO, LT, BS_DELETED, ZZ];
    file_is(&rt, alloc, full, ONLY_DELETED_IN_FULL);
}

/// Joins the states of two files, and joins the result with the first state again.
fn merged_back(rt: &impl Abort, alloc: Global, one: &[&[u8]], other: &[&[u8]]) -> State {
    let both = pair(rt, alloc, one, other);
    joined(rt, alloc, both, state(rt, alloc, one))
}

/// Joins the states of two files, and joins the result with each of them again.
fn merged_twice(rt: &impl Abort, alloc: Global, one: &[&[u8]], other: &[&[u8]]) -> State {
    let second = state(rt, alloc, other);
    joined(rt, alloc, second, merged_back(rt, alloc, one, other))
}

/// Asserts that the join of two files' states is shown as these lines. Joins them in both orders,
/// and also joins each state a second time.
fn pair_is(rt: &impl Abort, alloc: Global, one: &[&[u8]], other: &[&[u8]], lines: &[&[u8]]) {
    made_is(rt, alloc, pair(rt, alloc, one, other), lines);
    made_is(rt, alloc, pair(rt, alloc, other, one), lines);
    made_is(rt, alloc, merged_back(rt, alloc, one, other), lines);
    made_is(rt, alloc, merged_twice(rt, alloc, one, other), lines);
}

/// What is shown for the join of a schedule and its revision.
pub(super) const REVISED: &[&[u8]] = &[
    b"item 23536 1260 DFROC1A U DFROC1Z",
    b"item 23537 1260 DFROC1B U DFROC1A",
    b"C10001 23537: record 2 of 23537 1260 DFROC1B",
    BS,
    LO_0905,
    LT_0935,
    b"live C10001 23537",
    BS,
    LO_0905,
    LT_0935,
];

/// What is shown for the join of a deletion and an older put of the same schedule.
const DELETED_FIRST: &[&[u8]] = &[
    b"item 23535 1260 DFROC1A U DFROC1Z",
    b"item 23536 1260 DFROC1B U DFROC1A",
    b"C10001 23537: record 2 of 23536 1260 DFROC1B",
    b"deleted",
];

/// What is shown for the join of a TIPLOC insert and a later amendment with a new code.
const WITH_NEW_CODE: &[&[u8]] = &[
    b"item 23536 1260 DFROC1A U DFROC1Z",
    b"item 23537 1260 DFROC1B U DFROC1A",
    b"ASHFELD: record 2 of 23537 1260 DFROC1B",
    b"deleted",
    b"ASHFLDN: record 2 of 23537 1260 DFROC1B",
    &BODY_OF_TA,
    b"live ASHFLDN",
    &BODY_OF_TA,
];

/// What is shown for the join of two files with the same file stamp.
const OF_ONE_STAMP: &[&[u8]] = &[
    b"item 23536 1260 DFROC1A F DFROC1Z",
    b"item 23536 1260 DFROC1A U DFROC1Z",
    b"floor 23536 1260 DFROC1A",
    b"C10001 23537: record 2 of 23536 1260 DFROC1A",
    BS,
    LO,
    LT,
    b"live C10001 23537",
    BS,
    LO,
    LT,
];

#[test]
fn two_files(rt: HostRuntime) {
    let alloc = rt.alloc();
    pair_is(&rt, alloc, MORNING, REVISION, REVISED);
    pair_is(&rt, alloc, DELETION, EIGHTH, DELETED_FIRST);
    pair_is(&rt, alloc, PLACE, RENAMED, WITH_NEW_CODE);
    pair_is(&rt, alloc, MORNING, FULL, OF_ONE_STAMP);
}

/// Asserts which of two schedules with equal stamps the join of `MORNING` and this file takes: the
/// one with this basic schedule and this origin.
fn stays(rt: &impl Abort, alloc: Global, other: &[&[u8]], basic: &[u8], origin: &[u8]) {
    let lines: &[&[u8]] = &[
        b"item 23536 1260 DFROC1A U DFROC1Z",
        b"C10001 23537: record 2 of 23536 1260 DFROC1A",
        basic,
        origin,
        LT,
        b"live C10001 23537",
        basic,
        origin,
        LT,
    ];
    pair_is(rt, alloc, MORNING, other, lines);
}

/// Of two puts with equal stamps, the put that ends later stays. If both end on the same day, the
/// put with the greater bytes stays. Of a put and a deletion, the put stays.
#[test]
fn equal_stamps(rt: HostRuntime) {
    let alloc = rt.alloc();
    stays(&rt, alloc, LONGER, BS_LONGER, LO_0850);
    stays(&rt, alloc, LATER, BS, LO_0905);
    stays(&rt, alloc, DELETED, BS, LO);
}

/// What is shown for the join of an update, a later full extract and an even later update.
const THREE_FILES: &[&[u8]] = &[
    b"item 23534 1260 DFROC1B F DFROC1A",
    b"item 23536 1260 DFROC1C U DFROC1B",
    b"floor 23534 1260 DFROC1B",
    b"C10001 23537: record 2 of 23536 1260 DFROC1C",
    BS,
    LO_1100,
    LT_1130,
    b"C10002 23537: record 2 of 23534 1260 DFROC1B",
    BS_C10002,
    LO_1000,
    LT_1030,
    b"live C10001 23537",
    BS,
    LO_1100,
    LT_1130,
    b"live C10002 23537",
    BS_C10002,
    LO_1000,
    LT_1030,
];

/// Asserts that the join of three files' states is shown as these lines, whichever two of them are
/// joined first.
fn three_are(rt: &impl Abort, alloc: Global, first: &[&[u8]], second: &[&[u8]], third: &[&[u8]]) {
    let front = pair(rt, alloc, first, second);
    let all = joined(rt, alloc, front, state(rt, alloc, third));
    made_is(rt, alloc, all, THREE_FILES);
    let front = state(rt, alloc, first);
    let all = joined(rt, alloc, front, pair(rt, alloc, second, third));
    made_is(rt, alloc, all, THREE_FILES);
}

#[test]
fn a_late_full_extract(rt: HostRuntime) {
    let alloc = rt.alloc();
    three_are(&rt, alloc, FIFTH, SEVENTH, NINTH);
    three_are(&rt, alloc, FIFTH, NINTH, SEVENTH);
    three_are(&rt, alloc, SEVENTH, FIFTH, NINTH);
    three_are(&rt, alloc, SEVENTH, NINTH, FIFTH);
    three_are(&rt, alloc, NINTH, FIFTH, SEVENTH);
    three_are(&rt, alloc, NINTH, SEVENTH, FIFTH);
}

/// Joins two states. If memory runs out, tries once more with the two states that the call has
/// returned.
fn joined_again(
    rt: &impl Abort,
    alloc: Global,
    one: State,
    other: State,
    before: [&[u8]; 2],
) -> State {
    match one.join(alloc, other) {
        Ok(joined) => joined,
        Err((one, other)) => {
            shown_again(rt, alloc, &one, before[0]);
            shown_again(rt, alloc, &other, before[1]);
            joined(rt, alloc, one, other)
        }
    }
}

/// Makes the state of a file with five records and one change. If memory runs out, makes it from
/// the file that the call has returned.
fn of_file_again(rt: &impl Abort, alloc: Global, file: CifFile) -> State {
    match State::of_file(alloc, file) {
        Ok(state) => state,
        Err(file) => {
            same(rt, file.records(), 5);
            same(rt, file.changes().len(), 1);
            State::of_file(alloc, file).expect(rt, "memory")
        }
    }
}

/// Asserts that joining two states succeeds at the first or at the second attempt.
fn join_succeeds(rt: &impl Abort, alloc: Global, one: State, other: State) {
    let before = shown(rt, alloc, &one);
    let before_other = shown(rt, alloc, &other);
    let before = [before.as_slice(), before_other.as_slice()];
    let joined = joined_again(rt, alloc, one, other, before);
    same(rt, joined.entries().len(), 2);
}

/// Asserts that making the state of the file with these records succeeds at the first or at the
/// second attempt.
fn of_file_succeeds(rt: &impl Abort, alloc: Global, records: &[&[u8]]) {
    let one = state(rt, alloc, records);
    let before = shown(rt, alloc, &one);
    let again = of_file_again(rt, alloc, file(rt, alloc, records));
    shown_again(rt, alloc, &again, before.as_slice());
}

#[test]
fn out_of_memory(rt: HostRuntime) {
    let alloc = rt.alloc();
    let one = state(&rt, alloc, MORNING);
    let other = state(&rt, alloc, &[HD_10B, TI, ZZ]);
    join_succeeds(&rt, alloc, one, other);
    of_file_succeeds(&rt, alloc, MORNING);
}
