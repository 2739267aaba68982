//! Finding the schedules that call at a TIPLOC, the associations there, and the schedules of a UID.

use super::compare::same;
use super::shown::{add, add_body, add_key, add_number};
use super::{file, joined, pair, set_on, state};
use cif_file::{Body, Key};
use cif_line::{Tiploc, Uid};
use docker_state::{PlaceRows, State};
use std::alloc::Global;
use std::process::Abort;
use test_records::files::{DELETION, DIVISION_FILE, EIGHTH, FULL};
use test_records::{
    AA_DIVIDE, BS, BS_C30001, BS_C30002, BS_C30002_DELETED, HD_8A, HD_10B, LI_1010, LI_1040, LO,
    LO_1000_PLAIN, LO_COLWELL_1045, LT, LT_1100_PLAIN, LT_DUNMERE_1100, ZZ, text,
};

/// Appends a key and its body to a text.
fn add_found(rt: &impl Abort, alloc: Global, text: &mut Vec<u8>, key: &Key, body: &Body) {
    add_key(rt, alloc, text, key);
    add(rt, text, b"\n");
    add_body(rt, text, body);
}

/// Appends the rows found at a place to a text. Each row is shown with `word`, and with its index
/// among all rows of the state, counted from 0. The contracts promise nothing about this index: it
/// is only a hint.
fn add_place_rows(
    rt: &impl Abort,
    alloc: Global,
    text: &mut Vec<u8>,
    word: &[u8],
    rows: PlaceRows<'_>,
) {
    for (number, key, body) in rows {
        add(rt, text, word);
        add_number(rt, alloc, text, number as u64);
        add(rt, text, b": ");
        add_found(rt, alloc, text, key, body);
    }
}

/// Appends the schedules of a UID to a text.
fn add_of_uid(rt: &impl Abort, alloc: Global, text: &mut Vec<u8>, state: &State, uid: &Uid) {
    for (key, body) in state.of_uid(uid) {
        add(rt, text, b"of it ");
        add_found(rt, alloc, text, key, body);
    }
}

/// Asserts that the rows found at a TIPLOC, followed by the schedules of the UID C30002, are shown
/// as this text.
fn found_is(rt: &impl Abort, alloc: Global, state: &State, tiploc: &str, lines: &[&[u8]]) {
    let mut found = Vec::new(alloc);
    let tiploc = Tiploc::from_text(tiploc).expect(rt, "a TIPLOC");
    add_place_rows(rt, alloc, &mut found, b"calls ", state.calling(&tiploc));
    add_place_rows(rt, alloc, &mut found, b"linked ", state.linked(&tiploc));
    let uid = Uid::from_field(b"C30002").expect(rt, "a UID");
    add_of_uid(rt, alloc, &mut found, state, &uid);
    let wanted = text(alloc, lines, b"\n").expect(rt, "memory");
    same(rt, found.as_slice(), wanted.as_slice());
}

/// A file that is later than `DIVISION_FILE`. It deletes C30002 and puts C10001.
const LATER: &[&[u8]] = &[HD_10B, BS_C30002_DELETED, BS, LO, LT, ZZ];

/// What is found at Colwell in the state of `DIVISION_FILE`. The state has three rows: the
/// association, C30001 and C30002.
const AT_COLWELL: &[&[u8]] = &[
    b"calls 1: C30001 23537",
    BS_C30001,
    LO_1000_PLAIN,
    LI_1010,
    LI_1040,
    LT_1100_PLAIN,
    b"calls 2: C30002 23537",
    BS_C30002,
    LO_COLWELL_1045,
    LT_DUNMERE_1100,
    b"linked 0: C30001",
    AA_DIVIDE,
    b"of it C30002 23537",
    BS_C30002,
    LO_COLWELL_1045,
    LT_DUNMERE_1100,
];

/// What is shown for Elm, where no schedule calls: only the schedule of the UID C30002.
const AT_ELM: &[&[u8]] = &[
    b"of it C30002 23537",
    BS_C30002,
    LO_COLWELL_1045,
    LT_DUNMERE_1100,
];

/// What is found at Colwell in the join with the state of `LATER`: the rows with the indexes 0 and
/// 2. The join has four rows.
const LEFT_AT_COLWELL: &[&[u8]] = &[
    b"calls 2: C30001 23537",
    BS_C30001,
    LO_1000_PLAIN,
    LI_1010,
    LI_1040,
    LT_1100_PLAIN,
    b"linked 0: C30001",
    AA_DIVIDE,
];

/// What is found at Ashfeld in this join.
const AT_ASHFELD: &[&[u8]] = &[
    b"calls 1: C10001 23537",
    BS,
    LO,
    LT,
    b"calls 2: C30001 23537",
    BS_C30001,
    LO_1000_PLAIN,
    LI_1010,
    LI_1040,
    LT_1100_PLAIN,
];

/// The state of the file with these records, without an index.
fn unindexed(rt: &impl Abort, alloc: Global, records: &[&[u8]]) -> State {
    State::of_file_unindexed(alloc, file(rt, alloc, records)).expect(rt, "memory")
}

/// Asserts what is found in the state `one` of `DIVISION_FILE`.
fn finds(rt: &impl Abort, alloc: Global, one: &State) {
    found_is(rt, alloc, one, "COLWELL", AT_COLWELL);
    found_is(rt, alloc, one, "ELM", AT_ELM);
}

/// Asserts what is found in the join of a state of `LATER` with a state of `DIVISION_FILE`.
fn finds_in_the_join(rt: &impl Abort, alloc: Global, later: State, one: State) {
    let both = joined(rt, alloc, later, one);
    found_is(rt, alloc, &both, "COLWELL", LEFT_AT_COLWELL);
    found_is(rt, alloc, &both, "ASHFELD", AT_ASHFELD);
}

#[test]
fn places(rt: HostRuntime) {
    let alloc = rt.alloc();
    let one = state(&rt, alloc, DIVISION_FILE);
    finds(&rt, alloc, &one);
    finds_in_the_join(&rt, alloc, state(&rt, alloc, LATER), one);
    let lapsed = set_on(&rt, alloc, DIVISION_FILE, &["2024-06-11"]);
    found_is(&rt, alloc, &lapsed, "COLWELL", &[]);
}

#[test]
fn places_without_an_index(rt: HostRuntime) {
    let alloc = rt.alloc();
    let one = unindexed(&rt, alloc, DIVISION_FILE);
    finds(&rt, alloc, &one);
    finds_in_the_join(&rt, alloc, unindexed(&rt, alloc, LATER), one);
}

/// One of the two joined states has an index, and the other has none.
#[test]
fn places_of_one_index(rt: HostRuntime) {
    let alloc = rt.alloc();
    let one = unindexed(&rt, alloc, DIVISION_FILE);
    finds_in_the_join(&rt, alloc, state(&rt, alloc, LATER), one);
    let one = state(&rt, alloc, DIVISION_FILE);
    finds_in_the_join(&rt, alloc, unindexed(&rt, alloc, LATER), one);
}

#[test]
fn places_of_what_was_deleted(rt: HostRuntime) {
    let alloc = rt.alloc();
    let one = pair(&rt, alloc, DELETION, EIGHTH);
    found_is(&rt, alloc, &one, "ASHFELD", &[]);
    let other = pair(&rt, alloc, EIGHTH, DELETION);
    found_is(&rt, alloc, &other, "ASHFELD", &[]);
}

/// A file of 8 June with C30001, which is older than the full extract `FULL`.
const BELOW: &[&[u8]] = &[
    HD_8A,
    BS_C30001,
    LO_1000_PLAIN,
    LI_1010,
    LI_1040,
    LT_1100_PLAIN,
    ZZ,
];

/// What is found at Ashfeld in the join of `BELOW`, `LATER` and `FULL`: only the row of C10001.
const ABOVE_AT_ASHFELD: &[&[u8]] = &[b"calls 0: C10001 23537", BS, LO, LT];

/// The rows of a file below the newest full extract aren't found. One of the joined states has an
/// update that is newer than the extract, so neither state has all rows of the join.
#[test]
fn places_above_the_floor(rt: HostRuntime) {
    let alloc = rt.alloc();
    let updates = pair(&rt, alloc, BELOW, LATER);
    let both = joined(&rt, alloc, updates, state(&rt, alloc, FULL));
    found_is(&rt, alloc, &both, "COLWELL", &[]);
    found_is(&rt, alloc, &both, "ASHFELD", ABOVE_AT_ASHFELD);
}
