//! Horizons: which entries lapse when a horizon is set, and which don't.

use super::{joined, made_is, set, set_on};
use docker_state::State;
use std::alloc::Global;
use std::process::Abort;
use test_records::files::{JULY, MORNING, REVISION};
use test_records::{AA_NO_END, BODY_OF_TI, BS, BS_C10003, BS_NO_END, HD, LO, LT, TI, ZZ};

/// What is shown for the schedule of `MORNING` if the horizon is its last day.
const LIVE: &[&[u8]] = &[
    b"horizon 23541",
    b"item 23536 1260 DFROC1A U DFROC1Z",
    b"C10001 23537: record 2 of 23536 1260 DFROC1A",
    BS,
    LO,
    LT,
    b"live C10001 23537",
    BS,
    LO,
    LT,
];

/// What is shown for the schedule if the horizon is the day after its last day.
const LAPSED: &[&[u8]] = &[
    b"horizon 23542",
    b"item 23536 1260 DFROC1A U DFROC1Z",
    b"C10001 23537: record 2 of 23536 1260 DFROC1A",
    b"lapsed",
];

/// Asserts that the schedule of `MORNING` is shown as these lines after these horizons were set,
/// one after another.
fn under_is(rt: &impl Abort, alloc: Global, days: &[&str], lines: &[&[u8]]) {
    made_is(rt, alloc, set_on(rt, alloc, MORNING, days), lines);
}

#[test]
fn a_horizon(rt: HostRuntime) {
    let alloc = rt.alloc();
    under_is(&rt, alloc, &["2024-06-14"], LIVE);
    under_is(&rt, alloc, &["2024-06-14", "2024-06-15"], LAPSED);
    under_is(&rt, alloc, &["2024-06-15", "2024-06-10"], LAPSED);
}

/// What is shown for the join of `REVISION` and `JULY` if the horizon is after the revision's end.
/// `JULY` is older than `REVISION`, and the schedule ends later in it.
const REVISION_LAPSED: &[&[u8]] = &[
    b"horizon 23542",
    b"item 23535 1260 DFROC1A U DFROC1Z",
    b"item 23537 1260 DFROC1B U DFROC1A",
    b"C10001 23537: record 2 of 23537 1260 DFROC1B",
    b"lapsed",
];

/// Joins two states and then sets these horizons. Asserts that the revision has lapsed.
fn has_lapsed(rt: &impl Abort, alloc: Global, one: State, other: State, days: &[&str]) {
    let both = joined(rt, alloc, one, other);
    made_is(rt, alloc, set(rt, both, days), REVISION_LAPSED);
}

/// Asserts that the revision lapses wherever the horizons are set: on the first state, on the
/// second state, or on the join.
fn lapses(
    rt: &impl Abort,
    alloc: Global,
    (one, its): (&[&[u8]], &[&str]),
    (other, theirs): (&[&[u8]], &[&str]),
    last: &[&str],
) {
    let first = set_on(rt, alloc, one, its);
    let second = set_on(rt, alloc, other, theirs);
    has_lapsed(rt, alloc, first, second, last);
}

#[test]
fn a_horizon_between_two_files(rt: HostRuntime) {
    let alloc = rt.alloc();
    let none: &[&str] = &[];
    let day: &[&str] = &["2024-06-15"];
    lapses(&rt, alloc, (REVISION, day), (JULY, none), none);
    lapses(&rt, alloc, (JULY, day), (REVISION, none), none);
    lapses(&rt, alloc, (JULY, none), (REVISION, day), none);
    lapses(&rt, alloc, (JULY, day), (REVISION, day), none);
    lapses(&rt, alloc, (REVISION, none), (JULY, none), day);
}

/// What is shown if the horizon is the last possible day. The file has a timing point, an
/// association and a schedule without an end, and a deletion.
const WITHOUT_END: &[&[u8]] = &[
    b"horizon 36524",
    b"item 23536 1260 DFROC1A U DFROC1Z",
    b"ASHFELD: record 2 of 23536 1260 DFROC1A",
    &BODY_OF_TI,
    b"C10001: record 3 of 23536 1260 DFROC1A",
    AA_NO_END,
    b"C10001 23537: record 4 of 23536 1260 DFROC1A",
    BS_NO_END,
    LO,
    LT,
    b"C10003 23537: record 7 of 23536 1260 DFROC1A",
    b"deleted",
    b"live ASHFELD",
    &BODY_OF_TI,
    b"live C10001",
    AA_NO_END,
    b"live C10001 23537",
    BS_NO_END,
    LO,
    LT,
];

#[test]
fn what_has_no_end_stays(rt: HostRuntime) {
    let alloc = rt.alloc();
    let file: &[&[u8]] = &[HD, TI, AA_NO_END, BS_NO_END, LO, LT, BS_C10003, ZZ];
    let one = set_on(&rt, alloc, file, &["2059-12-31"]);
    made_is(&rt, alloc, one, WITHOUT_END);
}
