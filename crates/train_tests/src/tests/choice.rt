//! Which schedule is chosen for each day, and the records that are printed for it.

use super::{joined, says};
use docker_state::State;
use std::alloc::Global;
use std::process::Abort;
use test_records::trains::{END, NONE_ON_17_JUNE};
use test_records::{
    BS_C10002_WEEK, BS_CANCELLED, BS_NEW, BS_OVERLAY, BS_SUNDAY, BS_WEEK, HD, LO, LO_0915, LO_0920,
    LO_0940, LT, ZZ,
};

/// A file with five schedules of C10001 and one schedule of C10002. C10001 has a permanent
/// schedule, its overlay, its cancellation, a new schedule, and a second permanent schedule that
/// begins later.
const TRAINS: &[&[u8]] = &[
    HD,
    BS_C10002_WEEK,
    LO,
    LT,
    BS_WEEK,
    LO,
    LT,
    BS_OVERLAY,
    LO_0915,
    LT,
    BS_CANCELLED,
    BS_NEW,
    LO_0920,
    LT,
    BS_SUNDAY,
    LO_0940,
    LT,
    ZZ,
];

/// The heading for 10 June. On this day C10001 runs according to its permanent schedule, record 5
/// of the file.
const PERMANENT: &[u8] =
    b"TRAIN  C10001  2024-06-10 P RUNS      2024-06-09 2100 DFROC1A          5        ";

/// The heading for 11 June. On this day C10001 runs according to its overlay, record 8 of the file.
const OVERLAY: &[u8] =
    b"TRAIN  C10001  2024-06-11 O RUNS      2024-06-09 2100 DFROC1A          8        ";

/// The heading for 13 June. On this day C10001 runs according to the new schedule, record 12 of the
/// file. If a new schedule and an overlay run on the same day, the new schedule is chosen.
const NEW: &[u8] =
    b"TRAIN  C10001  2024-06-13 N RUNS      2024-06-09 2100 DFROC1A         12        ";

/// The heading for 14 June. On this day C10001 is cancelled by record 11 of the file.
const CANCELLED: &[u8] =
    b"TRAIN  C10001  2024-06-14 C CANCELLED 2024-06-09 2100 DFROC1A         11        ";

/// The heading for 16 June. On this day C10001 runs according to the permanent schedule that begins
/// later, record 15 of the file.
const SUNDAY: &[u8] =
    b"TRAIN  C10001  2024-06-16 P RUNS      2024-06-09 2100 DFROC1A         15        ";

/// The heading for 14 June. On this day C10002 runs according to its schedule, record 2 of the
/// file.
const OTHER: &[u8] =
    b"TRAIN  C10002  2024-06-14 P RUNS      2024-06-09 2100 DFROC1A          2        ";

/// The heading for 9 June, before C10001's first schedule begins.
const NONE_BEFORE: &[u8] =
    b"TRAIN  C10001  2024-06-09   NONE                                                ";

/// The heading for C10003, which isn't in the file.
const NOBODY: &[u8] =
    b"TRAIN  C10003  2024-06-10   NONE                                                ";

/// The state of the file `TRAINS`.
fn trains(rt: &impl Abort, alloc: Global) -> State {
    joined(rt, alloc, &[TRAINS])
}

/// Checks days on which the permanent schedule is chosen, and a day on which its overlay is chosen.
#[test]
fn permanent_and_overlay(rt: HostRuntime) {
    let state = trains(&rt, rt.alloc());
    let permanent: &[&[u8]] = &[PERMANENT, BS_WEEK, LO, LT, END];
    let overlay: &[&[u8]] = &[OVERLAY, BS_OVERLAY, LO_0915, LT, END];
    says(&rt, rt.alloc(), &state, "C10001", "2024-06-10", permanent);
    says(&rt, rt.alloc(), &state, "C10001", "2024-06-11", overlay);
}

/// A cancellation is chosen like any other schedule, and the record of the cancellation is printed.
#[test]
fn cancellation(rt: HostRuntime) {
    let state = trains(&rt, rt.alloc());
    let cancelled: &[&[u8]] = &[CANCELLED, BS_CANCELLED, END];
    let other: &[&[u8]] = &[OTHER, BS_C10002_WEEK, LO, LT, END];
    says(&rt, rt.alloc(), &state, "C10001", "2024-06-14", cancelled);
    says(&rt, rt.alloc(), &state, "C10002", "2024-06-14", other);
}

/// If a new schedule and an overlay run on the same day, the new schedule is chosen. Of two
/// permanent schedules, the schedule that begins later is chosen.
#[test]
fn new_and_later(rt: HostRuntime) {
    let state = trains(&rt, rt.alloc());
    let new: &[&[u8]] = &[NEW, BS_NEW, LO_0920, LT, END];
    let sunday: &[&[u8]] = &[SUNDAY, BS_SUNDAY, LO_0940, LT, END];
    says(&rt, rt.alloc(), &state, "C10001", "2024-06-13", new);
    says(&rt, rt.alloc(), &state, "C10001", "2024-06-16", sunday);
}

/// Checks days on which no schedule runs, and a UID without schedules.
#[test]
fn none(rt: HostRuntime) {
    let state = trains(&rt, rt.alloc());
    says(
        &rt,
        rt.alloc(),
        &state,
        "C10001",
        "2024-06-17",
        &[NONE_ON_17_JUNE, END],
    );
    says(
        &rt,
        rt.alloc(),
        &state,
        "C10001",
        "2024-06-09",
        &[NONE_BEFORE, END],
    );
    says(
        &rt,
        rt.alloc(),
        &state,
        "C10003",
        "2024-06-10",
        &[NOBODY, END],
    );
}
