//! Tests of the requests `places` and `known`.

use crate::answers::answers;
use crate::desks::{day_of, desk_of};
use crate::expected::DONE;
use crate::records::PLACES_STATE;
use docker_desk::{Desk, Query};
use std::alloc::Global;
use std::process::Abort;
use test_records::dockers::Lines;
use test_records::states::{EMPTY_STATE, MORNING_STATE};

/// The answer to `places` for the state `PLACES_STATE`. The morning train calls at Ashfeld and
/// Brayton, but Brayton's TIPLOC is deleted.
const PLACES: Lines = &[
    b"0 2 112",
    b"ASHFELD ASF 87701 ASHFELD JUNCTION                    1",
    b"CORHAM            CORHAM EXCHANGE                     0",
];

/// The answer to `places` for the state `PLACES_STATE`, after the morning train has lapsed.
const PLACES_LAPSED: Lines = &[
    b"0 2 112",
    b"ASHFELD ASF 87701 ASHFELD JUNCTION                    0",
    b"CORHAM            CORHAM EXCHANGE                     0",
];

/// The answers to `known` for the state `PLACES_STATE`, before and after a horizon is set.
const KNOWN: Lines = &[
    b"0 6 124",
    b"HORIZON      NONE",
    b"FULL         2024-06-09 2100 DFROC1A",
    b"LAST         2024-06-14",
    b"SCHEDULES    1",
    b"ASSOCIATIONS 0",
    b"PLACES       2",
];

const KNOWN_LAPSED: Lines = &[
    b"0 5 106",
    b"HORIZON      2024-06-15",
    b"FULL         2024-06-09 2100 DFROC1A",
    b"SCHEDULES    0",
    b"ASSOCIATIONS 0",
    b"PLACES       2",
];

/// The answer to `known` of a desk that knows only an update without timing points.
const KNOWN_MORNING: Lines = &[
    b"0 5 87",
    b"HORIZON      NONE",
    b"LAST         2024-06-14",
    b"SCHEDULES    1",
    b"ASSOCIATIONS 0",
    b"PLACES       0",
];

/// The answer to `known` of a desk that knows no files.
const KNOWN_NOTHING: Lines = &[
    b"0 4 63",
    b"HORIZON      NONE",
    b"SCHEDULES    0",
    b"ASSOCIATIONS 0",
    b"PLACES       0",
];

/// Asserts the answers of a desk to `places` and `known`.
fn lists(rt: &impl Abort, alloc: Global, desk: &mut Desk, places: &[&[u8]], known: &[&[u8]]) {
    answers(rt, alloc, &desk.show(&Query::Places), places);
    answers(rt, alloc, &desk.show(&Query::Known), known);
}

#[test]
fn timing_points_and_what_is_known(rt: HostRuntime) {
    let alloc = rt.alloc();
    let mut desk = desk_of(&rt, alloc, PLACES_STATE);
    lists(&rt, alloc, &mut desk, PLACES, KNOWN);
    desk.set_horizon(day_of(&rt, "2024-06-14"));
    answers(&rt, alloc, &desk.show(&Query::Places), PLACES);
    desk.set_horizon(day_of(&rt, "2024-06-15"));
    lists(&rt, alloc, &mut desk, PLACES_LAPSED, KNOWN_LAPSED);
}

#[test]
fn lists_without_timing_points(rt: HostRuntime) {
    let alloc = rt.alloc();
    let mut desk = desk_of(&rt, alloc, MORNING_STATE);
    lists(&rt, alloc, &mut desk, DONE, KNOWN_MORNING);
    let mut desk = desk_of(&rt, alloc, EMPTY_STATE);
    lists(&rt, alloc, &mut desk, DONE, KNOWN_NOTHING);
}
