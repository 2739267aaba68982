//! The list of the trains that have a train identity and start on a day.

use super::compare::same;
use super::{day, joined};
use cif_line::Kept;
use docker_state::State;
use docker_train::{TrainFault, print_trains};
use std::alloc::Global;
use std::process::Abort;
use test_records::{
    BS_C10002_WEEK, BS_CANCELLED, BS_OVERLAY, BS_WEEK, HD, LO, LO_0915, LT, ZZ, text,
};

/// A file with two trains. C10001 has a permanent schedule, its overlay and its cancellation.
const TWO: &[&[u8]] = &[
    HD,
    BS_C10002_WEEK,
    LO,
    LT,
    BS_WEEK,
    LO,
    LT,
    BS_OVERLAY,
    LO_0915,
    LT,
    BS_CANCELLED,
    ZZ,
];

/// Asserts that the list of the trains with the identity 1A10 on a day has exactly these lines.
fn lists(rt: &impl Abort, alloc: Global, state: &State, on: &str, wanted: &[&[u8]]) {
    let mut kept = Kept::new(alloc, 1000).expect(rt, "room");
    print_trains(state, b"1A10", day(rt, on), &mut kept).expect(rt, "a list");
    let wanted = text(alloc, wanted, b"\n").expect(rt, "a text");
    same(rt, kept.bytes(), wanted.as_slice());
}

/// A train is listed with the STP indicator of its chosen schedule, and not at all if that is a
/// cancellation.
#[test]
fn listed(rt: HostRuntime) {
    let state = joined(&rt, rt.alloc(), &[TWO]);
    lists(
        &rt,
        rt.alloc(),
        &state,
        "2024-06-10",
        &[b"C10001 2024-06-10 P"],
    );
    lists(
        &rt,
        rt.alloc(),
        &state,
        "2024-06-11",
        &[b"C10001 2024-06-11 O"],
    );
    lists(&rt, rt.alloc(), &state, "2024-06-14", &[]);
    lists(&rt, rt.alloc(), &state, "2024-06-17", &[]);
}

/// A day before the horizon is refused. The day of the horizon isn't refused.
#[test]
fn list_before_the_horizon(rt: HostRuntime) {
    let mut state = joined(&rt, rt.alloc(), &[TWO]);
    state.set_horizon(day(&rt, "2024-06-11"));
    let mut kept = Kept::new(rt.alloc(), 1000).expect(&rt, "room");
    let fault = print_trains(&state, b"1A10", day(&rt, "2024-06-10"), &mut kept).err();
    same(&rt, fault, Some(TrainFault::Lapsed));
    same(&rt, kept.bytes(), b"");
    lists(
        &rt,
        rt.alloc(),
        &state,
        "2024-06-11",
        &[b"C10001 2024-06-11 O"],
    );
}

/// A line has 20 bytes. A sink with less room takes only the prefix that fits.
#[test]
fn list_to_a_full_sink(rt: HostRuntime) {
    let state = joined(&rt, rt.alloc(), &[TWO]);
    let mut kept = Kept::new(rt.alloc(), 19).expect(&rt, "room");
    let fault = print_trains(&state, b"1A10", day(&rt, "2024-06-10"), &mut kept).err();
    same(&rt, fault, Some(TrainFault::Sink));
    same(&rt, kept.bytes(), b"C10001 2024-06-10 P");
}
