//! Dockers of states with a horizon.

use super::compare::same;
use super::{day, join, lines_are, place, state};
use docker_day::{DockerFault, docker};
use docker_state::State;
use std::alloc::Global;
use std::process::Abort;
use test_records::files::{JULY, MORNING, REVISION};

/// Asserts that the docker of Ashfeld on a day is refused.
fn is_refused(rt: &impl Abort, alloc: Global, state: &State, on: &str) {
    let fault = docker(alloc, state, &place(rt, "ASHFELD"), day(rt, on)).err();
    same(rt, fault, Some(DockerFault::Lapsed));
}

/// A docker is refused if its day is earlier than three days after the horizon. Setting a horizon
/// before the current horizon changes nothing.
#[test]
fn horizons(rt: HostRuntime) {
    let alloc = rt.alloc();
    let mut state = state(&rt, alloc, MORNING);
    state.set_horizon(day(&rt, "2024-06-14"));
    is_refused(&rt, alloc, &state, "2024-06-16");
    lines_are(&rt, alloc, &state, "ASHFELD", "2024-06-17", &[]);
    state.set_horizon(day(&rt, "2024-06-15"));
    is_refused(&rt, alloc, &state, "2024-06-17");
    lines_are(&rt, alloc, &state, "ASHFELD", "2024-06-18", &[]);
    state.set_horizon(day(&rt, "2024-06-10"));
    is_refused(&rt, alloc, &state, "2024-06-17");
    lines_are(&rt, alloc, &state, "ASHFELD", "2024-06-18", &[]);
}

/// A lapsed entry keeps its stamp, so a file that is older than the entry's file can't bring the
/// schedule back.
#[test]
fn older_file_after_a_horizon(rt: HostRuntime) {
    let alloc = rt.alloc();
    let mut known = state(&rt, alloc, REVISION);
    known.set_horizon(day(&rt, "2024-06-15"));
    let older = state(&rt, alloc, JULY);
    let joined = join(&rt, alloc, known, older);
    lines_are(&rt, alloc, &joined, "ASHFELD", "2024-06-24", &[]);
}
