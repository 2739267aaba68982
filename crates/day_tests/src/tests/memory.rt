//! Tests in which memory runs out while a docker is made. The state is unchanged, and a second call
//! returns the docker. The test run decides which allocation is refused. Each call is made at most
//! twice.

use super::compare::same;
use super::{day, place, state_of, written};
use cif_line::Kept;
use docker_day::{Docker, DockerFault, docker};
use docker_state::State;
use std::alloc::Global;
use std::process::Abort;
use test_records::dockers::DIVISION;
use test_records::files::DIVISION_FILE;
use test_records::text;

/// The state of the file `DIVISION_FILE`. It is made a second time if memory runs out.
fn divided(rt: &impl Abort, alloc: Global) -> State {
    match state_of(alloc, DIVISION_FILE) {
        Some(state) => state,
        None => state_of(alloc, DIVISION_FILE).expect(rt, "a state"),
    }
}

/// Asserts that a state has these numbers of ledger items, entries and live rows.
fn counts_are(rt: &impl Abort, state: &State, items: usize, entries: usize, rows: usize) {
    let mut live = 0usize;
    for _ in state.live() {
        live = live.saturating_add(1);
    }
    same(rt, state.ledger().len(), items);
    same(rt, state.entries().len(), entries);
    same(rt, live, rows);
}

/// Writes a docker to a sink, and returns the sink. If memory runs out, the docker is written a
/// second time.
fn taken(rt: &impl Abort, alloc: Global, docker: &Docker<'_>) -> Kept {
    match written(alloc, docker) {
        Some(kept) => kept,
        None => written(alloc, docker).expect(rt, "a text"),
    }
}

/// Makes the docker for Colwell, and returns a sink with its text. If memory runs out, the docker
/// is made a second time.
fn made(rt: &impl Abort, alloc: Global, state: &State) -> Kept {
    let place = place(rt, "COLWELL");
    let day = day(rt, "2024-06-10");
    match docker(alloc, state, &place, day) {
        Ok(docker) => taken(rt, alloc, &docker),
        Err(fault) => {
            same(rt, fault, DockerFault::Memory);
            let docker = docker(alloc, state, &place, day).expect(rt, "a docker");
            taken(rt, alloc, &docker)
        }
    }
}

/// The expected text of the docker. While the docker is made, its list of lines grows more than
/// once.
fn wanted(rt: &impl Abort, alloc: Global) -> Vec<u8> {
    match text(alloc, DIVISION, b"\n") {
        Ok(wanted) => wanted,
        Err(_) => text(alloc, DIVISION, b"\n").expect(rt, "a text"),
    }
}

#[test]
fn out_of_memory(rt: HostRuntime) {
    let alloc = rt.alloc();
    let state = divided(&rt, alloc);
    counts_are(&rt, &state, 1, 3, 3);
    let made = made(&rt, alloc, &state);
    let wanted = wanted(&rt, alloc);
    same(&rt, made.bytes(), wanted.as_slice());
    counts_are(&rt, &state, 1, 3, 3);
}
