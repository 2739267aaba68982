//! Whole dockers, as they are printed.

use super::compare::same;
use super::{day, joined, place, printed, state};
use cif_line::Kept;
use docker_day::{docker, write_docker};
use docker_state::State;
use std::alloc::Global;
use std::process::Abort;
use test_records::dockers::{ASHFELD_0900, NONE_AT_ASHFELD, NONE_AT_ASHFLDN, NONE_AT_ELM};
use test_records::files::{MORNING, PLACE, RENAMED};
use test_records::text;

/// Asserts that the docker of these files for a place on 10 June has exactly this text.
fn prints(rt: &impl Abort, alloc: Global, files: &[&[&[u8]]], at: &str, wanted: &[&[u8]]) {
    let state = joined(rt, alloc, files);
    let kept = printed(rt, alloc, &state, at, "2024-06-10");
    let wanted = text(alloc, wanted, b"\n").expect(rt, "a text");
    same(rt, kept.bytes(), wanted.as_slice());
}

/// Checks the docker of a place that a train leaves.
#[test]
fn whole_text(rt: HostRuntime) {
    let files: &[&[&[u8]]] = &[MORNING];
    prints(&rt, rt.alloc(), files, "ASHFELD", ASHFELD_0900);
}

/// Checks the docker of a place that isn't in any file.
#[test]
fn place_without_a_record(rt: HostRuntime) {
    let files: &[&[&[u8]]] = &[MORNING];
    prints(&rt, rt.alloc(), files, "ELM", NONE_AT_ELM);
}

/// The heading has the description of the place, if its TIPLOC is live.
#[test]
fn headings(rt: HostRuntime) {
    let files: &[&[&[u8]]] = &[PLACE, RENAMED];
    prints(&rt, rt.alloc(), files, "ASHFLDN", NONE_AT_ASHFLDN);
    prints(&rt, rt.alloc(), files, "ASHFELD", NONE_AT_ASHFELD);
}

/// Asserts that the docker of Ashfeld on 10 June fits in a sink with room for `room` bytes if and
/// only if `wanted` is true.
fn fits(rt: &impl Abort, alloc: Global, state: &State, room: usize, wanted: bool) {
    let docker = docker(alloc, state, &place(rt, "ASHFELD"), day(rt, "2024-06-10")).expect(
        rt, "a docker",
    );
    let mut kept = Kept::new(alloc, room).expect(rt, "room");
    same(rt, write_docker(&docker, &mut kept).is_ok(), wanted);
}

/// A sink without room for the last byte fails, and a sink with room for all bytes doesn't.
#[test]
fn full_sink(rt: HostRuntime) {
    let state = state(&rt, rt.alloc(), MORNING);
    fits(&rt, rt.alloc(), &state, 170, false);
    fits(&rt, rt.alloc(), &state, 171, true);
}
