//! Worked examples of dockers, from small states.
mod associations;
mod choice;
mod compare;
mod details;
mod horizons;
mod memory;
mod midnights;
mod permanent;
mod stamps;
mod texts;
mod trains;

use self::compare::same;
use cif_file::read_pieces;
use cif_line::{Day, Kept, Tiploc};
use docker_day::{Docker, docker, write_docker};
use docker_state::{Merge, State};
use std::alloc::Global;
use std::process::Abort;
use test_records::text;

fn day(rt: &impl Abort, text: &str) -> Day {
    Day::from_iso(text).expect(rt, "a day")
}

fn place(rt: &impl Abort, text: &str) -> Tiploc {
    Tiploc::from_text(text).expect(rt, "a place")
}

/// The state of a file with these records, or `None` if memory runs out.
fn state_of(alloc: Global, records: &[&[u8]]) -> Option<State> {
    let text = text(alloc, records, b"\n").ok()?;
    let file = read_pieces(alloc, &[text.as_slice()], 1000).ok()?;
    State::of_file(alloc, file).ok()
}

/// The state of a file with these records.
fn state(rt: &impl Abort, alloc: Global, records: &[&[u8]]) -> State {
    state_of(alloc, records).expect(rt, "a state")
}

/// The join of two states.
fn join(rt: &impl Abort, alloc: Global, one: State, other: State) -> State {
    one.join(alloc, other).ok().expect(rt, "a join")
}

/// The state of these files, joined in this order.
fn joined(rt: &impl Abort, alloc: Global, files: &[&[&[u8]]]) -> State {
    let mut joined = State::empty(alloc);
    for records in files {
        joined = join(rt, alloc, joined, state(rt, alloc, records));
    }
    joined
}

/// The state of these files. Each join has the next file's state as its first operand, and the
/// state joined so far as its second operand.
fn joined_back(rt: &impl Abort, alloc: Global, files: &[&[&[u8]]]) -> State {
    let mut joined = State::empty(alloc);
    for records in files {
        joined = join(rt, alloc, state(rt, alloc, records), joined);
    }
    joined
}

/// A sink with the text of a docker, or `None` if memory runs out.
fn written(alloc: Global, docker: &Docker<'_>) -> Option<Kept> {
    let mut kept = Kept::new(alloc, 10_000).ok()?;
    write_docker(docker, &mut kept).ok()?;
    Some(kept)
}

/// The text of the docker for a place and a day.
fn printed(rt: &impl Abort, alloc: Global, state: &State, at: &str, on: &str) -> Kept {
    let docker = docker(alloc, state, &place(rt, at), day(rt, on)).expect(rt, "a docker");
    written(alloc, &docker).expect(rt, "a text")
}

/// Asserts that the docker of a state has exactly these lines between its heading and its last
/// line.
fn lines_are(rt: &impl Abort, alloc: Global, state: &State, at: &str, on: &str, wanted: &[&[u8]]) {
    let kept = printed(rt, alloc, state, at, on);
    let bytes = kept.bytes();
    let lines = bytes
        .get(57..bytes.len().saturating_sub(57))
        .expect(rt, "a heading and a last line");
    let wanted = text(alloc, wanted, b"\n").expect(rt, "a text");
    same(rt, lines, wanted.as_slice());
}

/// Asserts that the docker of these files, joined in either order, has exactly these lines.
fn shows(rt: &impl Abort, alloc: Global, files: &[&[&[u8]]], at: &str, on: &str, wanted: &[&[u8]]) {
    lines_are(rt, alloc, &joined(rt, alloc, files), at, on, wanted);
    lines_are(rt, alloc, &joined_back(rt, alloc, files), at, on, wanted);
}
