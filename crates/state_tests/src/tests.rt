use self::compare::same;
use cif_file::{CifFile, read_pieces};
use cif_line::Day;
use docker_join::Merge;
use docker_state::State;
use std::alloc::Global;
use std::process::Abort;
use test_records::text;

mod compare;
mod entries;
mod files;
mod horizons;
mod indexes;
mod parts;
mod places;
mod shown;
mod staging;
mod tables;

use shown::shown;

/// Reads the file with these records.
fn file(rt: &impl Abort, alloc: Global, records: &[&[u8]]) -> CifFile {
    let text = text(alloc, records, b"\n").expect(rt, "memory");
    read_pieces(alloc, &[text.as_slice()], 1000).expect(rt, "a file")
}

/// The state of the file with these records.
fn state(rt: &impl Abort, alloc: Global, records: &[&[u8]]) -> State {
    State::of_file(alloc, file(rt, alloc, records)).expect(rt, "memory")
}

/// The join of two states.
fn joined(rt: &impl Abort, alloc: Global, one: State, other: State) -> State {
    one.join(alloc, other).expect(rt, "memory")
}

/// The join of the states of two files.
fn pair(rt: &impl Abort, alloc: Global, one: &[&[u8]], other: &[&[u8]]) -> State {
    let first = state(rt, alloc, one);
    joined(rt, alloc, first, state(rt, alloc, other))
}

/// The state after these days were set as horizons, one after another.
fn set(rt: &impl Abort, mut state: State, days: &[&str]) -> State {
    for day in days {
        state.set_horizon(Day::from_iso(day).expect(rt, "a day"));
    }
    state
}

/// The state of a file after these days were set as horizons, one after another.
fn set_on(rt: &impl Abort, alloc: Global, file: &[&[u8]], days: &[&str]) -> State {
    set(rt, state(rt, alloc, file), days)
}

/// Asserts that a state is shown as these lines of text.
fn shown_is(rt: &impl Abort, alloc: Global, state: &State, lines: &[&[u8]]) {
    let shown = shown(rt, alloc, state);
    let wanted = text(alloc, lines, b"\n").expect(rt, "memory");
    same(rt, shown.as_slice(), wanted.as_slice());
}

/// Asserts that a state is shown as these lines, and that `get` finds the entry for each of its
/// keys.
fn state_is(rt: &impl Abort, alloc: Global, state: &State, lines: &[&[u8]]) {
    shown_is(rt, alloc, state, lines);
    for row in state.entries() {
        same(rt, state.get(&row.0), Some(&row.1));
    }
}

/// Asserts that a state is shown as these lines, and that `get` finds the entry for each of its
/// keys. Takes the state by value.
fn made_is(rt: &impl Abort, alloc: Global, made: State, lines: &[&[u8]]) {
    state_is(rt, alloc, &made, lines);
}

/// Asserts that a state is shown as the text `before`.
fn shown_again(rt: &impl Abort, alloc: Global, state: &State, before: &[u8]) {
    let again = shown(rt, alloc, state);
    same(rt, again.as_slice(), before);
}
