//! Texts of the states of several files. The states are joined and received in every order.
ghost use Rattle.std.specs.Prelude.{◌<◌};

use super::compare::{same, same_in};
use super::{goes_round, join, joined_text, state, text_is, written};
use cif_line::Bytes;
use docker_bytes::join_state;
use docker_state::State;
use std::alloc::Global;
use std::process::Abort;
use test_records::files::{DELETED, FIFTH, File, LATER, LONGER, MORNING, NINTH, REVISION, SEVENTH};
use test_records::states::{
    LATE_STATE, LATER_STATE, LONGER_STATE, MORNING_STATE, Parts, REVISED_STATE,
};

/// The result of joining the states of these files, one after the other.
fn merged(rt: &impl Abort, alloc: Global, files: &[&[&[u8]]]) -> State {
    let mut all = State::empty(alloc);
    for file in files {
        let other = state(rt, alloc, file);
        all = join(rt, alloc, all, other);
    }
    all
}

/// Lets a state receive a text from a source that returns `step` bytes per read.
fn receive(rt: &impl Abort, alloc: Global, all: &mut State, text: &[u8], step: usize)
    requires { 0 < step }
{
    let answer = join_state(alloc, all, &mut Bytes::new(text, step), 1000);
    same(rt, answer, Ok(()));
}

/// Lets a state receive the text of a file's state.
fn receive_file(rt: &impl Abort, alloc: Global, all: &mut State, file: &[&[u8]], step: usize)
    requires { 0 < step }
{
    let other = state(rt, alloc, file);
    let text = written(rt, alloc, &other);
    receive(rt, alloc, all, text.bytes(), step);
}

/// Asserts that a state has the text `wanted` after it has received the states of these files in
/// this order. Receiving the joined state afterwards changes nothing.
fn receives(rt: &impl Abort, alloc: Global, files: &[&[&[u8]]], wanted: &[u8], step: usize)
    requires { 0 < step }
{
    let mut all = State::empty(alloc);
    for file in files {
        receive_file(rt, alloc, &mut all, file, step);
    }
    text_is(rt, alloc, &all, wanted);
    receive(rt, alloc, &mut all, wanted, step);
    text_is(rt, alloc, &all, wanted);
}

/// Asserts that the join of these files' states, in this order, has this text. A state that
/// receives the texts of these states has the same text.
fn merges_to(rt: &impl Abort, alloc: Global, files: &[&[&[u8]]], pieces: &[&[u8]], name: &str) {
    let all = merged(rt, alloc, files);
    let wanted = joined_text(rt, alloc, pieces);
    let text = written(rt, alloc, &all);
    same_in(rt, name, text.bytes(), wanted.as_slice());
    receives(rt, alloc, files, wanted.as_slice(), 1);
    receives(rt, alloc, files, wanted.as_slice(), 4096);
    goes_round(rt, alloc, &all, wanted.len(), 80);
}

/// Asserts that the concatenation of these pieces has `len` bytes.
fn len_is(rt: &impl Abort, alloc: Global, pieces: &[&[u8]], len: usize) {
    let text = joined_text(rt, alloc, pieces);
    same(rt, text.len(), len);
}

#[test]
fn a_revision(rt: HostRuntime) {
    let alloc = rt.alloc();
    len_is(&rt, alloc, REVISED_STATE, 330);
    let files = [MORNING, REVISION];
    merges_to(&rt, alloc, &files, REVISED_STATE, "old and new");
    let files = [REVISION, MORNING, REVISION];
    merges_to(&rt, alloc, &files, REVISED_STATE, "new and old");
}

/// The files `FIFTH`, `SEVENTH` and `NINTH` in each order, with a name for each order.
const ORDERS: &[(&[File], &str)] = &[
    (&[FIFTH, SEVENTH, NINTH], "5, 7, 9"),
    (&[FIFTH, NINTH, SEVENTH], "5, 9, 7"),
    (&[SEVENTH, FIFTH, NINTH], "7, 5, 9"),
    (&[SEVENTH, NINTH, FIFTH], "7, 9, 5"),
    (&[NINTH, FIFTH, SEVENTH], "9, 5, 7"),
    (&[NINTH, SEVENTH, FIFTH], "9, 7, 5"),
];

#[test]
fn a_late_full_extract(rt: HostRuntime) {
    let alloc = rt.alloc();
    len_is(&rt, alloc, LATE_STATE, 600);
    for (files, name) in ORDERS {
        merges_to(&rt, alloc, files, LATE_STATE, name);
    }
}

/// Two files with equal stamps, the text of the state of both files, and a name for the row.
const TIES: &[(&[File], Parts, &str)] = &[
    (&[MORNING, MORNING], MORNING_STATE, "the same"),
    (&[MORNING, LONGER], LONGER_STATE, "longer"),
    (&[LONGER, MORNING], LONGER_STATE, "longer first"),
    (&[MORNING, LATER], LATER_STATE, "later"),
    (&[LATER, MORNING], LATER_STATE, "later first"),
    (&[MORNING, DELETED], MORNING_STATE, "deleted"),
    (&[DELETED, MORNING], MORNING_STATE, "deleted first"),
];

#[test]
fn equal_stamps(rt: HostRuntime) {
    let alloc = rt.alloc();
    len_is(&rt, alloc, LONGER_STATE, 311);
    for (files, text, name) in TIES {
        merges_to(&rt, alloc, files, text, name);
    }
}
