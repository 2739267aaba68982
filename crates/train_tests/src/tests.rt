//! Worked examples of the text for a UID and a day, from small states.
mod choice;
mod compare;
mod files;
mod lists;
mod refusals;

use self::compare::same;
use cif_file::read_pieces;
use cif_line::{Day, Kept, Uid};
use docker_state::{Merge, State};
use docker_train::{find_train, uid_of_word, write_train};
use std::alloc::Global;
use std::process::Abort;
use test_records::text;

fn day(rt: &impl Abort, text: &str) -> Day {
    Day::from_iso(text).expect(rt, "a day")
}

fn uid(rt: &impl Abort, word: &str) -> Uid {
    uid_of_word(word).expect(rt, "a UID")
}

/// The state of a file with these records, or `None` if memory runs out.
fn state_of(alloc: Global, records: &[&[u8]]) -> Option<State> {
    let text = text(alloc, records, b"\n").ok()?;
    let file = read_pieces(alloc, &[text.as_slice()], 1000).ok()?;
    State::of_file(alloc, file).ok()
}

/// The state of these files, joined in this order.
fn joined(rt: &impl Abort, alloc: Global, files: &[&[&[u8]]]) -> State {
    let mut joined = State::empty(alloc);
    for records in files {
        let state = state_of(alloc, records).expect(rt, "a state");
        joined = joined.join(alloc, state).ok().expect(rt, "a join");
    }
    joined
}

/// A sink with the text for a UID on a day.
fn printed(rt: &impl Abort, alloc: Global, state: &State, word: &str, on: &str) -> Kept {
    let train = find_train(state, &uid(rt, word), day(rt, on)).expect(rt, "an answer");
    let mut kept = Kept::new(alloc, 10_000).expect(rt, "room");
    write_train(&train, &mut kept).expect(rt, "a text");
    kept
}

/// Asserts that the text for a UID on a day has exactly these lines.
fn says(rt: &impl Abort, alloc: Global, state: &State, word: &str, on: &str, wanted: &[&[u8]]) {
    let kept = printed(rt, alloc, state, word, on);
    let wanted = text(alloc, wanted, b"\n").expect(rt, "a text");
    same(rt, kept.bytes(), wanted.as_slice());
}
