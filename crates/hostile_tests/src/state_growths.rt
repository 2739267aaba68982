//! Calls that allocate memory while they join states, read their texts, make dockers, or make a
//! sink in memory.

use crate::desk::Desk;
use crate::endings::{Ending, ending_of};
use crate::texts::{
    MOST_BYTES, STEP, compare_state, has_text, occasion_of, sink, source_of, state_of,
};
use cif_line::{Kept, Memory, Sink, write_all};
use docker_bytes::{ReadFault, StateFault, StateParser, join_state, migrate, read_state};
use docker_day::{Docker, docker, write_docker};
use docker_join::Merge;
use docker_state::State;

/// Runs a row with the arguments `STATE OTHER JOINED`. The join of the first two states must equal
/// the third state.
pub(crate) fn join(desk: &Desk, words: &[&str]) {
    let [first, second, wanted] = words else {
        return desk.trouble("STATE OTHER JOINED");
    };
    let (left, right) = (desk.text(first), desk.text(second));
    let one = state_of(desk, left.as_slice());
    let other = state_of(desk, right.as_slice());
    desk.begin();
    if let Err((one, other)) = joined(desk, one, other, wanted) {
        let same = has_text(desk, &one, left.as_slice());
        let both = same && has_text(desk, &other, right.as_slice());
        desk.report(both, "both states are handed back");
        join_again(desk, one, other, wanted);
    }
}

/// Joins two states, and prints whether the result is the expected state. If memory runs out, both
/// states are returned.
fn joined(desk: &Desk, one: State, other: State, wanted: &str) -> Result<(), (State, State)> {
    match one.join(desk.alloc(), other) {
        Ok(state) => {
            desk.end(Ending::Done);
            compare_state(desk, &state, wanted);
            Ok(())
        }
        Err(both) => {
            desk.end(Ending::Memory);
            Err(both)
        }
    }
}

/// Joins the two states that the first join returned because memory ran out. This join has enough
/// memory, so it must return the wanted state.
fn join_again(desk: &Desk, one: State, other: State, wanted: &str) {
    match one.join(desk.alloc(), other) {
        Ok(state) => compare_state(desk, &state, wanted),
        Err(_) => desk.trouble("want of memory"),
    }
}

/// A parser for the text of a state, with the greatest limit on the number of bytes.
fn new_parser(desk: &Desk) -> StateParser {
    StateParser::new(desk.alloc(), MOST_BYTES)
}

/// Feeds a text to a parser in pieces, up to the first fault.
fn feed_all(parser: &mut StateParser, text: &[u8]) -> Result<(), StateFault> {
    for piece in text.chunks(STEP) {
        parser.feed(piece)?;
    }
    Ok(())
}

/// Whether a parser that has returned this fault returns the same fault at each further call.
fn repeats(mut parser: StateParser, fault: StateFault) -> bool {
    let fed = parser.feed(b"").err();
    let again = parser.feed(b"DKS2").err();
    let finished = parser.finish().err();
    fed == Some(fault) && again == Some(fault) && finished == Some(fault)
}

/// Prints whether the state that a parser returns has the text named `wanted`.
fn compare_fed(desk: &Desk, parser: StateParser, wanted: &str) {
    match parser.finish() {
        Ok(state) => compare_state(desk, &state, wanted),
        Err(_) => desk.trouble("a state is refused"),
    }
}

/// Feeds a text to a new parser, and prints whether the state that the parser returns has the text
/// named `wanted`.
fn feed_again(desk: &Desk, text: &[u8], wanted: &str) {
    let mut parser = new_parser(desk);
    match feed_all(&mut parser, text) {
        Ok(()) => compare_fed(desk, parser, wanted),
        Err(_) => desk.trouble("a state is refused"),
    }
}

/// Runs a row with the argument `STATE`. A parser is fed the state's text.
pub(crate) fn feed(desk: &Desk, words: &[&str]) {
    let [name] = words else {
        return desk.trouble("STATE");
    };
    let text = desk.text(name);
    let mut parser = new_parser(desk);
    desk.begin();
    let fed = feed_all(&mut parser, text.as_slice());
    desk.end(ending_of(&fed));
    match fed {
        Ok(()) => compare_fed(desk, parser, name),
        Err(fault) => {
            desk.report(repeats(parser, fault), "each later call answers the same");
            feed_again(desk, text.as_slice(), name);
        }
    }
}

/// Runs a row with the argument `STATE`. The call finishes a parser that was fed the state's text.
pub(crate) fn finish(desk: &Desk, words: &[&str]) {
    let [name] = words else {
        return desk.trouble("STATE");
    };
    let text = desk.text(name);
    let mut parser = new_parser(desk);
    if feed_all(&mut parser, text.as_slice()).is_err() {
        desk.trouble("a state is refused");
    }
    desk.begin();
    let finished = parser.finish();
    desk.end(ending_of(&finished));
    match finished {
        Ok(state) => compare_state(desk, &state, name),
        Err(_) => feed_again(desk, text.as_slice(), name),
    }
}

/// Runs a row with the argument `STATE`. The call reads the state from a source.
pub(crate) fn read(desk: &Desk, words: &[&str]) {
    let [name] = words else {
        return desk.trouble("STATE");
    };
    let text = desk.text(name);
    desk.begin();
    let read = read_state(desk.alloc(), &mut source_of(text.as_slice()), MOST_BYTES);
    desk.end(ending_of(&read));
    match read {
        Ok(state) => compare_state(desk, &state, name),
        Err(_) => compare_state(desk, &state_of(desk, text.as_slice()), name),
    }
}

/// Lets a state receive the state with this text.
fn receive(desk: &Desk, state: &mut State, text: &[u8]) -> Result<(), ReadFault> {
    join_state(desk.alloc(), state, &mut source_of(text), MOST_BYTES)
}

/// Runs a row with the arguments `STATE OTHER JOINED`. The first state receives the second state
/// from a source, and must then equal the third state.
pub(crate) fn join_text(desk: &Desk, words: &[&str]) {
    let [own, other, wanted] = words else {
        return desk.trouble("STATE OTHER JOINED");
    };
    let (before, text) = (desk.text(own), desk.text(other));
    let mut state = state_of(desk, before.as_slice());
    desk.begin();
    let done = receive(desk, &mut state, text.as_slice());
    desk.end(ending_of(&done));
    if done.is_err() {
        let same = has_text(desk, &state, before.as_slice());
        desk.report(same, "the state is as it was");
        if receive(desk, &mut state, text.as_slice()).is_err() {
            desk.trouble("a state is refused");
        }
    }
    compare_state(desk, &state, wanted);
}

/// The state of a text in the older format.
fn migrated(desk: &Desk, text: &[u8]) -> Result<State, ReadFault> {
    migrate(desk.alloc(), &mut source_of(text), MOST_BYTES)
}

/// Runs a row with the arguments `OLDER STATE`. The call reads a text in the older format from a
/// source. The state of this text must equal `STATE`.
pub(crate) fn migrate_text(desk: &Desk, words: &[&str]) {
    let [name, wanted] = words else {
        return desk.trouble("OLDER STATE");
    };
    let text = desk.text(name);
    desk.begin();
    let read = migrated(desk, text.as_slice());
    desk.end(ending_of(&read));
    match read {
        Ok(state) => compare_state(desk, &state, wanted),
        Err(_) => match migrated(desk, text.as_slice()) {
            Ok(state) => compare_state(desk, &state, wanted),
            Err(_) => desk.trouble("a state is refused"),
        },
    }
}

/// Prints whether the text of a docker is the text named `wanted`.
fn compare_docker(desk: &Desk, docker: &Docker<'_>, wanted: &str) {
    if let Some(mut kept) = sink(desk) {
        let whole = write_docker(docker, &mut kept).is_ok();
        desk.report(whole && desk.is_text(kept.bytes(), wanted), wanted);
    }
}

/// Runs a row with the arguments `STATE TIPLOC DATE DOCKER`. The call makes the docker of the state
/// for the place and the day.
pub(crate) fn make_docker(desk: &Desk, words: &[&str]) {
    let [name, place, day, wanted] = words else {
        return desk.trouble("STATE TIPLOC DATE DOCKER");
    };
    let text = desk.text(name);
    let state = state_of(desk, text.as_slice());
    if !has_made(desk, &state, [place, day, wanted], true) {
        let same = has_text(desk, &state, text.as_slice());
        desk.report(same, "the state is as it was");
        if !has_made(desk, &state, [place, day, wanted], false) {
            desk.trouble("want of memory");
        }
    }
}

/// Makes a docker, and prints whether it is the expected docker. If `is_first` is true, this is the
/// row's call, and the call's ending is printed first. Returns false if memory runs out.
fn has_made(desk: &Desk, state: &State, words: [&str; 3], is_first: bool) -> bool {
    let [place, day, wanted] = words;
    let Some((place, day)) = occasion_of(desk, place, day) else {
        return true;
    };
    if is_first {
        desk.begin();
    }
    let made = docker(desk.alloc(), state, &place, day);
    if is_first {
        desk.end(ending_of(&made));
    }
    match made {
        Ok(made) => {
            compare_docker(desk, &made, wanted);
            true
        }
        Err(_) => false,
    }
}

/// A sink with room for a text.
fn room_for(desk: &Desk, text: &[u8]) -> Result<Kept, Memory> {
    Kept::new(desk.alloc(), text.len())
}

/// Writes a text to a sink, and prints whether the sink then has this text.
fn compare_kept(desk: &Desk, kept: Result<Kept, Memory>, text: &[u8], name: &str) {
    match kept {
        Ok(mut kept) => {
            let whole = kept.failures() == 0 && write_all(&mut kept, text).is_ok();
            desk.report(whole && kept.bytes() == text, name);
        }
        Err(_) => desk.trouble("want of memory"),
    }
}

/// The text with this name, repeated `times` times. If memory runs out, prints a line and returns
/// `None`.
fn repeated(desk: &Desk, name: &str, times: &str) -> Option<Vec<u8>> {
    let text = desk.text(name);
    let mut all = Vec::new(desk.alloc());
    for _ in 0..times.parse::<u16>().unwrap_or(0) {
        if all.extend_from_slice(text.as_slice()).is_err() {
            desk.trouble("want of memory");
            return None;
        }
    }
    Some(all)
}

/// Runs a row with the arguments `TEXT TIMES`. The call makes a sink with room for the text,
/// repeated `TIMES` times. Then the repeated text is written to the sink.
pub(crate) fn keep(desk: &Desk, words: &[&str]) {
    let [name, times] = words else {
        return desk.trouble("TEXT TIMES");
    };
    let Some(text) = repeated(desk, name, times) else {
        return;
    };
    desk.begin();
    let kept = room_for(desk, text.as_slice());
    desk.end(ending_of(&kept));
    if kept.is_err() {
        return compare_kept(desk, room_for(desk, text.as_slice()), text.as_slice(), name);
    }
    compare_kept(desk, kept, text.as_slice(), name);
}
