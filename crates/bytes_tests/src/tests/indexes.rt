//! Tests that a state has an index once it was read. No clause says this, because an index only
//! saves time.
use super::compare::same;
use super::{known_text, place, read};
use docker_state::State;
use std::alloc::Global;
use std::process::Abort;

/// How a state finds the schedules that call at a place, as text. Without an index, a state walks
/// over all its rows.
fn way_of(rt: &impl Abort, alloc: Global, state: &State) -> String {
    let rows = state.calling(&place(rt));
    format!(in alloc; "{rows:?}").expect(rt, "the text")
}

#[test]
fn a_state_that_is_read_has_an_index(rt: HostRuntime) {
    let alloc = rt.alloc();
    let known = known_text(&rt, alloc);
    let state = read(&rt, alloc, known.as_slice(), 4096, 311);
    let way = way_of(&rt, alloc, &state);
    let indexed = state.indexed(alloc).expect(&rt, "room");
    same(&rt, way.as_str(), way_of(&rt, alloc, &indexed).as_str());
}
