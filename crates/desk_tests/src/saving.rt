//! Tests of how a desk saves its state, and how it renews its state after another program has
//! written the state's file.

use crate::compare::same;
use crate::desks::{desk_of, ends, prints};
use crate::expected::ANSWER_0905;
use crate::records::{BOTH_STATE, REVISION, REVISION_STATE, lines_text, state_text};
use crate::shelves::{put, shelf_of, text_of};
use crate::taking::taken;
use docker_cmd::OfficeFault;
use docker_desk::{Compared, Desk};
use docker_host::{Fails, Folder, Shelf, Sight};
use docker_office::{StateCause, StateFault};
use std::alloc::Global;
use std::process::Abort;
use test_records::states::{EMPTY_STATE, MORNING_STATE, Parts};

/// Returns a desk that has read the state of the morning train and taken the revision, but hasn't
/// saved.
fn desk_with_revision(rt: &impl Abort, alloc: Global) -> Desk {
    let mut desk = desk_of(rt, alloc, MORNING_STATE);
    let file = lines_text(rt, alloc, REVISION);
    same(rt, taken(rt, alloc, &mut desk, file.as_slice()), Ok(()));
    desk
}

/// Saves the desk's state. Asserts the result, and whether the desk then has unsaved changes.
fn saves(
    rt: &impl Abort,
    desk: &mut Desk,
    seen: &mut Sight,
    folder: &mut Shelf,
    answer: Result<(), OfficeFault>,
    unsaved: bool,
) {
    assert!(rt; folder.failures() < 100);
    same(rt, desk.save("S", seen, folder), answer);
    same(rt, desk.is_unsaved(), unsaved);
}

/// Asserts the state in the file `S`, and how often the folder has failed.
fn holds(rt: &impl Abort, alloc: Global, folder: &Shelf, state: Parts, failures: u64) {
    let text = state_text(rt, alloc, state);
    same(rt, text_of(folder), text.as_slice());
    same(rt, folder.failures(), failures);
}

#[test]
fn a_desk_takes_prints_saves_and_goes_on(rt: HostRuntime) {
    let alloc = rt.alloc();
    let mut folder = shelf_of(&rt, alloc, MORNING_STATE);
    let mut seen = folder.look("S");
    let mut desk = desk_with_revision(&rt, alloc);
    prints(&rt, alloc, &mut desk, "2024-06-10", ANSWER_0905);
    saves(&rt, &mut desk, &mut seen, &mut folder, Ok(()), false);
    holds(&rt, alloc, &folder, BOTH_STATE, 0);
    prints(&rt, alloc, &mut desk, "2024-06-10", ANSWER_0905);
    saves(&rt, &mut desk, &mut seen, &mut folder, Ok(()), false);
    holds(&rt, alloc, &folder, BOTH_STATE, 0);
    ends(&rt, alloc, desk, false, BOTH_STATE);
}

/// Writes this state to the file `S`, as another command would.
fn puts(rt: &impl Abort, alloc: Global, folder: &mut Shelf, state: Parts) {
    let text = state_text(rt, alloc, state);
    put(rt, folder, "S", text.as_slice());
}

/// Renews the desk's state from the file `S`. Asserts the result, and whether the desk then has
/// unsaved changes.
fn renews(
    rt: &impl Abort,
    desk: &mut Desk,
    seen: &mut Sight,
    folder: &mut Shelf,
    answer: Result<Compared, OfficeFault>,
    unsaved: bool,
) {
    assert!(rt; folder.failures() < 100);
    same(rt, desk.renew("S", true, seen, folder), answer);
    same(rt, desk.is_unsaved(), unsaved);
}

/// The result of renewing from a file that holds the desk's state, and the result of renewing from
/// a file that holds another state.
const SAME: Result<Compared, OfficeFault> = Ok(Compared::Same);

const OTHER: Result<Compared, OfficeFault> = Ok(Compared::Other);

#[test]
fn another_command_saves_meanwhile(rt: HostRuntime) {
    let alloc = rt.alloc();
    let mut folder = shelf_of(&rt, alloc, EMPTY_STATE);
    let mut seen = folder.look("S");
    let mut desk = desk_of(&rt, alloc, MORNING_STATE);
    puts(&rt, alloc, &mut folder, REVISION_STATE);
    let refused = Err(OfficeFault::Sink);
    saves(&rt, &mut desk, &mut seen, &mut folder, refused, false);
    holds(&rt, alloc, &folder, REVISION_STATE, 1);
    renews(&rt, &mut desk, &mut seen, &mut folder, OTHER, true);
    saves(&rt, &mut desk, &mut seen, &mut folder, Ok(()), false);
    holds(&rt, alloc, &folder, BOTH_STATE, 1);
    ends(&rt, alloc, desk, false, BOTH_STATE);
}

#[test]
fn another_command_saves_more(rt: HostRuntime) {
    let alloc = rt.alloc();
    let mut folder = shelf_of(&rt, alloc, MORNING_STATE);
    let mut seen = folder.look("S");
    let mut desk = desk_of(&rt, alloc, MORNING_STATE);
    renews(&rt, &mut desk, &mut seen, &mut folder, SAME, false);
    puts(&rt, alloc, &mut folder, BOTH_STATE);
    renews(&rt, &mut desk, &mut seen, &mut folder, SAME, false);
    puts(&rt, alloc, &mut folder, MORNING_STATE);
    renews(&rt, &mut desk, &mut seen, &mut folder, OTHER, true);
    ends(&rt, alloc, desk, true, BOTH_STATE);
}

#[test]
fn another_command_saves_the_same(rt: HostRuntime) {
    let alloc = rt.alloc();
    let mut folder = shelf_of(&rt, alloc, MORNING_STATE);
    let mut seen = folder.look("S");
    let mut desk = desk_with_revision(&rt, alloc);
    renews(&rt, &mut desk, &mut seen, &mut folder, OTHER, true);
    puts(&rt, alloc, &mut folder, BOTH_STATE);
    renews(&rt, &mut desk, &mut seen, &mut folder, SAME, false);
    ends(&rt, alloc, desk, false, BOTH_STATE);
}

/// The fault of a text that doesn't begin with the mark of a state.
const NO_MARK: StateFault = StateFault {
    at: 0,
    cause: StateCause::Mark,
};

#[test]
fn a_file_that_is_no_state_any_more(rt: HostRuntime) {
    let alloc = rt.alloc();
    let mut folder = shelf_of(&rt, alloc, MORNING_STATE);
    let mut seen = folder.look("S");
    let mut desk = desk_of(&rt, alloc, MORNING_STATE);
    let mut others = Shelf::new(alloc, 0);
    let failed = Err(OfficeFault::Source);
    renews(&rt, &mut desk, &mut seen, &mut others, failed, false);
    let file = lines_text(&rt, alloc, REVISION);
    put(&rt, &mut folder, "S", file.as_slice());
    let refused = Err(OfficeFault::State(NO_MARK));
    renews(&rt, &mut desk, &mut seen, &mut folder, refused, false);
    ends(&rt, alloc, desk, false, MORNING_STATE);
}

/// Asserts that `save` leaves the file and the desk unchanged if the folder fails at this call, and
/// that the next `save` succeeds.
fn fails_once(rt: &impl Abort, alloc: Global, fails: Fails) {
    let mut folder = shelf_of(rt, alloc, MORNING_STATE);
    let mut seen = folder.look("S");
    let mut desk = desk_with_revision(rt, alloc);
    folder.fail(fails);
    let refused = Err(OfficeFault::Sink);
    saves(rt, &mut desk, &mut seen, &mut folder, refused, true);
    holds(rt, alloc, &folder, MORNING_STATE, 1);
    prints(rt, alloc, &mut desk, "2024-06-10", ANSWER_0905);
    folder.fail(Fails::Never);
    saves(rt, &mut desk, &mut seen, &mut folder, Ok(()), false);
    holds(rt, alloc, &folder, BOTH_STATE, 1);
}

#[test]
fn a_store_that_fails(rt: HostRuntime) {
    fails_once(&rt, rt.alloc(), Fails::AtCreate);
    fails_once(&rt, rt.alloc(), Fails::AfterWriting(100));
    fails_once(&rt, rt.alloc(), Fails::AtComplete);
}
