//! Tests of the dockers that a desk prints, and the desks with which tests start.

use crate::answers::answers;
use crate::compare::same;
use crate::expected::{ANSWER_18_JUNE, ANSWER_0900, DAY_REFUSED, DONE, FILES};
use crate::records::state_text;
use crate::shelves::{shelf_with, text_of};
use cif_line::{Bytes, Day, Tiploc};
use docker_desk::{Desk, DockerKind, Query};
use docker_host::Folder;
use docker_office::Office;
use std::alloc::Global;
use std::process::Abort;
use test_records::states::{EMPTY_STATE, LAPSED_STATE, MORNING_STATE, Parts};

/// Returns a desk whose office has read this state.
pub(crate) fn desk_of(rt: &impl Abort, alloc: Global, state: Parts) -> Desk {
    let text = state_text(rt, alloc, state);
    let mut office = Office::new(alloc);
    let mut source = Bytes::new(text.as_slice(), 100);
    office.reload(&mut source, 1000).expect(rt, "a state");
    Desk::new(alloc, office)
}

/// Returns the day with this date.
pub(crate) fn day_of(rt: &impl Abort, date: &str) -> Day {
    Day::from_iso(date).expect(rt, "a day")
}

/// Returns the query for a docker of Ashfeld on this day.
pub(crate) fn docker_on(rt: &impl Abort, kind: DockerKind, date: &str) -> Query {
    let place = Tiploc::from_text("ASHFELD").expect(rt, "a TIPLOC");
    let day = day_of(rt, date);
    Query::Docker { kind, place, day }
}

/// Asserts the answer of a desk to `print` for Ashfeld on this day.
pub(crate) fn prints(rt: &impl Abort, alloc: Global, desk: &mut Desk, date: &str, lines: &[&[u8]]) {
    let docker = docker_on(rt, DockerKind::Ordinary, date);
    answers(rt, alloc, &desk.show(&docker), lines);
}

/// Asserts that a desk has unsaved changes if and only if `unsaved` is set, and that the desk then
/// saves this state.
pub(crate) fn ends(rt: &impl Abort, alloc: Global, mut desk: Desk, unsaved: bool, state: Parts) {
    same(rt, desk.is_unsaved(), unsaved);
    let mut folder = shelf_with(rt, alloc, "S", b"");
    let mut seen = folder.look("S");
    desk.save("S", &mut seen, &mut folder).expect(rt, "room");
    let wanted = state_text(rt, alloc, state);
    same(rt, text_of(&folder), wanted.as_slice());
}

#[test]
fn dockers_and_files(rt: HostRuntime) {
    let alloc = rt.alloc();
    let mut desk = desk_of(&rt, alloc, MORNING_STATE);
    prints(&rt, alloc, &mut desk, "2024-06-10", ANSWER_0900);
    prints(&rt, alloc, &mut desk, "2024-06-18", ANSWER_18_JUNE);
    answers(&rt, alloc, &desk.show(&Query::Files), FILES);
    ends(&rt, alloc, desk, false, MORNING_STATE);
}

#[test]
fn a_desk_that_knows_nothing(rt: HostRuntime) {
    let alloc = rt.alloc();
    let mut desk = desk_of(&rt, alloc, EMPTY_STATE);
    prints(&rt, alloc, &mut desk, "2024-06-18", ANSWER_18_JUNE);
    answers(&rt, alloc, &desk.show(&Query::Files), DONE);
    ends(&rt, alloc, desk, false, EMPTY_STATE);
}

#[test]
fn days_and_the_horizon(rt: HostRuntime) {
    let alloc = rt.alloc();
    let mut desk = desk_of(&rt, alloc, MORNING_STATE);
    desk.set_horizon(day_of(&rt, "2024-06-15"));
    prints(&rt, alloc, &mut desk, "2024-06-17", DAY_REFUSED);
    prints(&rt, alloc, &mut desk, "2024-06-18", ANSWER_18_JUNE);
    desk.set_horizon(day_of(&rt, "2024-06-10"));
    prints(&rt, alloc, &mut desk, "2024-06-17", DAY_REFUSED);
    ends(&rt, alloc, desk, true, LAPSED_STATE);
}
