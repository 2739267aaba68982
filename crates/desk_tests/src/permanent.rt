//! Tests of dockers without the short-term plan.

use crate::answers::answers;
use crate::desks::{day_of, desk_of, docker_on, prints};
use crate::expected::{ANSWER_18_JUNE, ANSWER_0900, ANSWER_OVERLAID, DAY_REFUSED};
use crate::records::OVERLAID_STATE;
use docker_desk::{Desk, DockerKind};
use std::alloc::Global;
use std::process::Abort;

/// Asserts the answer of a desk to `permanent` for Ashfeld on this day.
fn keeps(rt: &impl Abort, alloc: Global, desk: &mut Desk, date: &str, lines: &[&[u8]]) {
    let docker = docker_on(rt, DockerKind::Permanent, date);
    answers(rt, alloc, &desk.show(&docker), lines);
}

/// The docker shows the overlay, and the permanent docker shows the schedule that the overlay
/// replaces. Both dockers are refused for the same days.
#[test]
fn answers_without_the_short_term_plan(rt: HostRuntime) {
    let alloc = rt.alloc();
    let mut desk = desk_of(&rt, alloc, OVERLAID_STATE);
    prints(&rt, alloc, &mut desk, "2024-06-10", ANSWER_OVERLAID);
    keeps(&rt, alloc, &mut desk, "2024-06-10", ANSWER_0900);
    keeps(&rt, alloc, &mut desk, "2024-06-18", ANSWER_18_JUNE);
    desk.set_horizon(day_of(&rt, "2024-06-15"));
    keeps(&rt, alloc, &mut desk, "2024-06-17", DAY_REFUSED);
    keeps(&rt, alloc, &mut desk, "2024-06-18", ANSWER_18_JUNE);
}
