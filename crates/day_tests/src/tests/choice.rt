//! Which schedule is chosen for a day.

use super::compare::same;
use super::{day, shows, state};
use cif_line::{Kind, Line, Stp, Uid, kind};
use docker_day::{chosen, runs};
use docker_state::State;
use std::process::Abort;
use test_records::dockers::{LEAVES_0900, LEAVES_0910, LEAVES_0915};
use test_records::files::{WEEK, WEEKEND};
use test_records::{BS, BS_CANCELLED, BS_WEEK, HD, LO, LT, ZZ};

/// A UID has a permanent schedule, an overlay and a cancellation. Checks which of them is chosen on
/// each day.
#[test]
fn choice(rt: HostRuntime) {
    let alloc = rt.alloc();
    let files: &[&[&[u8]]] = &[WEEK];
    shows(&rt, alloc, files, "ASHFELD", "2024-06-10", &[LEAVES_0900]);
    shows(&rt, alloc, files, "ASHFELD", "2024-06-11", &[LEAVES_0915]);
    shows(&rt, alloc, files, "ASHFELD", "2024-06-12", &[LEAVES_0900]);
    shows(&rt, alloc, files, "ASHFELD", "2024-06-13", &[LEAVES_0915]);
    shows(&rt, alloc, files, "ASHFELD", "2024-06-14", &[]);
    shows(&rt, alloc, files, "ASHFELD", "2024-06-15", &[LEAVES_0900]);
    shows(&rt, alloc, files, "ASHFELD", "2024-06-16", &[LEAVES_0900]);
}

/// Like `choice`, with a fourth schedule, which begins later than the permanent schedule.
#[test]
fn choice_with_a_later_schedule(rt: HostRuntime) {
    let alloc = rt.alloc();
    let files: &[&[&[u8]]] = &[WEEKEND];
    shows(&rt, alloc, files, "ASHFELD", "2024-06-10", &[LEAVES_0900]);
    shows(&rt, alloc, files, "ASHFELD", "2024-06-11", &[LEAVES_0915]);
    shows(&rt, alloc, files, "ASHFELD", "2024-06-12", &[LEAVES_0900]);
    shows(&rt, alloc, files, "ASHFELD", "2024-06-13", &[LEAVES_0915]);
    shows(&rt, alloc, files, "ASHFELD", "2024-06-14", &[]);
    shows(&rt, alloc, files, "ASHFELD", "2024-06-15", &[LEAVES_0910]);
    shows(&rt, alloc, files, "ASHFELD", "2024-06-16", &[LEAVES_0910]);
}

/// Asserts that the schedule chosen for C10001 on a day has this STP indicator.
fn chosen_is(rt: &impl Abort, state: &State, on: &str, wanted: Option<Stp>) {
    let uid = Uid::from_field(b"C10001").expect(rt, "a UID");
    let stp = match chosen(state, &uid, day(rt, on)) {
        Some(view) => Some(view.key().stp),
        None => None,
    };
    same(rt, stp, wanted);
}

/// The schedule that is chosen may be a cancellation.
#[test]
fn chosen_cancellation(rt: HostRuntime) {
    let state = state(&rt, rt.alloc(), &[HD, BS_WEEK, LO, LT, BS_CANCELLED, ZZ]);
    chosen_is(&rt, &state, "2024-06-14", Some(Stp::Cancellation));
    chosen_is(&rt, &state, "2024-06-13", Some(Stp::Permanent));
    chosen_is(&rt, &state, "2024-06-17", None);
}

/// Checks the days on which a basic schedule runs.
#[test]
fn days(rt: HostRuntime) {
    let line = Line::new(BS).expect(&rt, "a line");
    let monday = day(&rt, "2024-06-10");
    let saturday = day(&rt, "2024-06-15");
    match kind(&line) {
        Some(Kind::BasicSchedule) => {
            same(&rt, runs(&line, monday), true);
            same(&rt, runs(&line, saturday), false);
        }
        _ => panic!(rt; "a basic schedule"),
    }
}
