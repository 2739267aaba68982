//! Tests of offices with a horizon.

use crate::compare::same_in;
use crate::offices::{day_of, has, has_text, office_of, prints, refuses_day, sent, take};
use docker_office::Office;
use std::alloc::Global;
use std::process::Abort;
use test_records::dockers::{AT_ASHFELD_17, END, Lines, NONE_ON_18_JUNE, NONE_ON_24_JUNE};
use test_records::files::{JULY, MORNING, REVISION};
use test_records::states::LAPSED_STATE;

/// Sets a horizon.
fn set(rt: &impl Abort, office: &mut Office, date: &str) {
    office.set_horizon(day_of(rt, date));
}

/// A row: a horizon to set, the size of the state's text after the horizon is set, a day that is
/// refused, and the day after it. The last column is the docker of the later day, which has no
/// lines.
type Row = (&'static str, usize, &'static str, &'static str, Lines);

const ROWS: &[Row] = &[
    (
        "2024-06-14",
        311,
        "2024-06-16",
        "2024-06-17",
        &[AT_ASHFELD_17, END],
    ),
    (
        "2024-06-15",
        67,
        "2024-06-17",
        "2024-06-18",
        NONE_ON_18_JUNE,
    ),
    (
        "2024-06-10",
        67,
        "2024-06-17",
        "2024-06-18",
        NONE_ON_18_JUNE,
    ),
];

/// Sets the row's horizon. Asserts the size of the state's text, and the docker of the row's second
/// day. Also asserts that the row's first day is refused.
fn is_after(rt: &impl Abort, alloc: Global, office: &mut Office, row: &Row) {
    let (horizon, bytes, refused, printed, docker) = *row;
    set(rt, office, horizon);
    let text = sent(rt, alloc, office);
    same_in(rt, horizon, text.bytes().len(), bytes);
    refuses_day(rt, alloc, office, refused);
    prints(rt, alloc, office, "ASHFELD", printed, docker);
}

#[test]
fn a_horizon_that_rises(rt: HostRuntime) {
    let mut office = office_of(&rt, rt.alloc(), &[MORNING]);
    for row in ROWS {
        is_after(&rt, rt.alloc(), &mut office, row);
    }
}

#[test]
fn a_lapsed_state(rt: HostRuntime) {
    let mut office = office_of(&rt, rt.alloc(), &[MORNING]);
    set(&rt, &mut office, "2024-06-15");
    has(&rt, rt.alloc(), &office, LAPSED_STATE);
}

/// Asserts that an office prints a docker without lines for Ashfeld on 24 June.
fn prints_none(rt: &impl Abort, alloc: Global, office: &Office) {
    prints(rt, alloc, office, "ASHFELD", "2024-06-24", NONE_ON_24_JUNE);
}

#[test]
fn a_file_after_a_horizon(rt: HostRuntime) {
    let alloc = rt.alloc();
    let mut office = office_of(&rt, alloc, &[REVISION]);
    set(&rt, &mut office, "2024-06-15");
    take(&rt, alloc, &mut office, JULY);
    prints_none(&rt, alloc, &office);
    let mut other = office_of(&rt, alloc, &[JULY, REVISION]);
    prints_none(&rt, alloc, &other);
    set(&rt, &mut other, "2024-06-15");
    let text = sent(&rt, alloc, &other);
    has_text(&rt, alloc, &office, text.bytes());
}
