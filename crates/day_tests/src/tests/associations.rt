//! Docker lines of associations.

use super::shows;
use std::alloc::Global;
use std::process::Abort;
use test_records::dockers::{
    AGAIN_COMES, AGAIN_LEAVES, COMES_2350, DIVIDES, FIRST_COMES, FIRST_LEAVES, OTHER_LEAVES,
    WORKS_ON, WORKS_ON_UNKNOWN,
};
use test_records::files::{
    DAY_BEFORE, DIVISION_FILE, NEXT_DAY, NO_INDICATOR, SAME_DAY, UNKNOWN_CATEGORY,
    UNKNOWN_INDICATOR,
};
use test_records::{
    AA_LAST, AA_N, BS_C40001, BS_C40001_CANCELLED, BS_C40001_LAST, BS_C40002, BS_C40002_CANCELLED,
    HD, LO_2300, LO_COLWELL_0010, LT_ASHFELD_0100, LT_COLWELL_2350, ZZ,
};

/// Asserts that the docker of Colwell on 10 June has these lines, if only these files are known.
fn at_colwell(rt: &impl Abort, alloc: Global, files: &[&[&[u8]]], lines: &[&[u8]]) {
    shows(rt, alloc, files, "COLWELL", "2024-06-10", lines);
}

/// A train calls twice at one place, and another train divides from it at the second call.
#[test]
fn suffixes(rt: HostRuntime) {
    let lines: &[&[u8]] = &[
        FIRST_COMES,
        FIRST_LEAVES,
        AGAIN_COMES,
        DIVIDES,
        AGAIN_LEAVES,
        OTHER_LEAVES,
    ];
    at_colwell(&rt, rt.alloc(), &[DIVISION_FILE], lines);
}

/// An associated train that would start on the day after the last day of the calendar has the
/// identity `????`.
#[test]
fn last_day_of_the_calendar(rt: HostRuntime) {
    let file: &[&[u8]] = &[HD, BS_C40001_LAST, LO_2300, LT_COLWELL_2350, AA_LAST, ZZ];
    let lines: &[&[u8]] = &[COMES_2350, WORKS_ON_UNKNOWN];
    shows(&rt, rt.alloc(), &[file], "COLWELL", "2059-12-31", lines);
}

/// Asserts the docker lines at Colwell on 10 June. C40002, which starts a day later, is the next
/// working of C40001. The record `cancellation` cancels one of these two trains.
fn without(rt: &impl Abort, alloc: Global, cancellation: &[u8], lines: &[&[u8]]) {
    let file: &[&[u8]] = &[
        HD,
        BS_C40001,
        LO_2300,
        LT_COLWELL_2350,
        BS_C40002,
        LO_COLWELL_0010,
        LT_ASHFELD_0100,
        cancellation,
        AA_N,
        ZZ,
    ];
    at_colwell(rt, alloc, &[file], lines);
}

/// If the next working is cancelled, its train identity is `????`.
#[test]
fn cancelled_partner(rt: HostRuntime) {
    let lines: &[&[u8]] = &[COMES_2350, WORKS_ON_UNKNOWN];
    without(&rt, rt.alloc(), BS_C40002_CANCELLED, lines);
}

/// If the base train is cancelled, the association has no line.
#[test]
fn cancelled_base(rt: HostRuntime) {
    without(&rt, rt.alloc(), BS_C40001_CANCELLED, &[]);
}

/// Checks each date indicator, an unknown date indicator, and an unknown category. An association
/// with an unknown date indicator or an unknown category has no line.
#[test]
fn date_indicators(rt: HostRuntime) {
    let only: &[&[u8]] = &[COMES_2350];
    let known: &[&[u8]] = &[COMES_2350, WORKS_ON];
    let unknown: &[&[u8]] = &[COMES_2350, WORKS_ON_UNKNOWN];
    at_colwell(&rt, rt.alloc(), &[NEXT_DAY], known);
    at_colwell(&rt, rt.alloc(), &[SAME_DAY], unknown);
    at_colwell(&rt, rt.alloc(), &[NO_INDICATOR], unknown);
    at_colwell(&rt, rt.alloc(), &[DAY_BEFORE], unknown);
    at_colwell(&rt, rt.alloc(), &[UNKNOWN_INDICATOR], only);
    at_colwell(&rt, rt.alloc(), &[UNKNOWN_CATEGORY], only);
}
