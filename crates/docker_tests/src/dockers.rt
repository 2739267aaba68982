//! Tests of the dockers that offices print.

use crate::offices::{office_of, prints, prints_of_file};
use std::alloc::Global;
use std::process::Abort;
use test_records::dockers::*;
use test_records::files::*;

/// A row: files, a place, a day, and the docker that an office prints after it has taken the files
/// in this order.
type Row = (&'static [File], &'static str, &'static str, Lines);

/// Asserts that an office prints the docker of this row.
fn is_printed(rt: &impl Abort, alloc: Global, row: &Row) {
    let (files, place, day, docker) = *row;
    let office = office_of(rt, alloc, files);
    prints(rt, alloc, &office, place, day, docker);
    if let [file] = files {
        prints_of_file(rt, alloc, file, place, day, docker);
    }
}

/// Asserts that offices print the dockers of these rows.
fn are_printed(rt: &impl Abort, alloc: Global, rows: &[Row]) {
    for row in rows {
        is_printed(rt, alloc, row);
    }
}

/// Rows with one train.
const ONE_TRAIN: &[Row] = &[
    (&[], "ELM", "2024-06-10", NONE_AT_ELM),
    (&[MORNING], "ASHFELD", "2024-06-10", ASHFELD_0900),
    (
        &[MORNING],
        "BRAYTON",
        "2024-06-10",
        &[AT_BRAYTON, COMES_0930, END],
    ),
    (&[MORNING], "ASHFELD", "2024-06-15", &[AT_ASHFELD_15, END]),
    (&[MORNING], "BRAYTON", "2024-06-15", &[AT_BRAYTON_15, END]),
    (&[REVISED], "ASHFELD", "2024-06-10", ASHFELD_0900),
    (&[EVENING], "BRAYTON", "2024-06-10", NONE_AT_BRAYTON),
    (
        &[EVENING],
        "BRAYTON",
        "2024-06-11",
        &[AT_BRAYTON_11, COMES_0005, END],
    ),
    (
        &[EVENING],
        "BRAYTON",
        "2024-06-12",
        &[AT_BRAYTON_12, COMES_0005, END],
    ),
    (
        &[EVENING],
        "BRAYTON",
        "2024-06-13",
        &[AT_BRAYTON_13, COMES_0005, END],
    ),
    (
        &[EVENING],
        "BRAYTON",
        "2024-06-14",
        &[AT_BRAYTON_14, COMES_0005, END],
    ),
    (
        &[EVENING],
        "BRAYTON",
        "2024-06-15",
        &[AT_BRAYTON_15, COMES_0005, END],
    ),
    (
        &[HALF],
        "ASHFELD",
        "2024-06-10",
        &[AT_ASHFELD, LEAVES_0900H, END],
    ),
    (
        &[ROUND],
        "ASHFELD",
        "2024-06-10",
        &[AT_ASHFELD, ROUND_COMES, ROUND_LEAVES, END],
    ),
];

#[test]
fn one_train(rt: HostRuntime) {
    are_printed(&rt, rt.alloc(), ONE_TRAIN);
}

/// Rows with a train that one file changes more than once.
const CHANGED: &[Row] = &[
    (&[PUT_AND_REVISED], "ASHFELD", "2024-06-10", NONE_AT_ASHFELD),
    (&[REVISED_AND_PUT], "ASHFELD", "2024-06-10", ASHFELD_0900),
    (&[PUT_AGAIN], "ASHFELD", "2024-06-10", ASHFELD_0905),
    (&[PUT_AND_DELETED], "ASHFELD", "2024-06-10", NONE_AT_ASHFELD),
];

#[test]
fn a_train_that_is_changed_again(rt: HostRuntime) {
    are_printed(&rt, rt.alloc(), CHANGED);
}

/// Rows with two files that are taken in either order.
const ORDERS: &[Row] = &[
    (&[MORNING, REVISION], "ASHFELD", "2024-06-10", ASHFELD_0905),
    (&[REVISION, MORNING], "ASHFELD", "2024-06-10", ASHFELD_0905),
    (
        &[NINTH, FIFTH, SEVENTH],
        "ASHFELD",
        "2024-06-10",
        TWO_TRAINS,
    ),
    (
        &[DELETION, EIGHTH],
        "ASHFELD",
        "2024-06-10",
        NONE_AT_ASHFELD,
    ),
    (
        &[EIGHTH, DELETION],
        "ASHFELD",
        "2024-06-10",
        NONE_AT_ASHFELD,
    ),
    (&[PLACE, RENAMED], "ASHFLDN", "2024-06-10", NONE_AT_ASHFLDN),
    (&[PLACE, RENAMED], "ASHFELD", "2024-06-10", NONE_AT_ASHFELD),
];

#[test]
fn files_in_any_order(rt: HostRuntime) {
    are_printed(&rt, rt.alloc(), ORDERS);
}

/// Rows with a train that has an overlay, a cancellation and a later schedule.
const WEEKS: &[Row] = &[
    (&[WEEK], "ASHFELD", "2024-06-10", ASHFELD_0900),
    (
        &[WEEK],
        "ASHFELD",
        "2024-06-11",
        &[AT_ASHFELD_11, LEAVES_0915, END],
    ),
    (
        &[WEEK],
        "ASHFELD",
        "2024-06-12",
        &[AT_ASHFELD_12, LEAVES_0900, END],
    ),
    (
        &[WEEK],
        "ASHFELD",
        "2024-06-13",
        &[AT_ASHFELD_13, LEAVES_0915, END],
    ),
    (&[WEEK], "ASHFELD", "2024-06-14", &[AT_ASHFELD_14, END]),
    (
        &[WEEK],
        "ASHFELD",
        "2024-06-15",
        &[AT_ASHFELD_15, LEAVES_0900, END],
    ),
    (
        &[WEEK],
        "ASHFELD",
        "2024-06-16",
        &[AT_ASHFELD_16, LEAVES_0900, END],
    ),
    (
        &[WEEKEND],
        "ASHFELD",
        "2024-06-15",
        &[AT_ASHFELD_15, LEAVES_0910, END],
    ),
    (
        &[WEEKEND],
        "ASHFELD",
        "2024-06-16",
        &[AT_ASHFELD_16, LEAVES_0910, END],
    ),
];

#[test]
fn a_week(rt: HostRuntime) {
    are_printed(&rt, rt.alloc(), WEEKS);
}

/// Rows with trains that run past midnight.
const NIGHTS: &[Row] = &[
    (&[NIGHT], "COLWELL", "2024-06-10", NONE_AT_COLWELL),
    (
        &[NIGHT],
        "COLWELL",
        "2024-06-11",
        &[AT_COLWELL_11, NIGHT_COMES, NIGHT_LEAVES, END],
    ),
    (
        &[NIGHT],
        "DUNMERE",
        "2024-06-11",
        &[AT_DUNMERE_11, NIGHT_PASSES, END],
    ),
    (
        &[TWO_NIGHTS],
        "COLWELL",
        "2024-06-12",
        &[AT_COLWELL_12, SECOND_NIGHT_PASSES, END],
    ),
    (
        &[TWO_NIGHTS],
        "BRAYTON",
        "2024-06-12",
        &[AT_BRAYTON_12, SECOND_NIGHT_COMES_PUBLIC, END],
    ),
];

#[test]
fn past_midnight(rt: HostRuntime) {
    are_printed(&rt, rt.alloc(), NIGHTS);
}

/// Rows with days far in the past or in the future, and rows with places that have a description.
const OTHERS: &[Row] = &[
    (
        &[NO_END],
        "ASHFELD",
        "2059-12-31",
        &[AT_ASHFELD_LAST, LEAVES_0900, END],
    ),
    (
        &[NO_END],
        "ASHFELD",
        "2059-12-30",
        &[AT_ASHFELD_LAST_BUT_ONE, END],
    ),
    (
        &[AMENDED],
        "ASHFELD",
        "2024-06-10",
        &[AT_ASHFIELD_CENTRAL, END],
    ),
    (
        &[DELETION, EIGHTH],
        "BRAYTON",
        "2024-06-10",
        NONE_AT_BRAYTON,
    ),
];

#[test]
fn days_far_off_and_descriptions(rt: HostRuntime) {
    are_printed(&rt, rt.alloc(), OTHERS);
}

/// Rows with associations. All trains run, and each category and date indicator is valid.
const LINKS: &[Row] = &[
    (&[DIVISION_FILE], "COLWELL", "2024-06-10", DIVISION),
    (&[NEXT_DAY], "COLWELL", "2024-06-10", COLWELL_WORKS_ON),
    (&[SAME_DAY], "COLWELL", "2024-06-10", COLWELL_UNKNOWN),
    (&[NO_INDICATOR], "COLWELL", "2024-06-10", COLWELL_UNKNOWN),
    (&[DAY_BEFORE], "COLWELL", "2024-06-10", COLWELL_UNKNOWN),
];

/// Rows with associations that have an unknown category or date indicator, or whose trains don't
/// run.
const DOUBTFUL_LINKS: &[Row] = &[
    (&[UNKNOWN_INDICATOR], "COLWELL", "2024-06-10", COLWELL_ONLY),
    (&[UNKNOWN_CATEGORY], "COLWELL", "2024-06-10", COLWELL_ONLY),
    (
        &[LAST_DAY],
        "COLWELL",
        "2059-12-31",
        &[AT_COLWELL_LAST, COMES_2350, WORKS_ON_UNKNOWN, END],
    ),
    (
        &[PARTNER_CANCELLED],
        "COLWELL",
        "2024-06-10",
        COLWELL_UNKNOWN,
    ),
    (&[BASE_CANCELLED], "COLWELL", "2024-06-10", NONE_AT_COLWELL),
];

#[test]
fn associations(rt: HostRuntime) {
    are_printed(&rt, rt.alloc(), LINKS);
    are_printed(&rt, rt.alloc(), DOUBTFUL_LINKS);
}

/// Rows with entries that have equal stamps.
const TIES: &[Row] = &[
    (&[MORNING, LONGER], "ASHFELD", "2024-06-10", ASHFELD_0850),
    (&[LONGER, MORNING], "ASHFELD", "2024-06-10", ASHFELD_0850),
    (&[MORNING, LATER], "ASHFELD", "2024-06-10", ASHFELD_0905),
    (&[LATER, MORNING], "ASHFELD", "2024-06-10", ASHFELD_0905),
    (&[MORNING, DELETED], "ASHFELD", "2024-06-10", ASHFELD_0900),
    (&[DELETED, MORNING], "ASHFELD", "2024-06-10", ASHFELD_0900),
];

#[test]
fn equal_stamps(rt: HostRuntime) {
    are_printed(&rt, rt.alloc(), TIES);
}

/// Rows with a train whose identity changes on the way.
const IDENTITIES: &[Row] = &[
    (
        &[IDENTITY],
        "ASHFELD",
        "2024-06-10",
        &[AT_ASHFELD, LEAVES_AS_5E50, END],
    ),
    (
        &[IDENTITY],
        "COLWELL",
        "2024-06-10",
        &[AT_COLWELL, PASSES_AS_5E51, END],
    ),
    (
        &[IDENTITY],
        "BRAYTON",
        "2024-06-10",
        &[AT_BRAYTON, COMES_AS_5E51, END],
    ),
];

#[test]
fn a_change_of_identity(rt: HostRuntime) {
    are_printed(&rt, rt.alloc(), IDENTITIES);
}
