//! Which of two files the chosen schedule comes from.

use super::{joined, says};
use std::alloc::Global;
use std::process::Abort;
use test_records::files::WEEK;
use test_records::trains::{END, NONE_ON_15_JUNE};
use test_records::{
    BS_CANCELLED_DELETED, BS_DELETED_PLAIN, BS_OVERLAY, BS_REVISED_SHORTER, BS_SHORTER, BS_WEEK,
    HD_10B_0605, LO, LO_0915, LO_0920, LT, ZZ,
};

/// A file that is newer than `WEEK` and deletes the permanent schedule.
const DELETES: &[&[u8]] = &[HD_10B_0605, BS_DELETED_PLAIN, ZZ];

/// A file that is newer than `WEEK` and deletes the cancellation.
const RESTORES: &[&[u8]] = &[HD_10B_0605, BS_CANCELLED_DELETED, ZZ];

/// A file that is newer than `WEEK` and revises the permanent schedule.
const REVISES: &[&[u8]] = &[HD_10B_0605, BS_REVISED_SHORTER, LO_0920, LT, ZZ];

/// The heading for 11 June. On this day C10001 runs according to the overlay, record 5 of the file
/// `WEEK`.
const OVERLAY: &[u8] =
    b"TRAIN  C10001  2024-06-11 O RUNS      2024-06-09 2100 DFROC1A          5        ";

/// The heading for 14 June. On this day C10001 runs according to the permanent schedule, record 2
/// of the first file.
const RESTORED: &[u8] =
    b"TRAIN  C10001  2024-06-14 P RUNS      2024-06-09 2100 DFROC1A          2        ";

/// The heading for 12 June. On this day C10001 runs according to the revision, record 2 of the file
/// `REVISES`.
const REVISED: &[u8] =
    b"TRAIN  C10001  2024-06-12 P RUNS      2024-06-10 0605 DFROC1B          2        ";

/// The heading for 12 June, on which no schedule of C10001 runs.
const NONE: &[u8] =
    b"TRAIN  C10001  2024-06-12   NONE                                                ";

/// Asserts that the text for C10001 on this day has these lines, after these files are joined in
/// this order.
fn files_say(rt: &impl Abort, alloc: Global, files: &[&[&[u8]]], on: &str, wanted: &[&[u8]]) {
    let state = joined(rt, alloc, files);
    says(rt, alloc, &state, "C10001", on, wanted);
}

/// A second file deletes the permanent schedule of the first file. The overlay of the first file is
/// still chosen.
#[test]
fn deleted(rt: HostRuntime) {
    let overlay: &[&[u8]] = &[OVERLAY, BS_OVERLAY, LO_0915, LT, END];
    let files: &[&[&[u8]]] = &[WEEK, DELETES];
    files_say(&rt, rt.alloc(), files, "2024-06-12", &[NONE, END]);
    files_say(&rt, rt.alloc(), files, "2024-06-11", overlay);
    files_say(
        &rt,
        rt.alloc(),
        &[DELETES, WEEK],
        "2024-06-12",
        &[NONE, END],
    );
}

/// A second file deletes the cancellation of the first file. The train runs again, according to the
/// permanent schedule of the first file.
#[test]
fn restored(rt: HostRuntime) {
    let restored: &[&[u8]] = &[RESTORED, BS_WEEK, LO, LT, END];
    files_say(&rt, rt.alloc(), &[WEEK, RESTORES], "2024-06-14", restored);
    files_say(&rt, rt.alloc(), &[RESTORES, WEEK], "2024-06-14", restored);
}

/// A second file revises the permanent schedule of the first file. The revision is stored with the
/// transaction `N`, and its last day is 13 June.
#[test]
fn revised(rt: HostRuntime) {
    let revised: &[&[u8]] = &[REVISED, BS_SHORTER, LO_0920, LT, END];
    let files: &[&[&[u8]]] = &[WEEK, REVISES];
    files_say(&rt, rt.alloc(), files, "2024-06-12", revised);
    files_say(
        &rt,
        rt.alloc(),
        files,
        "2024-06-15",
        &[NONE_ON_15_JUNE, END],
    );
    files_say(&rt, rt.alloc(), &[REVISES, WEEK], "2024-06-12", revised);
}
