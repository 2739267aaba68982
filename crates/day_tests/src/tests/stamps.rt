//! Which change counts if several files have changes to the same key.

use super::shows;
use std::alloc::Global;
use std::process::Abort;
use test_records::dockers::{LEAVES_0850, LEAVES_0900, LEAVES_0905, LEAVES_1000, LEAVES_1100};
use test_records::files::{EIGHTH, LATER, LONGER, MORNING, NINTH, REVISION, SEVENTH};
use test_records::{BS, BS_C10003_PLAIN, BS_DELETED_PLAIN, HD, HD_5A, HD_9B, LO, LT, ZZ};

/// Asserts that the docker of Ashfeld on 10 June has these lines.
fn at_ashfeld(rt: &impl Abort, alloc: Global, files: &[&[&[u8]]], lines: &[&[u8]]) {
    shows(rt, alloc, files, "ASHFELD", "2024-06-10", lines);
}

/// A later update revises a schedule of an earlier update.
#[test]
fn revision(rt: HostRuntime) {
    let first = MORNING;
    let second = REVISION;
    at_ashfeld(&rt, rt.alloc(), &[first, second], &[LEAVES_0905]);
}

/// Files older than the full extract don't count, whether they are joined before or after the full
/// extract.
#[test]
fn late_full_extract(rt: HostRuntime) {
    let first: &[&[u8]] = &[HD_5A, BS_C10003_PLAIN, BS, LO, LT, ZZ];
    let second = SEVENTH;
    let third = NINTH;
    at_ashfeld(
        &rt,
        rt.alloc(),
        &[first, second, third],
        &[LEAVES_1000, LEAVES_1100],
    );
}

/// If the newer of two files deletes a schedule of the older file, the deletion counts, whichever
/// file is joined first.
#[test]
fn deletion_first(rt: HostRuntime) {
    let alloc = rt.alloc();
    let files: &[&[&[u8]]] = &[&[HD_9B, BS_DELETED_PLAIN, ZZ], EIGHTH];
    shows(&rt, alloc, files, "ASHFELD", "2024-06-10", &[]);
    shows(&rt, alloc, files, "BRAYTON", "2024-06-10", &[]);
}

/// If two changes with equal stamps are puts of the same schedule, the change with the later end
/// date counts.
#[test]
fn later_end_of_equal_stamps(rt: HostRuntime) {
    let first = MORNING;
    let second = LONGER;
    at_ashfeld(&rt, rt.alloc(), &[first, second], &[LEAVES_0850]);
}

/// If two changes with equal stamps are puts of the same schedule with the same end date, the
/// change whose bytes are greater counts.
#[test]
fn greater_bytes_of_equal_stamps(rt: HostRuntime) {
    let first = MORNING;
    let second = LATER;
    at_ashfeld(&rt, rt.alloc(), &[first, second], &[LEAVES_0905]);
}

/// If one of two changes with equal stamps is a put of a schedule, and the other is a deletion of
/// this schedule, the schedule stays.
#[test]
fn put_before_deletion_of_equal_stamps(rt: HostRuntime) {
    let first = MORNING;
    let second: &[&[u8]] = &[HD, BS_DELETED_PLAIN, ZZ];
    at_ashfeld(&rt, rt.alloc(), &[first, second], &[LEAVES_0900]);
}
