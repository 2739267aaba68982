//! One test of each subcommand: the bytes that it reads and the bytes that it writes.

use crate::commands::{LINE_END, writes};
use test_records::dockers::{AT_ASHFELD, END};
use test_records::ledgers::UPDATE_9A;
use test_records::states::{EMPTY_STATE, ITEM, MARK, MARK_15, NONE, OLD_MARK, ONE, Parts};
use test_records::{HD, ZZ};

/// An update of 9 June 2024, 21:00, without changes.
const FILE: Parts = &[HD, LINE_END, ZZ, LINE_END];

/// The docker of Ashfeld on 10 June, with no lines.
const DOCKER: Parts = &[AT_ASHFELD, LINE_END, END, LINE_END];

/// The state of an office that knows the update of 9 June.
const STATE: Parts = &[MARK, ONE, ITEM, NONE];

/// The state of an office that knows the update of 9 June, as a text in the older format.
const OLD: Parts = &[OLD_MARK, ONE, ITEM, NONE];

/// The state of an office that knows the update of 9 June, and the horizon of 15 June 2024.
const RAISED: Parts = &[MARK_15, ONE, ITEM, NONE];

#[test]
fn each_subcommand(rt: HostRuntime) {
    let alloc = rt.alloc();
    writes(&rt, alloc, &["new", "S"], &[], &[], EMPTY_STATE);
    let counts: Parts = &[b"accepted: 2 records, 0 changes\n"];
    writes(&rt, alloc, &["check", "F"], FILE, &[], counts);
    let words = ["day", "F", "ASHFELD", "2024-06-10"];
    writes(&rt, alloc, &words, FILE, &[], DOCKER);
    writes(&rt, alloc, &["take", "S", "F"], EMPTY_STATE, FILE, STATE);
    writes(
        &rt,
        alloc,
        &["merge", "S", "O"],
        EMPTY_STATE,
        RAISED,
        RAISED,
    );
    let words = ["print", "S", "ASHFELD", "2024-06-10"];
    writes(&rt, alloc, &words, STATE, &[], DOCKER);
    let files: Parts = &[UPDATE_9A, LINE_END];
    writes(&rt, alloc, &["files", "S"], STATE, &[], files);
    let words = ["horizon", "S", "2024-06-15"];
    writes(&rt, alloc, &words, STATE, &[], RAISED);
    writes(&rt, alloc, &["migrate", "S"], OLD, &[], STATE);
}
