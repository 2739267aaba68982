//! The docker lines of one train.

use super::shows;
use test_records::dockers::{
    COMES_0930, COMES_AS_5E51, LEAVES_0900, LEAVES_AS_5E50, PASSES_AS_5E51,
};
use test_records::files::{IDENTITY, MORNING, NO_END};
use test_records::{BS, HD, LI_TIMELESS, LO, LT, ZZ};

/// A train runs on weekdays. On a Monday it has a line at each end of its journey, and no line at
/// another place. On a Saturday it has no line.
#[test]
fn one_schedule(rt: HostRuntime) {
    let alloc = rt.alloc();
    let files: &[&[&[u8]]] = &[MORNING];
    shows(&rt, alloc, files, "ASHFELD", "2024-06-10", &[LEAVES_0900]);
    shows(&rt, alloc, files, "BRAYTON", "2024-06-10", &[COMES_0930]);
    shows(&rt, alloc, files, "ASHFELD", "2024-06-15", &[]);
    shows(&rt, alloc, files, "BRAYTON", "2024-06-15", &[]);
    shows(&rt, alloc, files, "ELM", "2024-06-10", &[]);
}

/// A call without times has no docker line. The train's other calls have their docker lines.
#[test]
fn no_line_without_a_time(rt: HostRuntime) {
    let alloc = rt.alloc();
    let files: &[&[&[u8]]] = &[&[HD, BS, LO, LI_TIMELESS, LT, ZZ]];
    shows(&rt, alloc, files, "COLWELL", "2024-06-10", &[]);
    shows(&rt, alloc, files, "BRAYTON", "2024-06-10", &[COMES_0930]);
}

/// A train has another identity after a change en route.
#[test]
fn identity(rt: HostRuntime) {
    let alloc = rt.alloc();
    let files: &[&[&[u8]]] = &[IDENTITY];
    shows(
        &rt,
        alloc,
        files,
        "ASHFELD",
        "2024-06-10",
        &[LEAVES_AS_5E50],
    );
    shows(
        &rt,
        alloc,
        files,
        "COLWELL",
        "2024-06-10",
        &[PASSES_AS_5E51],
    );
    shows(&rt, alloc, files, "BRAYTON", "2024-06-10", &[COMES_AS_5E51]);
}

/// A schedule without an end date runs on the last day of the calendar, a Wednesday.
#[test]
fn without_end(rt: HostRuntime) {
    let alloc = rt.alloc();
    let files: &[&[&[u8]]] = &[NO_END];
    shows(&rt, alloc, files, "ASHFELD", "2059-12-31", &[LEAVES_0900]);
    shows(&rt, alloc, files, "ASHFELD", "2059-12-30", &[]);
}
