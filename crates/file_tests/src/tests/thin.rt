//! Tests that check which changes of a file are kept for the docker of one place on one day, if the
//! docker needs them.

use super::compare::same_in;
use cif_file::{Act, Body};
use cif_line::{Bytes, Day, Tiploc};
use docker_excerpt::read_thin;
use std::alloc::Global;
use std::process::Abort;
use test_records::files::PUT_AND_DELETED;
use test_records::{
    AA_NO_END, BS, BS_DELETED, BS_NIGHT, BS_OVERLAY, BS_WEEKEND, HD, LI_0000, LI_0010, LO, LO_2355,
    LO_COLWELL_0010, LT, LT_0020, TI, ZZ, text,
};

/// A file with a timing point, a night train on 10 June, and a train on 15 and 16 June. The file
/// also deletes a schedule.
const MIXED: [&[u8]; 12] = [
    HD, TI, BS_NIGHT, LO_2355, LI_0000, LI_0010, LT_0020, BS_WEEKEND, LO, LT, BS_DELETED, ZZ,
];

/// A file with a train from Ashfeld to Brayton. On 11 June it runs from Colwell instead, and passes
/// Dunmere.
const DIVERTED: [&[u8]; 9] = [
    HD,
    BS,
    LO,
    LT,
    BS_OVERLAY,
    LO_COLWELL_0010,
    LI_0010,
    LT_0020,
    ZZ,
];

/// A file with two trains that don't call at Colwell. An association there says that the second
/// train joins the first.
const JOINED: [&[u8]; 10] = [
    HD, BS, LO, LT, BS_NIGHT, LO_2355, LI_0010, LT_0020, AA_NO_END, ZZ,
];

/// How many lines an act puts. A deletion puts none.
fn lines_of(act: &Act) -> usize {
    match act {
        Act::Delete => 0,
        Act::Put(Body::Schedule(lines)) => lines.as_slice().len(),
        Act::Put(_) => 1,
    }
}

/// Asserts which changes of a file are kept for this place and day, and needed by the docker.
/// `wanted` gives, for each of these changes, how many lines it puts.
fn keeps(
    rt: &impl Abort,
    alloc: Global,
    records: &[&[u8]],
    place: &str,
    date: &str,
    wanted: &[usize],
) {
    let whole = text(alloc, records, b"\n").expect(rt, "room");
    let point = Tiploc::from_text(place).expect(rt, "a TIPLOC");
    let day = Day::from_iso(date).expect(rt, "a day");
    let mut source = Bytes::new(whole.as_slice(), 100);
    let file = read_thin(alloc, &mut source, point, day, 100).expect(rt, "a file");
    let parts = file.into_needed(alloc).expect(rt, "room");
    let mut kept = Vec::new(alloc);
    for change in parts.changes.as_slice() {
        kept.push(lines_of(&change.act)).expect(rt, "room");
    }
    same_in(rt, place, kept.as_slice(), wanted);
}

#[test]
fn all_lines_where_a_train_calls(rt: HostRuntime) {
    keeps(&rt, rt.alloc(), &MIXED, "COLWELL", "2024-06-10", &[5]);
    keeps(&rt, rt.alloc(), &MIXED, "DUNMERE", "2024-06-10", &[5]);
    keeps(&rt, rt.alloc(), &MIXED, "ASHFELD", "2024-06-10", &[1, 5]);
}

#[test]
fn three_lines_elsewhere(rt: HostRuntime) {
    keeps(&rt, rt.alloc(), &DIVERTED, "ASHFELD", "2024-06-10", &[3, 3]);
    keeps(&rt, rt.alloc(), &DIVERTED, "COLWELL", "2024-06-11", &[4, 3]);
    keeps(&rt, rt.alloc(), &DIVERTED, "BRAYTON", "2024-06-11", &[3, 4]);
}

#[test]
fn three_lines_on_another_day(rt: HostRuntime) {
    keeps(&rt, rt.alloc(), &DIVERTED, "COLWELL", "2024-06-10", &[]);
    keeps(&rt, rt.alloc(), &DIVERTED, "BRAYTON", "2024-06-10", &[3, 3]);
    keeps(&rt, rt.alloc(), &DIVERTED, "COLWELL", "2024-06-12", &[]);
}

#[test]
fn a_night_train_on_the_days_after(rt: HostRuntime) {
    keeps(&rt, rt.alloc(), &MIXED, "DUNMERE", "2024-06-09", &[]);
    keeps(&rt, rt.alloc(), &MIXED, "DUNMERE", "2024-06-11", &[5]);
    keeps(&rt, rt.alloc(), &MIXED, "DUNMERE", "2024-06-12", &[5]);
    keeps(&rt, rt.alloc(), &MIXED, "DUNMERE", "2024-06-13", &[]);
}

#[test]
fn nothing_where_no_train_calls(rt: HostRuntime) {
    keeps(&rt, rt.alloc(), &MIXED, "EASTRIG", "2024-06-10", &[]);
    keeps(&rt, rt.alloc(), &DIVERTED, "NOWHERE", "2024-06-10", &[]);
    keeps(&rt, rt.alloc(), &DIVERTED, "ANOTHER", "2024-06-10", &[]);
}

#[test]
fn the_associated_train(rt: HostRuntime) {
    keeps(&rt, rt.alloc(), &JOINED, "COLWELL", "2024-06-10", &[1, 3]);
    keeps(&rt, rt.alloc(), &JOINED, "DUNMERE", "2024-06-10", &[4]);
}

#[test]
fn what_runs_near_the_day(rt: HostRuntime) {
    keeps(&rt, rt.alloc(), &MIXED, "ASHFELD", "2024-06-16", &[1, 3]);
    keeps(&rt, rt.alloc(), &MIXED, "EASTRIG", "2024-07-16", &[]);
}

#[test]
fn a_deletion_of_a_kept_key(rt: HostRuntime) {
    keeps(
        &rt,
        rt.alloc(),
        PUT_AND_DELETED,
        "ASHFELD",
        "2024-06-10",
        &[3, 0],
    );
    keeps(
        &rt,
        rt.alloc(),
        PUT_AND_DELETED,
        "ASHFELD",
        "2024-07-10",
        &[],
    );
}
