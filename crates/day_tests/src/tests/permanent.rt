//! Permanent dockers, compared with the dockers of the same files.

use super::compare::same;
use super::{day, joined, joined_back, place, shows, state, written};
use cif_line::Kept;
use docker_day::{DockerFault, permanent_docker};
use docker_state::State;
use std::alloc::Global;
use std::process::Abort;
use test_records::dockers::{
    AGAIN_COMES, AGAIN_LEAVES, AT_ASHFIELD_CENTRAL, COMES_2350, DIVIDES, END, FIRST_COMES,
    FIRST_LEAVES, LEAVES_0900, LEAVES_0910, LEAVES_0915, LEAVES_AS_NEW, LEAVES_ELSEWHERE,
    NIGHT_COMES, NIGHT_LEAVES, OTHER_LEAVES, WORKS_ON, WORKS_ON_AS_NEW, WORKS_ON_UNKNOWN,
};
use test_records::files::{DIVISION_CANCELLED, EACH_DAY, WEEK};
use test_records::{
    AA_N, BS, BS_C40001, BS_C40002, BS_C40002_CANCELLED, BS_NEW, BS_NIGHT, BS_OVERLAY, BS_WEEK,
    BS_WEEKEND, HD, LI_0000, LO, LO_0910, LO_2300, LO_2355, LO_COLWELL_0010, LO_COLWELL_1045, LT,
    LT_0020, LT_ASHFELD_0100, LT_COLWELL_2350, LT_DUNMERE_1100, TI, ZZ, text,
};

/// The cancellation of C20001 on 10 June.
const BS_NIGHT_CANCELLED: &[u8] =
    b"BSNC200012406102406101000000 POO2B20                                           C";

/// The association by which C40001 becomes C40002 on the next day. It has the STP indicator `N`.
const AA_NEW: &[u8] =
    b"AANC40001C400022406102406101000000NPNCOLWELL  TP                               N";

/// The text of the permanent docker for a place and a day.
fn printed(rt: &impl Abort, alloc: Global, state: &State, at: &str, on: &str) -> Kept {
    let docker = permanent_docker(alloc, state, &place(rt, at), day(rt, on)).expect(rt, "a docker");
    written(alloc, &docker).expect(rt, "a text")
}

/// Asserts that the permanent docker of a state has exactly these lines between its heading and its
/// last line.
fn lines_are(rt: &impl Abort, alloc: Global, state: &State, at: &str, on: &str, wanted: &[&[u8]]) {
    let kept = printed(rt, alloc, state, at, on);
    let bytes = kept.bytes();
    let lines = bytes
        .get(57..bytes.len().saturating_sub(57))
        .expect(rt, "a heading and a last line");
    let wanted = text(alloc, wanted, b"\n").expect(rt, "a text");
    same(rt, lines, wanted.as_slice());
}

/// Asserts that the permanent docker of these files, joined in either order, has exactly these
/// lines.
fn keeps(rt: &impl Abort, alloc: Global, files: &[&[&[u8]]], at: &str, on: &str, wanted: &[&[u8]]) {
    lines_are(rt, alloc, &joined(rt, alloc, files), at, on, wanted);
    lines_are(rt, alloc, &joined_back(rt, alloc, files), at, on, wanted);
}

/// A permanent schedule is on the permanent docker of each day on which it runs, even if it is
/// overlaid or cancelled on that day.
#[test]
fn overlaid_and_cancelled(rt: HostRuntime) {
    let alloc = rt.alloc();
    let files: &[&[&[u8]]] = &[WEEK];
    shows(&rt, alloc, files, "ASHFELD", "2024-06-13", &[LEAVES_0915]);
    keeps(&rt, alloc, files, "ASHFELD", "2024-06-13", &[LEAVES_0900]);
    shows(&rt, alloc, files, "ASHFELD", "2024-06-14", &[]);
    keeps(&rt, alloc, files, "ASHFELD", "2024-06-14", &[LEAVES_0900]);
    keeps(&rt, alloc, files, "ASHFELD", "2024-06-10", &[LEAVES_0900]);
    keeps(&rt, alloc, files, "ASHFELD", "2024-06-17", &[]);
}

/// A new short-term train isn't on the permanent docker, whether its UID also has a permanent
/// schedule or not.
#[test]
fn new_trains_left_out(rt: HostRuntime) {
    let alloc = rt.alloc();
    let alone: &[&[&[u8]]] = &[&[HD, BS_NEW, LO, LT, ZZ]];
    shows(&rt, alloc, alone, "ASHFELD", "2024-06-13", &[LEAVES_AS_NEW]);
    keeps(&rt, alloc, alone, "ASHFELD", "2024-06-13", &[]);
    let beside: &[&[&[u8]]] = &[&[HD, BS_WEEK, LO_0910, LT, BS_NEW, LO, LT, ZZ]];
    shows(
        &rt,
        alloc,
        beside,
        "ASHFELD",
        "2024-06-15",
        &[LEAVES_AS_NEW],
    );
    keeps(&rt, alloc, beside, "ASHFELD", "2024-06-15", &[LEAVES_0910]);
}

/// If an overlay moves a train to other places, its permanent schedule is still on the permanent
/// docker.
#[test]
fn train_moved_away(rt: HostRuntime) {
    let alloc = rt.alloc();
    let files: &[&[&[u8]]] = &[&[
        HD,
        BS_WEEK,
        LO,
        LT,
        BS_OVERLAY,
        LO_COLWELL_1045,
        LT_DUNMERE_1100,
        ZZ,
    ]];
    let moved: &[&[u8]] = &[LEAVES_ELSEWHERE];
    shows(&rt, alloc, files, "ASHFELD", "2024-06-11", &[]);
    shows(&rt, alloc, files, "COLWELL", "2024-06-11", moved);
    keeps(&rt, alloc, files, "ASHFELD", "2024-06-11", &[LEAVES_0900]);
    keeps(&rt, alloc, files, "COLWELL", "2024-06-11", &[]);
}

/// Of two permanent schedules that both run on a day, the schedule that begins later is chosen.
#[test]
fn two_permanent_schedules(rt: HostRuntime) {
    let alloc = rt.alloc();
    let files: &[&[&[u8]]] = &[&[HD, BS_WEEK, LO, LT, BS_WEEKEND, LO_0910, LT, ZZ]];
    keeps(&rt, alloc, files, "ASHFELD", "2024-06-14", &[LEAVES_0900]);
    keeps(&rt, alloc, files, "ASHFELD", "2024-06-15", &[LEAVES_0910]);
    shows(&rt, alloc, files, "ASHFELD", "2024-06-15", &[LEAVES_0910]);
}

/// A cancelled train that passes midnight is on the permanent docker of the day after its start
/// day.
#[test]
fn cancelled_night_train(rt: HostRuntime) {
    let alloc = rt.alloc();
    let files: &[&[&[u8]]] = &[&[
        HD,
        BS_NIGHT,
        LO_2355,
        LI_0000,
        LT_0020,
        BS_NIGHT_CANCELLED,
        ZZ,
    ]];
    let called: &[&[u8]] = &[NIGHT_COMES, NIGHT_LEAVES];
    shows(&rt, alloc, files, "COLWELL", "2024-06-11", &[]);
    keeps(&rt, alloc, files, "COLWELL", "2024-06-11", called);
    keeps(&rt, alloc, files, "COLWELL", "2024-06-10", &[]);
}

/// On the permanent docker, a permanent association has its line even on a day on which it is
/// cancelled.
#[test]
fn cancelled_association(rt: HostRuntime) {
    let alloc = rt.alloc();
    let files: &[&[&[u8]]] = &[DIVISION_CANCELLED];
    let today: &[&[u8]] = &[
        FIRST_COMES,
        FIRST_LEAVES,
        AGAIN_COMES,
        AGAIN_LEAVES,
        OTHER_LEAVES,
    ];
    let otherwise: &[&[u8]] = &[
        FIRST_COMES,
        FIRST_LEAVES,
        AGAIN_COMES,
        DIVIDES,
        AGAIN_LEAVES,
        OTHER_LEAVES,
    ];
    shows(&rt, alloc, files, "COLWELL", "2024-06-10", today);
    keeps(&rt, alloc, files, "COLWELL", "2024-06-10", otherwise);
}

/// Asserts the lines at Colwell on 10 June, on the docker and on the permanent docker. The docker
/// has the arrival of C40001 and the line `now`, and the permanent docker has the lines `wanted`.
/// The file has C40001, this association, C40002 on 11 June, and the cancellation of C40002.
fn works_on(rt: &impl Abort, alloc: Global, association: &[u8], now: &[u8], wanted: &[&[u8]]) {
    let file: &[&[u8]] = &[
        HD,
        BS_C40001,
        LO_2300,
        LT_COLWELL_2350,
        BS_C40002,
        LO_COLWELL_0010,
        LT_ASHFELD_0100,
        BS_C40002_CANCELLED,
        association,
        ZZ,
    ];
    shows(
        rt,
        alloc,
        &[file],
        "COLWELL",
        "2024-06-10",
        &[COMES_2350, now],
    );
    keeps(rt, alloc, &[file], "COLWELL", "2024-06-10", wanted);
}

/// On the permanent docker, the line of an association shows the identity of the associated train,
/// even if that train is cancelled. A short-term association has no line.
#[test]
fn identity_of_a_cancelled_partner(rt: HostRuntime) {
    let unknown = WORKS_ON_UNKNOWN;
    works_on(&rt, rt.alloc(), AA_N, unknown, &[COMES_2350, WORKS_ON]);
    works_on(&rt, rt.alloc(), AA_NEW, WORKS_ON_AS_NEW, &[COMES_2350]);
}

/// The heading of a permanent docker has the description of the timing point.
#[test]
fn permanent_heading(rt: HostRuntime) {
    let alloc = rt.alloc();
    let state = state(&rt, alloc, &[HD, TI, BS, LO, LT, ZZ]);
    let kept = printed(&rt, alloc, &state, "ASHFELD", "2024-06-10");
    let lines: &[&[u8]] = &[AT_ASHFIELD_CENTRAL, LEAVES_0900, END];
    let wanted = text(alloc, lines, b"\n").expect(&rt, "a text");
    same(&rt, kept.bytes(), wanted.as_slice());
}

/// A permanent docker is refused if its day is earlier than three days after the horizon.
#[test]
fn permanent_dockers_refused(rt: HostRuntime) {
    let alloc = rt.alloc();
    let mut state = state(&rt, alloc, EACH_DAY);
    state.set_horizon(day(&rt, "2024-06-12"));
    let at = place(&rt, "ASHFELD");
    let refused = permanent_docker(alloc, &state, &at, day(&rt, "2024-06-14")).err();
    same(&rt, refused, Some(DockerFault::Lapsed));
    lines_are(&rt, alloc, &state, "ASHFELD", "2024-06-15", &[LEAVES_0900]);
}
