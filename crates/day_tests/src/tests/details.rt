//! Detailed dockers: each line with the records that it was made from.

use super::compare::same;
use super::{day, place, state};
use cif_line::Kept;
use docker_detail::{
    DetailedDocker, DockerFault, detailed_docker, permanent_detailed_docker, write_detailed,
};
use docker_state::State;
use std::alloc::Global;
use std::process::Abort;
use test_records::dockers::{
    AGAIN_COMES, AGAIN_LEAVES, COMES_AS_5E51, DIVIDES, FIRST_COMES, FIRST_LEAVES, OTHER_LEAVES,
    PASSES_AS_5E51,
};
use test_records::files::{DIVISION_CANCELLED, DIVISION_FILE};
use test_records::{
    AA_DIVIDE, BS_C30001, BS_C30002, CR_5E51, HD, LI_1010, LI_1040, LO_COLWELL_1045, ZZ,
};

/// A schedule of C50001 on 10 June.
const BS_C50001: &[u8] =
    b"BSNC500012406102406101000000 POO5E50                                           P";

/// C50001's origin.
const LO_1200: &[u8] =
    b"LOASHFELD 1200                                                                  ";

/// C50001 passes Colwell.
const LI_COLWELL_1210: &[u8] =
    b"LICOLWELL           1210                                                        ";

/// C50001's terminus.
const LT_1230: &[u8] =
    b"LTBRAYTON 1230                                                                  ";

/// Extra details of C50001's schedule.
const BX: &[u8] =
    b"BX         VTY                                                                  ";

/// The columns of a record that there isn't.
const NONE: &[u8] =
    b"                                                                                ";

/// The columns of the day on which each of these trains starts.
const START: &[u8] = b"2024-06-10";

/// The heading of a docker of Colwell, before its padding.
const HEADING_AT_COLWELL: &[&[u8]] = &[b"DOCKER COLWELL 2024-06-10                               "];

/// The heading of a docker of Brayton, before its padding.
const HEADING_AT_BRAYTON: &[&[u8]] = &[b"DOCKER BRAYTON 2024-06-10                               "];

/// The last line of a docker, before its padding.
const LAST_LINE: &[&[u8]] = &[b"END                                                     "];

/// The text of these lines. The fields of a line have a space between them, and a line without
/// fields after its first is padded with 427 spaces.
fn spelled(rt: &impl Abort, alloc: Global, lines: &[&[&[u8]]]) -> Vec<u8> {
    let mut text = Vec::new(alloc);
    for fields in lines {
        let (first, rest) = fields.split_first().expect(rt, "a field");
        text.extend_from_slice(first).expect(rt, "room");
        for field in rest {
            text.extend_from_slice(b" ").expect(rt, "room");
            text.extend_from_slice(field).expect(rt, "room");
        }
        if rest.is_empty() {
            text.extend_from_slice(&[b' '; 427]).expect(rt, "room");
        }
        text.extend_from_slice(b"\n").expect(rt, "room");
    }
    text
}

/// A sink with the text of a detailed docker.
fn written(rt: &impl Abort, alloc: Global, docker: &DetailedDocker<'_>) -> Kept {
    let mut kept = Kept::new(alloc, 10_000).expect(rt, "room");
    write_detailed(docker, &mut kept).expect(rt, "a text");
    kept
}

/// Asserts that the detailed docker of a state for a place on 10 June has exactly these lines.
fn shows(rt: &impl Abort, alloc: Global, state: &State, at: &str, lines: &[&[&[u8]]]) {
    let docker = detailed_docker(alloc, state, &place(rt, at), day(rt, "2024-06-10"));
    let kept = written(rt, alloc, &docker.expect(rt, "a docker"));
    same(rt, kept.bytes(), spelled(rt, alloc, lines).as_slice());
}

/// A line has the schedule's extra details, and the change en route that is in force.
#[test]
fn extra_details_and_changes(rt: HostRuntime) {
    let file: &[&[u8]] = &[
        HD,
        BS_C50001,
        BX,
        LO_1200,
        CR_5E51,
        LI_COLWELL_1210,
        LT_1230,
        ZZ,
    ];
    let state = state(&rt, rt.alloc(), file);
    let passes: &[&[u8]] = &[
        PASSES_AS_5E51,
        START,
        b"         2",
        BS_C50001,
        BX,
        CR_5E51,
        LI_COLWELL_1210,
        NONE,
    ];
    shows(
        &rt,
        rt.alloc(),
        &state,
        "COLWELL",
        &[HEADING_AT_COLWELL, passes, LAST_LINE],
    );
    let comes: &[&[u8]] = &[
        COMES_AS_5E51,
        START,
        b"         3",
        BS_C50001,
        BX,
        CR_5E51,
        LT_1230,
        NONE,
    ];
    shows(
        &rt,
        rt.alloc(),
        &state,
        "BRAYTON",
        &[HEADING_AT_BRAYTON, comes, LAST_LINE],
    );
}

/// The line of a train that calls at Colwell for the first time.
fn first<'a>(line: &'a [u8], number: &'a [u8]) -> [&'a [u8]; 8] {
    [line, START, number, BS_C30001, NONE, NONE, LI_1010, NONE]
}

/// The line of a train that calls at Colwell a second time, with the record of an association.
fn again<'a>(line: &'a [u8], number: &'a [u8], association: &'a [u8]) -> [&'a [u8]; 8] {
    [
        line,
        START,
        number,
        BS_C30001,
        NONE,
        NONE,
        LI_1040,
        association,
    ]
}

/// The line of an association has its record, and the records of the base train. An event's line
/// doesn't have it, even if both lines are of the same event.
#[test]
fn associations_with_their_records(rt: HostRuntime) {
    let state = state(&rt, rt.alloc(), DIVISION_FILE);
    let other: &[&[u8]] = &[
        OTHER_LEAVES,
        START,
        b"         1",
        BS_C30002,
        NONE,
        NONE,
        LO_COLWELL_1045,
        NONE,
    ];
    let first_comes = first(FIRST_COMES, b"         2");
    let first_leaves = first(FIRST_LEAVES, b"         3");
    let again_comes = again(AGAIN_COMES, b"         4", NONE);
    let divides = again(DIVIDES, b"         4", AA_DIVIDE);
    let again_leaves = again(AGAIN_LEAVES, b"         5", NONE);
    let lines: &[&[&[u8]]] = &[
        HEADING_AT_COLWELL,
        &first_comes,
        &first_leaves,
        &again_comes,
        &divides,
        &again_leaves,
        other,
        LAST_LINE,
    ];
    shows(&rt, rt.alloc(), &state, "COLWELL", lines);
}

/// In the permanent docker, the cancellation of an association doesn't count.
#[test]
fn permanent_details(rt: HostRuntime) {
    let state = state(&rt, rt.alloc(), DIVISION_CANCELLED);
    let (at, on) = (place(&rt, "COLWELL"), day(&rt, "2024-06-10"));
    let docker = permanent_detailed_docker(rt.alloc(), &state, &at, on).expect(&rt, "a docker");
    same(&rt, docker.lines().len(), 6);
    let docker = detailed_docker(rt.alloc(), &state, &at, on).expect(&rt, "a docker");
    same(&rt, docker.lines().len(), 5);
    same(&rt, docker.place(), at);
    same(&rt, docker.day(), on);
    same(&rt, &docker.description()[..], &[b' '; 26][..]);
    let line = docker.lines().first().expect(&rt, "a line").line();
    same(&rt, line.number(), 2);
}
