//! Tests of the requests `train` and `trains`: the schedule of a UID on a day, and the trains with a
//! train identity.

use crate::answers::answers;
use crate::desks::{day_of, desk_of};
use crate::expected::{DAY_REFUSED, DONE};
use crate::records::BOTH_STATE;
use cif_line::Uid;
use docker_desk::{Desk, Query};
use std::alloc::Global;
use std::process::Abort;
use test_records::dockers::Lines;
use test_records::states::{LAPSED_STATE, MORNING_STATE};
use test_records::trains::{END, NONE_ON_15_JUNE, RUNS_ON_10_JUNE};
use test_records::{BS, LO, LO_0905, LT};

/// The answer that shows the morning train on 10 June. The train's schedule begins with the second
/// record of the update of 9 June.
const RUNS: Lines = &[b"0 5 405", RUNS_ON_10_JUNE, BS, LO, LT, END];

/// The answer that shows the revision of the morning train. The revised schedule begins with the
/// second record of the update of 10 June.
const REVISED: Lines = &[
    b"0 5 405",
    b"TRAIN  C10001  2024-06-10 P RUNS      2024-06-10 2100 DFROC1B          2        ",
    BS,
    LO_0905,
    LT,
    END,
];

/// The answer if no schedule of C10001 runs on the day of the request, Saturday 15 June.
const NONE_RUNS: Lines = &[b"0 2 162", NONE_ON_15_JUNE, END];

/// The answer if no schedule of the UID is known.
const UNKNOWN: Lines = &[
    b"0 2 162",
    b"TRAIN  C10009  2024-06-10   NONE                                                ",
    END,
];

/// Asserts the answer of a desk to a request for a train on a day.
fn answers_train(
    rt: &impl Abort,
    alloc: Global,
    desk: &mut Desk,
    uid: &[u8; 6],
    date: &str,
    lines: &[&[u8]],
) {
    let uid = Uid::from_field(uid).expect(rt, "a UID");
    let day = day_of(rt, date);
    answers(rt, alloc, &desk.show(&Query::Train { uid, day }), lines);
}

#[test]
fn trains(rt: HostRuntime) {
    let alloc = rt.alloc();
    let mut desk = desk_of(&rt, alloc, MORNING_STATE);
    answers_train(&rt, alloc, &mut desk, b"C10001", "2024-06-10", RUNS);
    answers_train(&rt, alloc, &mut desk, b"C10001", "2024-06-15", NONE_RUNS);
    answers_train(&rt, alloc, &mut desk, b"C10009", "2024-06-10", UNKNOWN);
    let mut desk = desk_of(&rt, alloc, BOTH_STATE);
    answers_train(&rt, alloc, &mut desk, b"C10001", "2024-06-10", REVISED);
}

#[test]
fn a_train_before_the_horizon(rt: HostRuntime) {
    let alloc = rt.alloc();
    let mut desk = desk_of(&rt, alloc, LAPSED_STATE);
    answers_train(&rt, alloc, &mut desk, b"C10001", "2024-06-14", DAY_REFUSED);
    answers_train(&rt, alloc, &mut desk, b"C10001", "2024-06-15", NONE_RUNS);
}

/// The answer to `trains` with the morning train on 10 June.
const ONE_TRAIN: Lines = &[b"0 1 20", b"C10001 2024-06-10 P"];

/// Asserts the answer of a desk to a request for the trains with a train identity on a day.
fn lists_trains(
    rt: &impl Abort,
    alloc: Global,
    desk: &mut Desk,
    identity: &[u8; 4],
    date: &str,
    lines: &[&[u8]],
) {
    let identity = *identity;
    let day = day_of(rt, date);
    answers(
        rt,
        alloc,
        &desk.show(&Query::Trains { identity, day }),
        lines,
    );
}

#[test]
fn lists_of_trains(rt: HostRuntime) {
    let alloc = rt.alloc();
    let mut desk = desk_of(&rt, alloc, MORNING_STATE);
    lists_trains(&rt, alloc, &mut desk, b"1A10", "2024-06-10", ONE_TRAIN);
    lists_trains(&rt, alloc, &mut desk, b"1A11", "2024-06-10", DONE);
    lists_trains(&rt, alloc, &mut desk, b"1A10", "2024-06-15", DONE);
    let mut desk = desk_of(&rt, alloc, LAPSED_STATE);
    lists_trains(&rt, alloc, &mut desk, b"1A10", "2024-06-14", DAY_REFUSED);
}
