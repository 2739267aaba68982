//! A day before the horizon is refused, a word that isn't a UID is refused, and printing to a full
//! sink fails.

use super::compare::same;
use super::{day, joined, says, uid};
use cif_line::Kept;
use docker_state::State;
use docker_train::{DockerFault, TrainFault, find_train, print_train, uid_of_word};
use std::alloc::Global;
use std::process::Abort;
use test_records::files::EACH_DAY;
use test_records::trains::{END, NONE_ON_17_JUNE, RUNS_ON_10_JUNE};
use test_records::{BS_WEEK, LO, LT, text};

/// The heading for 13 June.
const THURSDAY: &[u8] =
    b"TRAIN  C10001  2024-06-13 P RUNS      2024-06-09 2100 DFROC1A          2        ";

/// Asserts that a day is refused for C10001, and that nothing is written.
fn is_refused(rt: &impl Abort, alloc: Global, state: &State, on: &str) {
    let mut kept = Kept::new(alloc, 1000).expect(rt, "room");
    let (uid, day) = (uid(rt, "C10001"), day(rt, on));
    let fault = print_train(state, &uid, day, &mut kept).err();
    same(rt, fault, Some(TrainFault::Lapsed));
    same(rt, kept.bytes(), b"");
    same(
        rt,
        find_train(state, &uid, day).err(),
        Some(DockerFault::Lapsed),
    );
}

/// A day before the horizon is refused. The day of the horizon isn't refused.
#[test]
fn before_the_horizon(rt: HostRuntime) {
    let thursday: &[&[u8]] = &[THURSDAY, BS_WEEK, LO, LT, END];
    let mut state = joined(&rt, rt.alloc(), &[EACH_DAY]);
    state.set_horizon(day(&rt, "2024-06-13"));
    is_refused(&rt, rt.alloc(), &state, "2024-06-10");
    is_refused(&rt, rt.alloc(), &state, "2024-06-12");
    says(&rt, rt.alloc(), &state, "C10001", "2024-06-13", thursday);
}

/// After a schedule has lapsed, the days before the horizon are refused for its UID, and no
/// schedule of this UID runs from the horizon on.
#[test]
fn lapsed(rt: HostRuntime) {
    let mut state = joined(&rt, rt.alloc(), &[EACH_DAY]);
    state.set_horizon(day(&rt, "2024-06-17"));
    is_refused(&rt, rt.alloc(), &state, "2024-06-16");
    says(
        &rt,
        rt.alloc(),
        &state,
        "C10001",
        "2024-06-17",
        &[NONE_ON_17_JUNE, END],
    );
}

/// Prints the text for C10001 on 10 June to a sink with room for `room` bytes. Asserts the fault,
/// and the bytes that the sink then has.
fn takes(rt: &impl Abort, alloc: Global, state: &State, room: usize, wanted: Option<TrainFault>) {
    let mut kept = Kept::new(alloc, room).expect(rt, "room");
    let lines: &[&[u8]] = &[RUNS_ON_10_JUNE, BS_WEEK, LO, LT, END];
    let all = text(alloc, lines, b"\n").expect(rt, "a text");
    let (uid, day) = (uid(rt, "C10001"), day(rt, "2024-06-10"));
    same(rt, print_train(state, &uid, day, &mut kept).err(), wanted);
    same(
        rt,
        kept.bytes(),
        all.as_slice().get(..room).expect(rt, "so much"),
    );
}

/// Five lines of 81 bytes are 405 bytes. A sink with less room takes only the prefix that fits.
#[test]
fn full_sink(rt: HostRuntime) {
    let state = joined(&rt, rt.alloc(), &[EACH_DAY]);
    takes(&rt, rt.alloc(), &state, 405, None);
    takes(&rt, rt.alloc(), &state, 404, Some(TrainFault::Sink));
    takes(&rt, rt.alloc(), &state, 100, Some(TrainFault::Sink));
    takes(&rt, rt.alloc(), &state, 0, Some(TrainFault::Sink));
}

/// Asserts that a word is a UID if and only if `wanted` is true.
fn is_uid(rt: &impl Abort, word: &str, wanted: bool) {
    same(rt, uid_of_word(word).is_some(), wanted);
}

/// A word of six printable bytes is a UID, and no other word is.
#[test]
fn words(rt: HostRuntime) {
    is_uid(&rt, "C10001", true);
    is_uid(&rt, "~ !9az", true);
    is_uid(&rt, "C1000", false);
    is_uid(&rt, "C100011", false);
    is_uid(&rt, "", false);
    is_uid(&rt, "C1000\u{7f}", false);
    is_uid(&rt, "C100\u{e9}", false);
    same(&rt, uid(&rt, "C10001").bytes(), b"C10001");
}
