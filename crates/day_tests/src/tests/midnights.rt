//! Trains that pass midnight.

use super::compare::same;
use super::{day, shows, state};
use cif_line::Uid;
use docker_day::{chosen, falls};
use docker_state::State;
use std::process::Abort;
use test_records::dockers::{
    NIGHT_COMES, NIGHT_LEAVES, NIGHT_PASSES, SECOND_NIGHT_COMES, SECOND_NIGHT_PASSES,
};
use test_records::files::NIGHT;
use test_records::{BS_NIGHT, HD, LI_0005, LI_0010, LO_2355, LT_0006_PLAIN, ZZ};

/// A file with a train that passes midnight twice.
const TWO_NIGHTS: &[&[u8]] = &[HD, BS_NIGHT, LO_2355, LI_0010, LI_0005, LT_0006_PLAIN, ZZ];

/// Events just after midnight are on the day after the train's start day.
#[test]
fn midnight(rt: HostRuntime) {
    let alloc = rt.alloc();
    let files: &[&[&[u8]]] = &[NIGHT];
    let called: &[&[u8]] = &[NIGHT_COMES, NIGHT_LEAVES];
    shows(&rt, alloc, files, "COLWELL", "2024-06-10", &[]);
    shows(&rt, alloc, files, "COLWELL", "2024-06-11", called);
    shows(&rt, alloc, files, "DUNMERE", "2024-06-10", &[]);
    shows(&rt, alloc, files, "DUNMERE", "2024-06-11", &[NIGHT_PASSES]);
}

/// Events after a second midnight are two days after the train's start day.
#[test]
fn two_midnights(rt: HostRuntime) {
    let alloc = rt.alloc();
    let files: &[&[&[u8]]] = &[TWO_NIGHTS];
    let passed: &[&[u8]] = &[SECOND_NIGHT_PASSES];
    let come: &[&[u8]] = &[SECOND_NIGHT_COMES];
    shows(&rt, alloc, files, "DUNMERE", "2024-06-10", &[]);
    shows(&rt, alloc, files, "DUNMERE", "2024-06-11", &[NIGHT_PASSES]);
    shows(&rt, alloc, files, "DUNMERE", "2024-06-12", passed);
    shows(&rt, alloc, files, "BRAYTON", "2024-06-11", &[]);
    shows(&rt, alloc, files, "BRAYTON", "2024-06-12", come);
}

/// Asserts how often C20001 passes midnight before an event. `None` means that the event doesn't
/// exist. The train starts on 10 June.
fn midnights_are(rt: &impl Abort, state: &State, event: u64, wanted: Option<u8>) {
    let uid = Uid::from_field(b"C20001").expect(rt, "a UID");
    let view = chosen(state, &uid, day(rt, "2024-06-10")).expect(rt, "a schedule");
    same(rt, falls(&view, event), wanted);
}

/// Checks how often C20001 passes midnight before each event. The result is `None` for an event
/// that doesn't exist.
#[test]
fn midnights_up_to_events(rt: HostRuntime) {
    let state = state(&rt, rt.alloc(), TWO_NIGHTS);
    midnights_are(&rt, &state, 0, None);
    midnights_are(&rt, &state, 1, Some(0));
    midnights_are(&rt, &state, 2, Some(1));
    midnights_are(&rt, &state, 4, Some(2));
    midnights_are(&rt, &state, 5, None);
}
