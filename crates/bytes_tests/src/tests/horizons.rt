//! Texts of states with a horizon and with lapsed entries.
ghost use Rattle.std.specs.Prelude.{◌<◌};

use super::compare::same;
use super::pieces::{
    AFTER, ASHFELD_HEAD, GREATEST, HEAD_LAPSED, JOINS_HEAD, LAST, NOTHING, TOO_LATE,
};
use super::{at, goes_round, joined_text, read, refused, state, text_is};
use cif_line::{Bytes, Day};
use docker_bytes::{StateCause, StateFault, read_raised};
use docker_state::State;
use std::alloc::Global;
use std::process::Abort;
use test_records::files::{MORNING, PLACE};
use test_records::states::{HEAD, ITEM, LAPSED, ONE, PUT, SCHEDULE_HEAD};
use test_records::{AA_JOIN, BODY_OF_TI, BS, BS_NO_END, LO, LT};

/// The text of a state with one file, this horizon, and one entry. `parts` are the parts of the
/// entry.
fn under(rt: &impl Abort, alloc: Global, horizon: &[u8], parts: &[&[u8]]) -> Vec<u8> {
    let entry = joined_text(rt, alloc, parts);
    let pieces = [b"DKS2", horizon, ONE, ITEM, ONE, entry.as_slice()];
    joined_text(rt, alloc, &pieces)
}

/// Asserts that a text is read as a state with this horizon, and that the state is written as the
/// same text.
fn accepted(rt: &impl Abort, alloc: Global, text: &[u8], horizon: u16) {
    let state = read(rt, alloc, text, 4096, 1000);
    same(rt, state.horizon(), horizon);
    text_is(rt, alloc, &state, text);
    goes_round(rt, alloc, &state, text.len(), 1);
}

/// Asserts that the text with this horizon and one entry, which has these parts, is accepted.
fn accepted_under(rt: &impl Abort, alloc: Global, horizon: &[u8], parts: &[&[u8]], number: u16) {
    let text = under(rt, alloc, horizon, parts);
    accepted(rt, alloc, text.as_slice(), number);
}

/// Asserts that the text with this horizon and one entry, which has these parts, is refused with
/// this fault.
fn refused_under(
    rt: &impl Abort,
    alloc: Global,
    horizon: &[u8],
    parts: &[&[u8]],
    fault: StateFault,
) {
    let text = under(rt, alloc, horizon, parts);
    refused(rt, alloc, &[text.as_slice()], 1000, fault);
}

/// The entry of C10001's schedule.
const SCHEDULE: &[&[u8]] = &[HEAD, BS, LO, LT];

/// The entry of the association between C10001 and C10002.
const ASSOCIATION: &[&[u8]] = &[JOINS_HEAD, PUT, AA_JOIN];

#[test]
fn horizons_of_no_day(rt: HostRuntime) {
    let alloc = rt.alloc();
    let bad = at(4, StateCause::Horizon);
    refused_under(&rt, alloc, TOO_LATE, SCHEDULE, bad);
    refused(&rt, alloc, &[b"DKS2", TOO_LATE], 6, bad);
    let long = at(5, StateCause::Long);
    refused(&rt, alloc, &[b"DKS2", TOO_LATE], 5, long);
    let greatest = joined_text(&rt, alloc, &[b"DKS2", GREATEST, NOTHING]);
    accepted(&rt, alloc, greatest.as_slice(), 36524);
}

#[test]
fn puts_that_end_before_the_horizon(rt: HostRuntime) {
    let alloc = rt.alloc();
    let bad = at(41, StateCause::Body);
    let short = at(41, StateCause::Short);
    accepted_under(&rt, alloc, LAST, SCHEDULE, 23541);
    refused_under(&rt, alloc, AFTER, SCHEDULE, bad);
    refused_under(&rt, alloc, GREATEST, SCHEDULE, bad);
    refused_under(&rt, alloc, AFTER, &[HEAD, BS], bad);
    let front = BS.get(..79).expect(&rt, "79 bytes");
    refused_under(&rt, alloc, AFTER, &[HEAD, front], short);
    accepted_under(&rt, alloc, LAST, ASSOCIATION, 23541);
    refused_under(&rt, alloc, AFTER, ASSOCIATION, bad);
    accepted_under(&rt, alloc, GREATEST, &[HEAD, BS_NO_END, LO, LT], 36524);
    accepted_under(
        &rt,
        alloc,
        GREATEST,
        &[ASHFELD_HEAD, PUT, &BODY_OF_TI],
        36524,
    );
}

/// Asserts that a text with this horizon and one lapsed entry is accepted. `entry` has the parts of
/// the entry before its op, and the text has `len` bytes.
fn accepted_lapsed(
    rt: &impl Abort,
    alloc: Global,
    horizon: &[u8],
    number: u16,
    entry: &[u8],
    len: usize,
) {
    let text = under(rt, alloc, horizon, &[entry, LAPSED]);
    same(rt, text.len(), len);
    accepted(rt, alloc, text.as_slice(), number);
}

/// Asserts that texts with this horizon and one lapsed entry are accepted: one text for each kind
/// of key.
fn each_accepted_lapsed(rt: &impl Abort, alloc: Global, horizon: &[u8], number: u16) {
    accepted_lapsed(rt, alloc, horizon, number, ASHFELD_HEAD, 65);
    accepted_lapsed(rt, alloc, horizon, number, JOINS_HEAD, 81);
    accepted_lapsed(rt, alloc, horizon, number, SCHEDULE_HEAD, 67);
}

#[test]
fn what_has_lapsed_has_no_body(rt: HostRuntime) {
    let alloc = rt.alloc();
    each_accepted_lapsed(&rt, alloc, b"\0\0", 0);
    each_accepted_lapsed(&rt, alloc, AFTER, 23542);
    each_accepted_lapsed(&rt, alloc, GREATEST, 36524);
    let tail = at(67, StateCause::Tail);
    refused_under(&rt, alloc, b"\0\0", &[HEAD_LAPSED, BS, LO, LT], tail);
    let bad = at(41, StateCause::Body);
    refused_under(&rt, alloc, AFTER, &[SCHEDULE_HEAD, b"\x03"], bad);
}

/// The state of a file with these records, after this horizon was set.
fn lapsed(rt: &impl Abort, alloc: Global, records: &[&[u8]], day: &str) -> State {
    let mut state = state(rt, alloc, records);
    state.set_horizon(Day::from_iso(day).expect(rt, "a day"));
    state
}

/// Sets this horizon on the state of the file with C10001's schedule, and asserts the state's text.
/// The text has `len` bytes and one entry, which has these parts.
fn has_under(
    rt: &impl Abort,
    alloc: Global,
    day: &str,
    horizon: &[u8],
    parts: &[&[u8]],
    len: usize,
) {
    let state = lapsed(rt, alloc, MORNING, day);
    let wanted = under(rt, alloc, horizon, parts);
    text_is(rt, alloc, &state, wanted.as_slice());
    goes_round(rt, alloc, &state, len, 1);
}

#[test]
fn a_state_with_a_horizon_goes_round(rt: HostRuntime) {
    let alloc = rt.alloc();
    has_under(&rt, alloc, "2024-06-14", LAST, SCHEDULE, 311);
    let gone: &[&[u8]] = &[SCHEDULE_HEAD, LAPSED];
    has_under(&rt, alloc, "2024-06-15", AFTER, gone, 67);
    let tiploc = lapsed(&rt, alloc, PLACE, "2059-12-31");
    goes_round(&rt, alloc, &tiploc, 128, 7);
}

/// Reads the state of a text, `step` bytes at a time, and raises its horizon to a day. Asserts that
/// the state then has the text `wanted`.
fn is_raised(rt: &impl Abort, alloc: Global, text: &[u8], day: &str, step: usize, wanted: &[u8])
    requires { 0 < step }
{
    let day = Day::from_iso(day).expect(rt, "a day");
    let mut source = Bytes::new(text, step);
    let state = read_raised(alloc, &mut source, day, text.len() as u64);
    text_is(rt, alloc, &state.expect(rt, "a state"), wanted);
}

/// Asserts that the state of the text `before`, whose horizon is raised to a day while it is read,
/// has the text `after`. Each of the two texts is a horizon and the parts of one entry.
fn raised(
    rt: &impl Abort,
    alloc: Global,
    before: (&[u8], &[&[u8]]),
    day: &str,
    after: (&[u8], &[&[u8]]),
) {
    let text = under(rt, alloc, before.0, before.1);
    let wanted = under(rt, alloc, after.0, after.1);
    let (text, wanted) = (text.as_slice(), wanted.as_slice());
    is_raised(rt, alloc, text, day, 1, wanted);
    is_raised(rt, alloc, text, day, 4096, wanted);
}

/// The entry of C10001's schedule after it has lapsed.
const SCHEDULE_GONE: &[&[u8]] = &[SCHEDULE_HEAD, LAPSED];

/// The entry of the association between C10001 and C10002 after it has lapsed.
const ASSOCIATION_GONE: &[&[u8]] = &[JOINS_HEAD, LAPSED];

/// The entry of Ashfeld's TIPLOC.
const TIPLOC: &[&[u8]] = &[ASHFELD_HEAD, PUT, &BODY_OF_TI];

#[test]
fn entries_lapse_as_they_are_read(rt: HostRuntime) {
    let alloc = rt.alloc();
    let none: &[u8] = b"\0\0";
    let (last, later) = ("2024-06-14", "2024-06-15");
    raised(&rt, alloc, (none, SCHEDULE), last, (LAST, SCHEDULE));
    raised(&rt, alloc, (none, SCHEDULE), later, (AFTER, SCHEDULE_GONE));
    raised(&rt, alloc, (LAST, SCHEDULE), last, (LAST, SCHEDULE));
    raised(&rt, alloc, (LAST, SCHEDULE), later, (AFTER, SCHEDULE_GONE));
    let gone = (AFTER, SCHEDULE_GONE);
    raised(&rt, alloc, gone, last, gone);
    raised(&rt, alloc, gone, "2059-12-31", (GREATEST, SCHEDULE_GONE));
    raised(&rt, alloc, (none, ASSOCIATION), last, (LAST, ASSOCIATION));
    let joins = (AFTER, ASSOCIATION_GONE);
    raised(&rt, alloc, (none, ASSOCIATION), later, joins);
    raised(&rt, alloc, (none, TIPLOC), later, (AFTER, TIPLOC));
}
