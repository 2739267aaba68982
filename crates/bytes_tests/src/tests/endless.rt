//! Texts that are cut short, that never end, or that have huge counts. Each text is read by every
//! reader.
ghost use Rattle.std.specs.Prelude.{◌<◌, length};

use super::compare::same;
use super::migrated::{refused_old, refused_old_source};
use super::pieces::{HEAD_LAPSED, HEAD_OF_NO_OP, MOST, NOTHING};
use super::{
    BEGINNINGS, Row, at, joined_text, known_text, last_place, read, refused, state, text_is,
    written,
};
use cif_line::{Bytes, Endless};
use docker_bytes::{ReadFault, StateCause, StateFault, join_state, read_state};
use docker_state::State;
use std::alloc::Global;
use std::process::Abort;
use test_records::files::JOIN;
use test_records::states::{HEAD, ITEM, MARK, OLD_MARK, ONE};
use test_records::{BS, LO, LT};

/// The limit for the length of a text, if the test doesn't set one.
const MOST_BYTES: u64 = 1_099_511_627_776;

/// The head of a schedule's entry, with the greatest count of lines.
const HEAD_OF_MOST: &[u8] =
    b"\x03C10001\x5b\xf1P\x5b\xf0\x04\xecDFROC1A\x00\x00\x00\x02\x01\xff\xff\xff\xfe";

/// The head of a schedule's entry, with a count of lines that is one above the greatest.
const HEAD_ABOVE_MOST: &[u8] =
    b"\x03C10001\x5b\xf1P\x5b\xf0\x04\xecDFROC1A\x00\x00\x00\x02\x01\xff\xff\xff\xff";

/// The mark, followed by the horizon 2024-06-14, which is the last day of C10001's schedule.
const UNDER_LAST: &[u8] = b"DKS2\x5b\xf5";

/// The mark, followed by the horizon 2024-06-15, which is the day after the last day of C10001's
/// schedule.
const UNDER_AFTER: &[u8] = b"DKS2\x5b\xf6";

/// The mark, followed by a horizon that isn't a day: the number after the last day of the calendar.
const UNDER_TOO_LATE: &[u8] = b"DKS2\x8e\xad";

/// Asserts that a text is refused, both when it is read `step` bytes at a time and when a state
/// receives it. The receiving state still has the text `before`.
fn refused_by(
    rt: &impl Abort,
    alloc: Global,
    own: &mut State,
    before: &[u8],
    text: &[u8],
    limit: u64,
    fault: StateFault,
    step: usize,
)
    requires { 0 < step }
{
    let fault = ReadFault::State(fault);
    let read = read_state(alloc, &mut Bytes::new(text, step), limit).err();
    same(rt, read, Some(fault));
    let joined = join_state(alloc, own, &mut Bytes::new(text, step), limit);
    same(rt, joined, Err(fault));
    text_is(rt, alloc, own, before);
}

/// Asserts that a text is refused by every reader. A state that tries to receive the text is
/// unchanged.
pub(super) fn refused_each_way(
    rt: &impl Abort,
    alloc: Global,
    text: &[u8],
    limit: u64,
    fault: StateFault,
) {
    let mut own = state(rt, alloc, JOIN);
    let before = written(rt, alloc, &own);
    let before = before.bytes();
    refused_by(rt, alloc, &mut own, before, text, limit, fault, 1);
    refused_by(rt, alloc, &mut own, before, text, limit, fault, 7);
    refused_by(rt, alloc, &mut own, before, text, limit, fault, 4096);
}

/// Asserts that a text without end is refused. The text begins with `front`, and then repeats
/// `again`. It is read `step` bytes at a time, and then received.
fn refused_endless_by(
    rt: &impl Abort,
    alloc: Global,
    own: &mut State,
    before: &[u8],
    front: &[u8],
    again: &[u8],
    limit: u64,
    fault: StateFault,
    step: usize,
)
    requires again { 0 < length again.now }
    requires step { 0 < step }
{
    let fault = ReadFault::State(fault);
    let mut source = Endless::new(front, again, step);
    same(rt, read_state(alloc, &mut source, limit).err(), Some(fault));
    let mut source = Endless::new(front, again, step);
    same(rt, join_state(alloc, own, &mut source, limit), Err(fault));
    text_is(rt, alloc, own, before);
}

/// Like `refused_each_way`, for a text without end, which begins with `front` and then repeats
/// `again`.
fn refused_without_end(
    rt: &impl Abort,
    alloc: Global,
    front: &[u8],
    again: &[u8],
    limit: u64,
    fault: StateFault,
)
    requires { 0 < length again.now }
{
    let mut own = state(rt, alloc, JOIN);
    let before = written(rt, alloc, &own);
    let before = before.bytes();
    refused_endless_by(rt, alloc, &mut own, before, front, again, limit, fault, 1);
    refused_endless_by(rt, alloc, &mut own, before, front, again, limit, fault, 7);
    refused_endless_by(
        rt, alloc, &mut own, before, front, again, limit, fault, 4096,
    );
}

/// The first parts of a text, followed by 60 ledger items, each a minute later than the item before
/// it.
fn with_items(rt: &impl Abort, alloc: Global, front: &[&[u8]]) -> Vec<u8> {
    let mut items = joined_text(rt, alloc, front);
    for minute in 0..60u16 {
        items.extend_from_slice(b"\0\0").expect(rt, "room");
        items
            .extend_from_slice(&minute.to_be_bytes())
            .expect(rt, "room");
        items
            .extend_from_slice(b"       U       ")
            .expect(rt, "room");
    }
    items
}

/// Asserts that a text is refused as too short if it is cut after its first `n` bytes.
fn refused_front(rt: &impl Abort, alloc: Global, text: &[u8], n: usize) {
    let fault = at(last_place(&BEGINNINGS, n), StateCause::Short);
    let front = text.get(..n).expect(rt, "a front");
    refused_each_way(rt, alloc, front, 1000, fault);
}

#[test]
fn texts_cut_short(rt: HostRuntime) {
    let alloc = rt.alloc();
    let known = known_text(&rt, alloc);
    let known = known.as_slice();
    same(&rt, known.len(), 311);
    for n in 0..311 {
        refused_front(&rt, alloc, known, n);
    }
    let longer = joined_text(&rt, alloc, &[known, b"\0"]);
    let tail = at(311, StateCause::Tail);
    refused_each_way(&rt, alloc, longer.as_slice(), 1000, tail);
    let long = at(310, StateCause::Long);
    refused_each_way(&rt, alloc, known, 310, long);
}

/// A row: the beginning of a text up to its ledger, the head of the text's entry, and the offset
/// and cause of the text's fault.
type Changed = (&'static [u8], &'static [u8], u64, StateCause);

const CHANGED: &[Changed] = &[
    (OLD_MARK, HEAD, 0, StateCause::Mark),
    (UNDER_TOO_LATE, HEAD, 4, StateCause::Horizon),
    (UNDER_AFTER, HEAD, 41, StateCause::Body),
    (MARK, HEAD_OF_NO_OP, 41, StateCause::Body),
    (MARK, HEAD_LAPSED, 67, StateCause::Tail),
];

/// The text of a state with one file and one schedule. The text begins with `mark`, and `head` is
/// the head of its entry.
fn text_with(rt: &impl Abort, alloc: Global, mark: &[u8], head: &[u8]) -> Vec<u8> {
    joined_text(rt, alloc, &[mark, ONE, ITEM, ONE, head, BS, LO, LT])
}

/// Asserts that the text of a row is refused with the row's fault.
fn refused_change(rt: &impl Abort, alloc: Global, row: &Changed) {
    let (mark, head, place, cause) = *row;
    let text = text_with(rt, alloc, mark, head);
    refused_each_way(rt, alloc, text.as_slice(), 1000, at(place, cause));
}

/// Asserts that a text is read, `step` bytes at a time, and written again unchanged.
fn is_kept(rt: &impl Abort, alloc: Global, text: &[u8], step: usize)
    requires { 0 < step }
{
    let state = read(rt, alloc, text, step, 1000);
    text_is(rt, alloc, &state, text);
}

#[test]
fn texts_changed_in_one_part(rt: HostRuntime) {
    let alloc = rt.alloc();
    for row in CHANGED {
        refused_change(&rt, alloc, row);
    }
    let kept = text_with(&rt, alloc, UNDER_LAST, HEAD);
    is_kept(&rt, alloc, kept.as_slice(), 1);
    is_kept(&rt, alloc, kept.as_slice(), 7);
    is_kept(&rt, alloc, kept.as_slice(), 4096);
}

#[test]
fn texts_without_end(rt: HostRuntime) {
    let alloc = rt.alloc();
    let mark = at(0, StateCause::Mark);
    let tail = at(22, StateCause::Tail);
    let horizon = at(4, StateCause::Horizon);
    let item = at(14, StateCause::Item);
    let long = at(1_002, StateCause::Long);
    let items = with_items(&rt, alloc, &[MARK, MOST]);
    refused_without_end(&rt, alloc, b"", &[0], MOST_BYTES, mark);
    refused_without_end(&rt, alloc, MARK, &[0], MOST_BYTES, tail);
    refused_without_end(&rt, alloc, b"DKS2", &[255], MOST_BYTES, horizon);
    refused_without_end(&rt, alloc, MARK, &[255], MOST_BYTES, item);
    refused_without_end(&rt, alloc, items.as_slice(), &[0], 1_002, long);
}

/// Texts with a huge count, each with the offset and cause of its fault.
const HUGE: &[Row] = &[
    (
        &[MARK, MOST, ITEM, ONE, HEAD, BS, LO, LT],
        33,
        StateCause::Item,
    ),
    (
        &[MARK, ONE, ITEM, ONE, HEAD_OF_MOST, BS, LO, LT],
        41,
        StateCause::Short,
    ),
    (
        &[MARK, ONE, ITEM, ONE, HEAD_ABOVE_MOST, BS, LO, LT],
        41,
        StateCause::Body,
    ),
];

/// Asserts that the concatenation of these pieces is refused by every reader, and that a state that
/// tries to receive this text is unchanged.
fn refused_everywhere(
    rt: &impl Abort,
    alloc: Global,
    pieces: &[&[u8]],
    limit: u64,
    fault: StateFault,
) {
    refused(rt, alloc, pieces, limit, fault);
    let text = joined_text(rt, alloc, pieces);
    refused_each_way(rt, alloc, text.as_slice(), limit, fault);
}

#[test]
fn huge_counts(rt: HostRuntime) {
    let alloc = rt.alloc();
    for (pieces, place, cause) in HUGE {
        refused_everywhere(&rt, alloc, pieces, 1_000, at(*place, *cause));
    }
    let items = with_items(&rt, alloc, &[MARK, MOST]);
    let long = at(1_002, StateCause::Long);
    refused_everywhere(&rt, alloc, &[items.as_slice()], 1_002, long);
}

/// Asserts that a text without end can't be migrated. The text begins with `front`, and then
/// repeats `again`.
fn refused_old_endless(
    rt: &impl Abort,
    alloc: Global,
    front: &[u8],
    again: &[u8],
    limit: u64,
    fault: StateFault,
)
    requires { 0 < length again.now }
{
    refused_old_source(rt, alloc, &mut Endless::new(front, again, 1), limit, fault);
    refused_old_source(rt, alloc, &mut Endless::new(front, again, 7), limit, fault);
    refused_old_source(
        rt,
        alloc,
        &mut Endless::new(front, again, 4096),
        limit,
        fault,
    );
}

#[test]
fn old_texts_without_end(rt: HostRuntime) {
    let alloc = rt.alloc();
    let mark = at(0, StateCause::Mark);
    let tail = at(20, StateCause::Tail);
    let item = at(12, StateCause::Item);
    let long = at(1_000, StateCause::Long);
    let items = with_items(&rt, alloc, &[OLD_MARK, MOST]);
    refused_old_endless(&rt, alloc, b"", &[0], MOST_BYTES, mark);
    refused_old_endless(&rt, alloc, OLD_MARK, &[0], MOST_BYTES, tail);
    refused_old_endless(&rt, alloc, OLD_MARK, &[255], MOST_BYTES, item);
    refused_old_endless(&rt, alloc, b"DKS2", &[0], MOST_BYTES, mark);
    refused_old_endless(&rt, alloc, items.as_slice(), &[0], 1_000, long);
}

/// Texts in the older format with a huge count, each with the offset and cause of its fault.
const OLD_HUGE: &[Row] = &[
    (
        &[OLD_MARK, MOST, ITEM, ONE, HEAD, BS, LO, LT],
        31,
        StateCause::Item,
    ),
    (
        &[OLD_MARK, ONE, ITEM, ONE, HEAD_OF_MOST, BS, LO, LT],
        39,
        StateCause::Short,
    ),
    (
        &[OLD_MARK, ONE, ITEM, ONE, HEAD_ABOVE_MOST, BS, LO, LT],
        39,
        StateCause::Body,
    ),
    (&[OLD_MARK, NOTHING, NOTHING], 20, StateCause::Tail),
];

#[test]
fn old_texts_with_huge_counts(rt: HostRuntime) {
    for (pieces, place, cause) in OLD_HUGE {
        refused_old(&rt, rt.alloc(), pieces, 1_000, at(*place, *cause));
    }
}
