//! Tests of states that an office refuses. A refusal leaves the office's own state unchanged.

use crate::compare::same;
use crate::offices::{day_of, has, has_text, office_of, place_of, text_of_parts};
use cif_line::Bytes;
use docker_office::{LedgerOffice, Office, OfficeFault, PlaceOffice, StateCause, StateFault};
use std::alloc::Global;
use std::process::Abort;
use test_records::files::REVISION;
use test_records::states::{
    HEAD, ITEM, ITEM_5A, ITEM_7B, MARK, MORNING_STATE, OLD_MARK, OLD_STATE, ONE, Parts,
    REVISION_STATE, TWO,
};
use test_records::{BS, LO, LT};

/// A call that makes an office read a state.
#[derive(Clone, Copy, PartialEq, Eq, Debug)]
enum Ask {
    Receive,
    Reload,
    Migrate,
    Place,
    Ledger,
}

/// The calls that read a state in the new format.
const NEWER: &[Ask] = &[Ask::Receive, Ask::Reload, Ask::Place, Ask::Ledger];

/// The call that reads a state in the older format.
const OLDER: &[Ask] = &[Ask::Migrate];

/// Lets an office read a text with this call and a limit of `limit` bytes, and returns the result.
/// The source returns at most 9 bytes per read.
fn read_in(
    rt: &impl Abort,
    alloc: Global,
    how: Ask,
    office: &mut Office,
    text: &[u8],
    limit: u64,
) -> Result<(), OfficeFault> {
    let mut source = Bytes::new(text, 9);
    let place = place_of(rt, "ASHFELD");
    let day = day_of(rt, "2024-05-01");
    match how {
        Ask::Receive => office.receive(&mut source, limit),
        Ask::Reload => office.reload(&mut source, limit),
        Ask::Migrate => office.migrate(&mut source, limit),
        Ask::Place => PlaceOffice::read(alloc, place, day, &mut source, limit).map(|_| ()),
        Ask::Ledger => LedgerOffice::read(alloc, &mut source, limit).map(|_| ()),
    }
}

/// Asserts that an office that knows the file `REVISION` refuses this text for this fault, and that
/// the office's state is then unchanged.
fn refuses(rt: &impl Abort, alloc: Global, how: Ask, text: &[u8], limit: u64, fault: StateFault) {
    let mut office = office_of(rt, alloc, &[REVISION]);
    let answer = read_in(rt, alloc, how, &mut office, text, limit);
    same(rt, (how, answer), (how, Err(OfficeFault::State(fault))));
    has(rt, alloc, &office, REVISION_STATE);
}

/// Asserts that each of these calls refuses this text for this fault.
fn refuses_by(
    rt: &impl Abort,
    alloc: Global,
    ways: &[Ask],
    text: &[u8],
    limit: u64,
    fault: StateFault,
) {
    for how in ways {
        refuses(rt, alloc, *how, text, limit, fault);
    }
}

/// Returns a fault at this offset.
fn fault(at: u64, cause: StateCause) -> StateFault {
    StateFault { at, cause }
}

/// Returns a copy of the text in which these bytes replace the bytes at this offset.
fn changed(rt: &impl Abort, alloc: Global, text: &[u8], at: usize, bytes: &[u8]) -> Vec<u8> {
    let front = text.get(..at).expect(rt, "an offset");
    let after = at.saturating_add(bytes.len());
    let rest = text.get(after..).expect(rt, "an offset");
    let mut other = Vec::new(alloc);
    other.extend_from_slice(front).expect(rt, "room");
    other.extend_from_slice(bytes).expect(rt, "room");
    other.extend_from_slice(rest).expect(rt, "room");
    other
}

/// A change to a text, and the fault that it causes. The columns are an offset in the text, the
/// bytes that replace the text's bytes at this offset, and the offset and the cause of the fault.
type Change = (usize, &'static [u8], u64, StateCause);

/// Changes to the text of one file's state. The first change is in the mark, the next two are in
/// the horizon, and the fourth is in the ledger item's day. The next five changes are in the entry:
/// in its tag, its stamp, its op (twice) and its first line. The last change is in the number of
/// entries.
const CHANGED: &[Change] = &[
    (3, b"1", 0, StateCause::Mark),
    (4, b"\x8e\xad", 4, StateCause::Horizon),
    (4, b"\x5b\xf6", 41, StateCause::Body),
    (14, b"\x8e\xad", 14, StateCause::Item),
    (41, b"\x04", 41, StateCause::Tag),
    (61, b"B", 41, StateCause::Stamp),
    (66, b"\x03", 41, StateCause::Body),
    (66, b"\x02", 67, StateCause::Tail),
    (73, b"R", 41, StateCause::Body),
    (
        33,
        b"\xff\xff\xff\xff\xff\xff\xff\xff",
        311,
        StateCause::Short,
    ),
];

/// Asserts that each of these calls refuses this text after this change.
fn refuses_change(rt: &impl Abort, alloc: Global, ways: &[Ask], text: &[u8], change: &Change) {
    let (offset, bytes, at, cause) = *change;
    let other = changed(rt, alloc, text, offset, bytes);
    let found = fault(at, cause);
    refuses_by(rt, alloc, ways, other.as_slice(), 1000, found);
}

/// Asserts that each of these calls refuses this text after each of these changes.
fn refuses_changed(rt: &impl Abort, alloc: Global, ways: &[Ask], parts: Parts, changes: &[Change]) {
    let text = text_of_parts(rt, alloc, parts);
    for change in changes {
        refuses_change(rt, alloc, ways, text.as_slice(), change);
    }
}

#[test]
fn changed_states(rt: HostRuntime) {
    refuses_changed(&rt, rt.alloc(), NEWER, MORNING_STATE, CHANGED);
}

/// Changes to a text in the older format.
const OLD_CHANGED: &[Change] = &[
    (3, b"2", 0, StateCause::Mark),
    (12, b"\x8e\xad", 12, StateCause::Item),
    (39, b"\x04", 39, StateCause::Tag),
    (59, b"B", 39, StateCause::Stamp),
    (64, b"\x02", 39, StateCause::Body),
    (71, b"R", 39, StateCause::Body),
    (
        31,
        b"\xff\xff\xff\xff\xff\xff\xff\xff",
        309,
        StateCause::Short,
    ),
];

#[test]
fn changed_older_states(rt: HostRuntime) {
    refuses_changed(&rt, rt.alloc(), OLDER, OLD_STATE, OLD_CHANGED);
}

/// A row: the text after its mark, the most bytes that a text may have, and the offset and the
/// cause of the fault in the older format. The first text has an item twice, the second has an item
/// of a full extract above its first item, and the third has an entry twice. The fourth has one
/// byte after the state, and the last has one byte more than the limit.
type Other = (Parts, u64, u64, StateCause);

const OTHERS: &[Other] = &[
    (
        &[TWO, ITEM, ITEM, ONE, HEAD, BS, LO, LT],
        1000,
        31,
        StateCause::Order,
    ),
    (
        &[TWO, ITEM_5A, ITEM_7B, ONE, HEAD, BS, LO, LT],
        1000,
        31,
        StateCause::Floor,
    ),
    (
        &[ONE, ITEM, TWO, HEAD, BS, LO, LT, HEAD, BS, LO, LT],
        1000,
        309,
        StateCause::Order,
    ),
    (
        &[ONE, ITEM, ONE, HEAD, BS, LO, LT, b"\0"],
        1000,
        309,
        StateCause::Tail,
    ),
    (
        &[ONE, ITEM, ONE, HEAD, BS, LO, LT],
        308,
        308,
        StateCause::Long,
    ),
];

/// Returns a text with this mark and these parts.
fn marked(rt: &impl Abort, alloc: Global, mark: &[u8], parts: Parts) -> Vec<u8> {
    let mut text = text_of_parts(rt, alloc, &[mark]);
    let rest = text_of_parts(rt, alloc, parts);
    text.extend_from_slice(rest.as_slice()).expect(rt, "room");
    text
}

/// Asserts that an office refuses the text of this row in the older format.
fn refuses_older(rt: &impl Abort, alloc: Global, row: &Other) {
    let (parts, limit, at, cause) = *row;
    let text = marked(rt, alloc, OLD_MARK, parts);
    let found = fault(at, cause);
    refuses_by(rt, alloc, OLDER, text.as_slice(), limit, found);
}

/// Asserts that an office refuses the text of this row in the new format. In this format, the mark
/// and the horizon together have two more bytes than the mark of the older format.
fn refuses_newer(rt: &impl Abort, alloc: Global, row: &Other) {
    let (parts, limit, at, cause) = *row;
    let text = marked(rt, alloc, MARK, parts);
    let found = fault(at.saturating_add(2), cause);
    let limit = limit.saturating_add(2);
    refuses_by(rt, alloc, NEWER, text.as_slice(), limit, found);
}

#[test]
fn items_and_entries_out_of_place(rt: HostRuntime) {
    for row in OTHERS {
        refuses_older(&rt, rt.alloc(), row);
        refuses_newer(&rt, rt.alloc(), row);
    }
}

/// Rows: the number of bytes that are left of a text after it is cut, and the offset of the first
/// item that is then missing or incomplete. An item is the mark, the horizon, a number, a ledger
/// item or an entry.
const CUT: &[(usize, u64)] = &[
    (0, 0),
    (3, 0),
    (4, 4),
    (5, 4),
    (6, 6),
    (13, 6),
    (14, 14),
    (32, 14),
    (33, 33),
    (40, 33),
    (41, 41),
    (310, 41),
];

/// Like `CUT`, for a text in the older format.
const OLD_CUT: &[(usize, u64)] = &[
    (0, 0),
    (3, 0),
    (4, 4),
    (11, 4),
    (12, 12),
    (30, 12),
    (31, 31),
    (38, 31),
    (39, 39),
    (308, 39),
];

/// Asserts that each of these calls refuses the first `bytes` bytes of a text, because they end
/// before the item at this offset is complete.
fn refuses_front(rt: &impl Abort, alloc: Global, ways: &[Ask], text: &[u8], bytes: usize, at: u64) {
    let front = text.get(..bytes).expect(rt, "a length");
    let found = fault(at, StateCause::Short);
    refuses_by(rt, alloc, ways, front, 1000, found);
}

/// For each of these rows, asserts that each of these calls refuses a text that is cut as the row
/// says.
fn refuses_cut(rt: &impl Abort, alloc: Global, ways: &[Ask], parts: Parts, cuts: &[(usize, u64)]) {
    let text = text_of_parts(rt, alloc, parts);
    for (bytes, at) in cuts {
        refuses_front(rt, alloc, ways, text.as_slice(), *bytes, *at);
    }
}

#[test]
fn states_that_are_cut(rt: HostRuntime) {
    refuses_cut(&rt, rt.alloc(), NEWER, MORNING_STATE, CUT);
    refuses_cut(&rt, rt.alloc(), OLDER, OLD_STATE, OLD_CUT);
}

#[test]
fn a_horizon_on_the_last_day(rt: HostRuntime) {
    let alloc = rt.alloc();
    let text = text_of_parts(&rt, alloc, MORNING_STATE);
    let raised = changed(&rt, alloc, text.as_slice(), 4, b"\x5b\xf5");
    let mut office = Office::new(alloc);
    let answer = office.receive(&mut Bytes::new(raised.as_slice(), 9), 311);
    same(&rt, answer, Ok(()));
    has_text(&rt, alloc, &office, raised.as_slice());
}
