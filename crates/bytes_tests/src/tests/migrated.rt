//! Migrates texts in the older format, which has no horizon.
ghost use Rattle.std.specs.Prelude.{◌-◌, ◌^◌, ◌<◌};

use super::compare::same;
use super::pieces::{HEAD_LAPSED, HEAD_OF_NO_FILE, HEAD_OF_NO_TAG, ITEM_LATE, MOST};
use super::{Row, at, joined_text, known_text, last_place, text_is};
use cif_line::{Bytes, Source};
use docker_bytes::{ReadFault, StateCause, StateFault, migrate};
use std::alloc::Global;
use std::process::Abort;
use test_records::states::{HEAD, ITEM, ITEM_5A, ITEM_7B, OLD_MARK, OLD_STATE, ONE, TWO};
use test_records::{BS, BS_REVISED, LO, LT};

/// The text of the state `known_state`, in the older format. The text has 309 bytes.
fn old_text(rt: &impl Abort, alloc: Global) -> Vec<u8> {
    joined_text(rt, alloc, OLD_STATE)
}

/// The offsets at which the items of the text in the older format begin. If the text is cut, its
/// fault is at one of these offsets.
const BEGINNINGS: [u64; 5] = [0, 4, 12, 31, 39];

/// Asserts that the text of a source can't be migrated, because of this fault.
pub(super) fn refused_old_source<S: Source>(
    rt: &impl Abort,
    alloc: Global,
    source: &mut S,
    limit: u64,
    fault: StateFault,
)
    requires { S.failures source.old < 2 ^ 64 - 1 }
{
    let read = migrate(alloc, source, limit).err();
    same(rt, read, Some(ReadFault::State(fault)));
}

/// Asserts that the concatenation of these pieces can't be migrated, because of this fault.
pub(super) fn refused_old(
    rt: &impl Abort,
    alloc: Global,
    pieces: &[&[u8]],
    limit: u64,
    fault: StateFault,
) {
    let text = joined_text(rt, alloc, pieces);
    let text = text.as_slice();
    refused_old_source(rt, alloc, &mut Bytes::new(text, 1), limit, fault);
    refused_old_source(rt, alloc, &mut Bytes::new(text, 7), limit, fault);
    refused_old_source(rt, alloc, &mut Bytes::new(text, 4096), limit, fault);
}

/// Asserts that a text in the older format, read `step` bytes at a time, is migrated to a state
/// with the text `known` in the current format.
fn gives(rt: &impl Abort, alloc: Global, old: &[u8], known: &[u8], step: usize)
    requires { 0 < step }
{
    let mut source = Bytes::new(old, step);
    let state = migrate(alloc, &mut source, 309).expect(rt, "a state");
    same(rt, state.horizon(), 0);
    text_is(rt, alloc, &state, known);
}

#[test]
fn an_old_text_gives_its_state(rt: HostRuntime) {
    let alloc = rt.alloc();
    let old = old_text(&rt, alloc);
    let known = known_text(&rt, alloc);
    same(&rt, old.len(), 309);
    gives(&rt, alloc, old.as_slice(), known.as_slice(), 1);
    gives(&rt, alloc, old.as_slice(), known.as_slice(), 4096);
}

/// Asserts that no proper prefix of a text can be migrated, because the prefix is too short.
fn refused_fronts(rt: &impl Abort, alloc: Global, text: &[u8]) {
    for (n, _) in text.iter().enumerate() {
        let fault = at(last_place(&BEGINNINGS, n), StateCause::Short);
        refused_old(rt, alloc, &[&text[..n]], 1000, fault);
    }
}

#[test]
fn old_texts_of_a_wrong_length(rt: HostRuntime) {
    let alloc = rt.alloc();
    let old = old_text(&rt, alloc);
    let old = old.as_slice();
    let tail = at(309, StateCause::Tail);
    refused_old(&rt, alloc, &[old, b"\0"], 1000, tail);
    let long = at(308, StateCause::Long);
    refused_old(&rt, alloc, &[old], 308, long);
    refused_fronts(&rt, alloc, old);
}

/// Texts that can't be migrated because of a fault in the mark or in the ledger.
const LEDGERS: &[Row] = &[
    (
        &[b"DKS2", ONE, ITEM, ONE, HEAD, BS, LO, LT],
        0,
        StateCause::Mark,
    ),
    (
        &[OLD_MARK, ONE, ITEM_LATE, ONE, HEAD, BS, LO, LT],
        12,
        StateCause::Item,
    ),
    (
        &[OLD_MARK, TWO, ITEM, ITEM, ONE, HEAD, BS, LO, LT],
        31,
        StateCause::Order,
    ),
    (&[OLD_MARK, TWO, ITEM_5A, ITEM_7B], 31, StateCause::Floor),
];

#[test]
fn old_texts_with_a_bad_ledger(rt: HostRuntime) {
    let alloc = rt.alloc();
    let known = known_text(&rt, alloc);
    let mark = at(0, StateCause::Mark);
    refused_old(&rt, alloc, &[known.as_slice()], 1000, mark);
    for (pieces, place, cause) in LEDGERS {
        refused_old(&rt, alloc, pieces, 1000, at(*place, *cause));
    }
}

/// Texts that can't be migrated because of a fault in an entry.
const ENTRIES: &[Row] = &[
    (
        &[OLD_MARK, ONE, ITEM, ONE, HEAD_OF_NO_TAG, BS, LO, LT],
        39,
        StateCause::Tag,
    ),
    (
        &[OLD_MARK, ONE, ITEM, ONE, HEAD_OF_NO_FILE, BS, LO, LT],
        39,
        StateCause::Stamp,
    ),
    (
        &[OLD_MARK, ONE, ITEM, ONE, HEAD_LAPSED, BS, LO, LT],
        39,
        StateCause::Body,
    ),
    (
        &[OLD_MARK, ONE, ITEM, ONE, HEAD, BS_REVISED, LO, LT],
        39,
        StateCause::Body,
    ),
    (
        &[OLD_MARK, ONE, ITEM, TWO, HEAD, BS, LO, LT, HEAD, BS, LO, LT],
        309,
        StateCause::Order,
    ),
    (
        &[OLD_MARK, ONE, ITEM, MOST, HEAD, BS, LO, LT],
        309,
        StateCause::Short,
    ),
];

#[test]
fn old_texts_with_a_bad_entry(rt: HostRuntime) {
    for (pieces, place, cause) in ENTRIES {
        refused_old(&rt, rt.alloc(), pieces, 1000, at(*place, *cause));
    }
}
