//! States that are built from ledger items and entries, added one by one.

use super::compare::same;
use super::{shown, shown_again, state};
use cif_file::Key;
use docker_join::{Entry, Op};
use docker_state::{LedgerItem, Parts, State};
use std::alloc::Global;
use std::process::Abort;
use test_records::files::DELETED;

/// Asserts that the entry added last has this key. For `None`, asserts that no entry was added.
fn last_is(rt: &impl Abort, parts: &Parts, wanted: Option<Key>) {
    same(rt, parts.last().copied(), wanted);
}

/// Asserts that exactly these ledger items were added.
fn ledger_is(rt: &impl Abort, parts: &Parts, wanted: &[LedgerItem]) {
    assert_eq!(rt; parts.ledger(), wanted);
}

/// Takes a state with one ledger item and one deletion, and builds it again from this item and this
/// deletion.
fn rebuilt(rt: &impl Abort, alloc: Global, one: &State) -> State {
    let (items, rows) = (one.ledger(), one.entries());
    if items.len() != 1 {
        panic!(rt; "one item");
    }
    if rows.len() != 1 {
        panic!(rt; "one entry");
    }
    let (item, row) = (items[0], &rows[0]);
    let mut parts = Parts::new(alloc);
    last_is(rt, &parts, None);
    same(rt, parts.ledger().is_empty(), true);
    parts.item(item).expect(rt, "memory");
    last_is(rt, &parts, None);
    ledger_is(rt, &parts, items);
    let stamp = row.1.stamp;
    let op = Op::Deleted;
    parts.entry(row.0, Entry { stamp, op }).expect(rt, "memory");
    last_is(rt, &parts, Some(row.0));
    parts.finish().expect(rt, "memory")
}

#[test]
fn parts(rt: HostRuntime) {
    let alloc = rt.alloc();
    let one = state(&rt, alloc, DELETED);
    let again = rebuilt(&rt, alloc, &one);
    let before = shown(&rt, alloc, &one);
    shown_again(&rt, alloc, &again, before.as_slice());
}
