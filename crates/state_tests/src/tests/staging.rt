//! Receiving another state, entry by entry.
ghost use Rattle.std.specs.Prelude.{◌≡◌, ◌++◌, [], map};
ghost use Rattle.docker_model.specs.state.Stamp.{IsFloor};
ghost use Rattle.docker_model.specs.state.State.{AreEntries, IsGoodEntry};
ghost use Rattle.cif_change.specs.Meaning.{key_meant};
ghost use Rattle.docker_join.specs.Meaning.{entry_meant, op_meant, row_meant};
ghost use Rattle.docker_state.specs.Staging.{IsAboveStaged, IsOffered};

use super::compare::same;
use super::files::REVISED;
use super::{pair, state, state_is};
use cif_file::{Body, Key, Lines};
use docker_join::{Entry, Op};
use docker_state::{Staging, State};
use std::alloc::Global;
use std::process::Abort;
use test_records::files::{FIFTH, MORNING, REVISION, SEVENTH};
use test_records::{BS_C10002, LO_1000, LT_1030};

/// A copy of this op.
fn copied(rt: &impl Abort, alloc: Global, op: &Op) -> Op
    ensures { op_meant result ≡ op_meant op.now }
{
    match op {
        Op::Deleted => Op::Deleted,
        Op::Lapsed => Op::Lapsed,
        Op::Put(Body::Tiploc(details)) => Op::Put(Body::Tiploc(*details)),
        Op::Put(Body::Assoc(line)) => Op::Put(Body::Assoc(*line)),
        Op::Put(Body::Schedule(lines)) => {
            let lines = Vec::from_slice(alloc, lines.as_slice()).expect(rt, "memory");
            Op::Put(Body::Schedule(Lines::of(lines)))
        }
    }
}

/// Offers `own` a copy of this entry for staging.
fn offer(rt: &impl Abort, alloc: Global, own: &State, staging: &mut Staging, row: &(Key, Entry))
    requires floor { IsFloor (own.now.ledger ++ staging.old.items) staging.old.floor }
    requires above { IsAboveStaged staging.old.staged (key_meant row.now.0) }
    requires good { IsGoodEntry staging.old.items (row_meant row.now) }
    ensures { IsOffered own.now staging.old (key_meant row.now.0) (entry_meant row.now.1)
        staging.new }
{
    let stamp = row.1.stamp;
    let op = copied(rt, alloc, &row.1.op);
    staging
        .offer(own, row.0, Entry { stamp, op })
        .expect(rt, "memory");
}

/// Offers `own` copies of these entries for staging, one by one.
fn offer_all(
    rt: &impl Abort,
    alloc: Global,
    own: &State,
    staging: &mut Staging,
    rows: &[(Key, Entry)],
)
    requires floor { IsFloor (own.now.ledger ++ staging.old.items) staging.old.floor }
    requires none { staging.old.staged ≡ [] }
    requires rows { AreEntries staging.old.items (map row_meant rows.now) }
    ensures { IsFloor (own.now.ledger ++ staging.new.items) staging.new.floor }
{
    let mut rest = rows;
    while let Some((row, behind)) = rest.split_first() {
        offer(rt, alloc, own, staging, row);
        rest = behind;
    }
}

/// Receives another state entry by entry and commits. Returns how many entries were staged before
/// the commit.
fn receive(rt: &impl Abort, alloc: Global, own: &mut State, other: &State) -> u64 {
    let ledger = Vec::from_slice(alloc, other.ledger()).expect(rt, "memory");
    let mut staging = Staging::new(alloc, own, ledger).expect(rt, "memory");
    offer_all(rt, alloc, own, &mut staging, other.entries());
    let count = staging.len();
    own.commit(staging).expect(rt, "memory");
    count
}

/// Receives another state into `own`. Asserts how many entries were staged, and how `own` is shown
/// after the commit.
fn receive_is(
    rt: &impl Abort,
    alloc: Global,
    own: &mut State,
    received: &State,
    wanted: u64,
    lines: &[&[u8]],
) {
    same(rt, receive(rt, alloc, own, received), wanted);
    state_is(rt, alloc, own, lines);
}

/// Receives the state of a file into `own` twice. Asserts how many entries are staged the first
/// time, and that no entry is staged the second time. Also asserts how `own` is shown after each
/// time.
fn received_is(
    rt: &impl Abort,
    alloc: Global,
    mut own: State,
    file: &[&[u8]],
    wanted: u64,
    lines: &[&[u8]],
) {
    let received = state(rt, alloc, file);
    receive_is(rt, alloc, &mut own, &received, wanted, lines);
    receive_is(rt, alloc, &mut own, &received, 0, lines);
}

/// What is shown for a state whose ledger has only the full extract `SEVENTH`.
const EXTRACT_ONLY: &[&[u8]] = &[
    b"item 23534 1260 DFROC1B F DFROC1A",
    b"floor 23534 1260 DFROC1B",
    b"C10002 23537: record 2 of 23534 1260 DFROC1B",
    BS_C10002,
    LO_1000,
    LT_1030,
    b"live C10002 23537",
    BS_C10002,
    LO_1000,
    LT_1030,
];

#[test]
fn staging(rt: HostRuntime) {
    let alloc = rt.alloc();
    let morning = state(&rt, alloc, MORNING);
    received_is(&rt, alloc, morning, REVISION, 1, REVISED);
    let both = pair(&rt, alloc, MORNING, REVISION);
    received_is(&rt, alloc, both, MORNING, 0, REVISED);
    let extract = state(&rt, alloc, SEVENTH);
    received_is(&rt, alloc, extract, FIFTH, 0, EXTRACT_ONLY);
    let update = state(&rt, alloc, FIFTH);
    received_is(&rt, alloc, update, SEVENTH, 1, EXTRACT_ONLY);
}
