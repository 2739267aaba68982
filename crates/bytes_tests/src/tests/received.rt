//! States that receive texts. A refused text leaves the state unchanged.

use super::compare::same;
use super::endless::refused_each_way;
use super::pieces::AFTER;
use super::{at, joined_text, known_state, known_text, state, text_is, written};
use cif_line::{Bytes, Day, Failed, Source};
use docker_bytes::{ReadFault, StateCause, StateFault, join_state};
use docker_state::State;
use std::alloc::Global;
use std::process::Abort;
use test_records::files::JOIN;
use test_records::states::{HEAD, ITEM, LAPSED, MARK, ONE, REVISED_STATE, SCHEDULE_HEAD, TWO};
use test_records::{BS, LO, LT};

/// Asserts that an empty state, after it has received two texts, has the horizon 15 June and the
/// text `wanted`.
fn receives(rt: &impl Abort, alloc: Global, first: &[u8], second: &[u8], wanted: &[u8]) {
    let mut all = State::empty(alloc);
    let answer = join_state(alloc, &mut all, &mut Bytes::new(first, 7), 1000);
    same(rt, answer, Ok(()));
    let answer = join_state(alloc, &mut all, &mut Bytes::new(second, 7), 1000);
    same(rt, answer, Ok(()));
    same(rt, all.horizon(), 23542);
    text_is(rt, alloc, &all, wanted);
}

#[test]
fn a_horizon_received(rt: HostRuntime) {
    let alloc = rt.alloc();
    let mut later = known_state(&rt, alloc);
    let known = written(&rt, alloc, &later);
    later.set_horizon(Day::from_iso("2024-06-15").expect(&rt, "a day"));
    let pieces: &[&[u8]] = &[b"DKS2", AFTER, ONE, ITEM, ONE, SCHEDULE_HEAD, LAPSED];
    let lapsed = joined_text(&rt, alloc, pieces);
    let (known, lapsed) = (known.bytes(), lapsed.as_slice());
    text_is(&rt, alloc, &later, lapsed);
    receives(&rt, alloc, known, lapsed, lapsed);
    receives(&rt, alloc, lapsed, known, lapsed);
}

/// Asserts that the concatenation of these pieces is refused, and that a state that tries to
/// receive this text is unchanged.
fn refused(rt: &impl Abort, alloc: Global, pieces: &[&[u8]], limit: u64, fault: StateFault) {
    let text = joined_text(rt, alloc, pieces);
    refused_each_way(rt, alloc, text.as_slice(), limit, fault);
}

/// Asserts that a text is refused as too short if it is cut after its first `n` bytes, and that a
/// state that tries to receive these bytes is unchanged.
fn refused_front(rt: &impl Abort, alloc: Global, text: &[u8], n: usize) {
    let front = text.get(..n).expect(rt, "a front");
    refused(rt, alloc, &[front], 1000, at(60, StateCause::Short));
}

#[test]
fn what_is_refused_changes_nothing(rt: HostRuntime) {
    let alloc = rt.alloc();
    let text = joined_text(&rt, alloc, REVISED_STATE);
    let text = text.as_slice();
    refused(&rt, alloc, &[text, b"\0"], 1000, at(330, StateCause::Tail));
    refused(&rt, alloc, &[text], 329, at(329, StateCause::Long));
    refused(&rt, alloc, &[MARK, ONE], 1000, at(14, StateCause::Short));
    refused_front(&rt, alloc, text, 60);
    refused_front(&rt, alloc, text, 86);
    refused_front(&rt, alloc, text, 329);
    let twice: &[&[u8]] = &[MARK, ONE, ITEM, TWO, HEAD, BS, LO, LT, HEAD, BS, LO, LT];
    refused(&rt, alloc, twice, 1000, at(311, StateCause::Order));
}

/// A source that returns the bytes of `front`, and then fails.
#[derive(Drop)]
struct Broken<'a> {
    front: &'a [u8],
    failures: u64,
}

impl Source for Broken<'_> {
    ghost use Rattle.std.specs.Prelude.{None, false};

    ghost left = { λ _. None };

    ghost failures = { λ it. it.failures };

    ghost ended = { λ _. false };

    ghost passed = { λ _. false };

    fn read(&mut self, into: &mut [u8]) -> Result<usize, Failed> {
        let n = into.len().min(self.front.len());
        if n == 0 {
            self.failures += 1;
            return Err(Failed);
        }
        into[..n].copy_from_slice(&self.front[..n]);
        self.front = &self.front[n..];
        Ok(n)
    }

    fn failures(&self) -> u64 {
        self.failures
    }
}

#[test]
fn a_source_that_fails_changes_nothing(rt: HostRuntime) {
    let alloc = rt.alloc();
    let known = known_text(&rt, alloc);
    let mut own = state(&rt, alloc, JOIN);
    let before = written(&rt, alloc, &own);
    let mut source = Broken {
        front: known.as_slice(),
        failures: 0,
    };
    let fault = join_state(alloc, &mut own, &mut source, 1000);
    same(&rt, fault, Err(ReadFault::Source));
    text_is(&rt, alloc, &own, before.bytes());
}

/// Asserts that memory ran out, and that nothing was received.
fn is_empty(rt: &impl Abort, own: &State, fault: ReadFault) {
    same(rt, fault, ReadFault::Memory);
    same(rt, own.entries().len(), 0);
    same(rt, own.ledger().len(), 0);
}

#[test]
fn out_of_memory_changes_nothing(rt: HostRuntime) {
    let alloc = rt.alloc();
    let known = known_text(&rt, alloc);
    let mut own = State::empty(alloc);
    match join_state(alloc, &mut own, &mut Bytes::new(known.as_slice(), 64), 311) {
        Ok(()) => same(&rt, own.entries().len(), 1),
        Err(fault) => is_empty(&rt, &own, fault),
    }
}
