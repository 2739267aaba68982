//! Devices that move one byte per call, and fail at the first call, then at the second, and so on.
ghost use Rattle.std.specs.Prelude.{◌<◌};

use super::compare::same;
use super::pieces::{FILE, JOINS, SECOND};
use super::{day, joined_text, known_state, known_text, place, state, text_is, written};
use cif_line::{Bytes, Failed, Fuse, Kept};
use docker_bytes::{
    ReadFault, StateCause, StateFault, join_state, migrate, read_excerpt, read_ledger, read_raised,
    read_state, write_state,
};
use docker_state::State;
use std::alloc::Global;
use std::process::Abort;
use test_records::files::JOIN;
use test_records::states::{HEAD, ITEM, MARK, OLD_MARK, OLD_STATE, ONE, PUT, TWO};
use test_records::{AA_JOIN, BS, LO, LT};

/// Asserts the result of writing a state to a sink that fails at one call, and the bytes that the
/// sink then has.
fn writes(
    rt: &impl Abort,
    alloc: Global,
    state: &State,
    call: u64,
    answer: Result<(), Failed>,
    bytes: &[u8],
)
    requires { 0 < call }
{
    let kept = Kept::new(alloc, 400).expect(rt, "room");
    let mut sink = Fuse::new(kept, call);
    same(rt, write_state(state, &mut sink), answer);
    same(rt, sink.device().bytes(), bytes);
}

/// Asserts that writing fails at this call, and that the sink has only the bytes of the calls
/// before it.
fn fails_to_write(rt: &impl Abort, alloc: Global, state: &State, known: &[u8], call: u64)
    requires { 0 < call }
{
    let front = known.get(..(call - 1) as usize).expect(rt, "a front");
    writes(rt, alloc, state, call, Err(Failed), front);
}

#[test]
fn a_sink_that_fails_has_the_bytes_before(rt: HostRuntime) {
    let alloc = rt.alloc();
    let state = known_state(&rt, alloc);
    let known = known_text(&rt, alloc);
    for call in 1..=311u64 {
        fails_to_write(&rt, alloc, &state, known.as_slice(), call);
    }
    writes(&rt, alloc, &state, 312, Ok(()), known.as_slice());
}

/// Asserts that neither a state, nor a state under another horizon, nor an excerpt, nor a ledger can
/// be read from a source that fails at this call. Each reader returns this fault.
fn reads_not(rt: &impl Abort, alloc: Global, text: &[u8], call: u64, fault: ReadFault)
    requires { 0 < call }
{
    let mut source = Fuse::new(Bytes::new(text, 4096), call);
    let read = read_state(alloc, &mut source, 1000).err();
    same(rt, read, Some(fault));
    let mut source = Fuse::new(Bytes::new(text, 4096), call);
    let read = read_excerpt(alloc, &mut source, place(rt), day(rt), 1000).err();
    same(rt, read, Some(fault));
    let mut source = Fuse::new(Bytes::new(text, 4096), call);
    let read = read_ledger(alloc, &mut source, 1000).err();
    same(rt, read, Some(fault));
    let mut source = Fuse::new(Bytes::new(text, 4096), call);
    let read = read_raised(alloc, &mut source, day(rt), 1000).err();
    same(rt, read, Some(fault));
}

/// Lets a state receive a text from a source that fails at this call.
fn received(alloc: Global, own: &mut State, text: &[u8], call: u64) -> Result<(), ReadFault>
    requires { 0 < call }
{
    let mut source = Fuse::new(Bytes::new(text, 4096), call);
    join_state(alloc, own, &mut source, 1000)
}

/// Asserts that a text is neither read nor received from a source that fails at this call. The
/// receiving state still has the text `before`.
fn fails_before(
    rt: &impl Abort,
    alloc: Global,
    own: &mut State,
    before: &[u8],
    text: &[u8],
    call: u64,
    fault: ReadFault,
)
    requires { 0 < call }
{
    reads_not(rt, alloc, text, call, fault);
    same(rt, received(alloc, own, text, call), Err(fault));
    text_is(rt, alloc, own, before);
}

/// Asserts that a text is neither read nor received from a source that fails at this call. The
/// receiving state is unchanged, and can then receive the text from a good source.
fn fails_at(rt: &impl Abort, alloc: Global, text: &[u8], call: u64, joined: &[u8])
    requires { 0 < call }
{
    let mut own = state(rt, alloc, JOIN);
    let before = written(rt, alloc, &own);
    let fault = ReadFault::Source;
    fails_before(rt, alloc, &mut own, before.bytes(), text, call, fault);
    let again = join_state(alloc, &mut own, &mut Bytes::new(text, 4096), 1000);
    same(rt, again, Ok(()));
    text_is(rt, alloc, &own, joined);
}

/// Asserts that a text is read and received from a source that would fail only after the last call.
fn passes(rt: &impl Abort, alloc: Global, text: &[u8], joined: &[u8]) {
    let mut source = Fuse::new(Bytes::new(text, 4096), 313);
    let state_read = read_state(alloc, &mut source, 1000).expect(rt, "a state");
    text_is(rt, alloc, &state_read, text);
    let mut own = state(rt, alloc, JOIN);
    same(rt, received(alloc, &mut own, text, 313), Ok(()));
    text_is(rt, alloc, &own, joined);
}

#[test]
fn a_source_that_fails_at_each_call(rt: HostRuntime) {
    let alloc = rt.alloc();
    let known = known_text(&rt, alloc);
    let known = known.as_slice();
    let entries: &[&[u8]] = &[JOINS, FILE, SECOND, PUT, AA_JOIN, HEAD, BS, LO, LT];
    let entries = joined_text(&rt, alloc, entries);
    let joined = joined_text(&rt, alloc, &[MARK, ONE, ITEM, TWO, entries.as_slice()]);
    for call in 1..=312u64 {
        fails_at(&rt, alloc, known, call, joined.as_slice());
    }
    passes(&rt, alloc, known, joined.as_slice());
}

/// The fault of reading a text with the wrong mark from a source that fails at this call. The mark
/// has four bytes.
fn fault_at(call: u64) -> ReadFault {
    if call < 5 {
        ReadFault::Source
    } else {
        let cause = StateCause::Mark;
        ReadFault::State(StateFault { at: 0, cause })
    }
}

#[test]
fn a_source_of_another_mark_that_fails(rt: HostRuntime) {
    let alloc = rt.alloc();
    let old = joined_text(&rt, alloc, &[OLD_MARK, ONE, ITEM]);
    let old = old.as_slice();
    let mut own = state(&rt, alloc, JOIN);
    let before = written(&rt, alloc, &own);
    let before = before.bytes();
    for call in 1..=5u64 {
        fails_before(&rt, alloc, &mut own, before, old, call, fault_at(call));
    }
}

/// Asserts that a text in the older format can't be migrated from a source that fails at this call.
fn migrates_not(rt: &impl Abort, alloc: Global, old: &[u8], call: u64)
    requires { 0 < call }
{
    let mut source = Fuse::new(Bytes::new(old, 4096), call);
    let fault = migrate(alloc, &mut source, 1000).err();
    same(rt, fault, Some(ReadFault::Source));
}

#[test]
fn an_old_source_that_fails_at_each_call(rt: HostRuntime) {
    let alloc = rt.alloc();
    let known = known_text(&rt, alloc);
    let old = joined_text(&rt, alloc, OLD_STATE);
    let old = old.as_slice();
    for call in 1..=310u64 {
        migrates_not(&rt, alloc, old, call);
    }
    let mut source = Fuse::new(Bytes::new(old, 4096), 311);
    let state = migrate(alloc, &mut source, 1000).expect(&rt, "a state");
    text_is(&rt, alloc, &state, known.as_slice());
}
