ghost use Rattle.std.specs.Prelude.{◌<◌};

use self::compare::same;
use cif_file::read_pieces;
use cif_line::{Bytes, Day, Kept, Tiploc};
use docker_bytes::{
    ReadFault, StateCause, StateFault, StateParser, Step, encoded_len, read_excerpt, read_ledger,
    read_raised, read_state, write_state,
};
use docker_state::{Merge, State};
use pieces::{HEAD_OF_NO_FILE, HEAD_OF_NO_OP, HEAD_OF_NO_TAG, ITEM_LATE, MOST};
use std::alloc::Global;
use std::process::Abort;
use test_records::files::{DELETION, EIGHTH, JOIN, MORNING, PLACE, RENAMED};
use test_records::states::{HEAD, ITEM, ITEM_5A, ITEM_7B, MARK, MORNING_STATE, OLD_MARK, ONE, TWO};
use test_records::{BS, BS_REVISED, LO, LT, text};

mod compare;
mod endless;
mod failing;
mod horizons;
mod indexes;
mod merged;
mod migrated;
mod parts;
mod pieces;
mod received;

/// The concatenation of these pieces.
fn joined_text(rt: &impl Abort, alloc: Global, pieces: &[&[u8]]) -> Vec<u8> {
    text(alloc, pieces, b"").expect(rt, "room")
}

/// The state of a file with these records.
fn state(rt: &impl Abort, alloc: Global, records: &[&[u8]]) -> State {
    let text = text(alloc, records, b"\n").expect(rt, "room");
    let file = read_pieces(alloc, &[text.as_slice()], 1000).expect(rt, "a file");
    State::of_file(alloc, file).expect(rt, "room")
}

/// The join of two states.
fn join(rt: &impl Abort, alloc: Global, one: State, other: State) -> State {
    one.join(alloc, other).expect(rt, "room")
}

/// The text that is written for a state.
fn written(rt: &impl Abort, alloc: Global, state: &State) -> Kept {
    let mut kept = Kept::new(alloc, 1000).expect(rt, "room");
    same(rt, write_state(state, &mut kept), Ok(()));
    kept
}

/// Asserts that a state has this text.
fn text_is(rt: &impl Abort, alloc: Global, state: &State, wanted: &[u8]) {
    let text = written(rt, alloc, state);
    same(rt, text.bytes(), wanted);
}

/// Reads the state of a text, `step` bytes at a time.
fn read(rt: &impl Abort, alloc: Global, text: &[u8], step: usize, limit: u64) -> State
    requires { 0 < step }
{
    let mut source = Bytes::new(text, step);
    read_state(alloc, &mut source, limit).expect(rt, "a state")
}

/// Reads the ledger of a state's text, `step` bytes at a time, and returns the number of files in
/// the ledger.
fn files_in(rt: &impl Abort, alloc: Global, text: &[u8], step: usize, limit: u64) -> usize
    requires { 0 < step }
{
    let mut source = Bytes::new(text, step);
    let ledger = read_ledger(alloc, &mut source, limit).expect(rt, "a state");
    ledger.items().len()
}

/// The text of the state `known_state`. The text has 311 bytes.
fn known_text(rt: &impl Abort, alloc: Global) -> Vec<u8> {
    joined_text(rt, alloc, MORNING_STATE)
}

/// The state of a file of 9 June that puts the schedule of C10001.
fn known_state(rt: &impl Abort, alloc: Global) -> State {
    state(rt, alloc, MORNING)
}

/// Asserts that the text of a state has `len` bytes, and that reading the text returns an equal
/// state.
fn goes_round(rt: &impl Abort, alloc: Global, state: &State, len: usize, step: usize)
    requires { 0 < step }
{
    let text = written(rt, alloc, state);
    same(rt, text.bytes().len(), len);
    same(rt, encoded_len(state), len as u128);
    let again = read(rt, alloc, text.bytes(), step, len as u64);
    text_is(rt, alloc, &again, text.bytes());
    let files = files_in(rt, alloc, text.bytes(), step, len as u64);
    same(rt, files, state.ledger().len());
    let mut source = Bytes::new(text.bytes(), step);
    let excerpt = read_excerpt(alloc, &mut source, place(rt), day(rt), len as u64);
    same(rt, excerpt.is_ok(), true);
}

#[test]
fn the_text_of_a_schedule(rt: HostRuntime) {
    let alloc = rt.alloc();
    let state = known_state(&rt, alloc);
    let known = known_text(&rt, alloc);
    text_is(&rt, alloc, &state, known.as_slice());
    goes_round(&rt, alloc, &state, 311, 1);
    goes_round(&rt, alloc, &state, 311, 4096);
}

#[test]
fn the_text_of_nothing(rt: HostRuntime) {
    let alloc = rt.alloc();
    let empty = State::empty(alloc);
    let wanted = b"DKS2\0\0\0\0\0\0\0\0\0\0\0\0\0\0\0\0\0\0";
    text_is(&rt, alloc, &empty, wanted);
    goes_round(&rt, alloc, &empty, 22, 3);
}

#[test]
fn texts_of_each_kind_of_entry(rt: HostRuntime) {
    let alloc = rt.alloc();
    let deletion = state(&rt, alloc, DELETION);
    let before = state(&rt, alloc, EIGHTH);
    let deleted = join(&rt, alloc, deletion, before);
    goes_round(&rt, alloc, &deleted, 86, 1);
    let place = state(&rt, alloc, PLACE);
    let amended = state(&rt, alloc, RENAMED);
    let renamed = join(&rt, alloc, place, amended);
    goes_round(&rt, alloc, &renamed, 171, 7);
    let associated = state(&rt, alloc, JOIN);
    goes_round(&rt, alloc, &associated, 161, 1);
}

#[test]
fn a_full_sink_has_a_beginning(rt: HostRuntime) {
    let alloc = rt.alloc();
    let state = known_state(&rt, alloc);
    let known = known_text(&rt, alloc);
    let mut kept = Kept::new(alloc, 20).expect(&rt, "room");
    same(&rt, write_state(&state, &mut kept).is_err(), true);
    let front = known.as_slice().get(..20).expect(&rt, "20 bytes");
    same(&rt, kept.bytes(), front);
}

/// The fault with this offset and this cause.
fn at(at: u64, cause: StateCause) -> StateFault {
    StateFault { at, cause }
}

/// The fault that a parser returns when it is fed a piece, which begins at this offset. If bytes of
/// the piece follow the state, the function returns the fault `Tail`.
fn fault_in(parser: &mut StateParser, piece: &[u8], begins: u64) -> Option<StateFault> {
    match parser.feed(piece) {
        Ok((used, _)) if used < piece.len() => {
            let end = begins.saturating_add(used as u64);
            Some(at(end, StateCause::Tail))
        }
        Ok(_) => None,
        Err(fault) => Some(fault),
    }
}

/// The fault that a parser returns when it is fed a text, `step` bytes at a time. If bytes follow
/// the state, the function returns the fault `Tail`.
fn fault_fed(alloc: Global, text: &[u8], limit: u64, step: usize) -> Option<StateFault>
    requires { 0 < step }
{
    let mut parser = StateParser::new(alloc, limit);
    let mut begins: u64 = 0;
    for piece in text.chunks(step) {
        let fault = fault_in(&mut parser, piece, begins);
        if fault.is_some() {
            return fault;
        }
        begins = begins.saturating_add(piece.len() as u64);
    }
    parser.finish().err()
}

/// The timing point for which excerpts are read.
fn place(rt: &impl Abort) -> Tiploc {
    Tiploc::from_text("ASHFELD").expect(rt, "a TIPLOC")
}

/// The day for which excerpts are read.
fn day(rt: &impl Abort) -> Day {
    Day::from_iso("2024-06-15").expect(rt, "a day")
}

/// Asserts that a text has this fault with this limit, both when it is read and when a parser is
/// fed the text `step` bytes at a time.
fn refused_by(
    rt: &impl Abort,
    alloc: Global,
    text: &[u8],
    limit: u64,
    fault: StateFault,
    step: usize,
)
    requires { 0 < step }
{
    let mut source = Bytes::new(text, step);
    let read = read_state(alloc, &mut source, limit).err();
    same(rt, read, Some(ReadFault::State(fault)));
    same(rt, fault_fed(alloc, text, limit, step), Some(fault));
    let mut source = Bytes::new(text, step);
    let read = read_excerpt(alloc, &mut source, place(rt), day(rt), limit).err();
    same(rt, read, Some(ReadFault::State(fault)));
    let mut source = Bytes::new(text, step);
    let read = read_ledger(alloc, &mut source, limit).err();
    same(rt, read, Some(ReadFault::State(fault)));
    let mut source = Bytes::new(text, step);
    let read = read_raised(alloc, &mut source, day(rt), limit).err();
    same(rt, read, Some(ReadFault::State(fault)));
}

/// Asserts that every reader with this limit refuses the concatenation of these pieces with this
/// fault.
fn refused(rt: &impl Abort, alloc: Global, pieces: &[&[u8]], limit: u64, fault: StateFault) {
    let text = joined_text(rt, alloc, pieces);
    refused_by(rt, alloc, text.as_slice(), limit, fault, 1);
    refused_by(rt, alloc, text.as_slice(), limit, fault, 4096);
}

/// The pieces of a text that is refused, and the offset and cause of the text's fault.
type Row = (&'static [&'static [u8]], u64, StateCause);

/// The offsets at which the items of a state's text begin. The state has one file and one schedule.
/// If the text is cut, its fault is at one of these offsets.
const BEGINNINGS: [u64; 6] = [0, 4, 6, 14, 33, 41];

/// The greatest of the offsets `places` that isn't above `len`. The offsets ascend from 0.
fn last_place(places: &[u64], len: usize) -> u64 {
    let mut last = 0;
    for place in places {
        if *place <= len as u64 {
            last = *place;
        }
    }
    last
}

/// Texts with a fault in the mark or in the ledger.
const LEDGERS: &[Row] = &[
    (&[OLD_MARK, ONE], 0, StateCause::Mark),
    (&[b"DKS"], 0, StateCause::Short),
    (&[MARK, ONE, ITEM_LATE], 14, StateCause::Item),
    (&[MARK, TWO, ITEM, ITEM], 33, StateCause::Order),
    (&[MARK, TWO, ITEM_5A, ITEM_7B], 33, StateCause::Floor),
    (&[MARK, MOST, ITEM_5A], 33, StateCause::Short),
];

#[test]
fn faults_of_the_ledger(rt: HostRuntime) {
    let alloc = rt.alloc();
    for (pieces, place, cause) in LEDGERS {
        refused(&rt, alloc, pieces, 1000, at(*place, *cause));
    }
    refused(&rt, alloc, &[b"XYZ"], 3, at(0, StateCause::Short));
    refused(&rt, alloc, &[b"XYZ"], 2, at(2, StateCause::Long));
}

/// Texts with a fault in an entry.
const ENTRIES: &[Row] = &[
    (
        &[MARK, ONE, ITEM, ONE, HEAD_OF_NO_TAG, BS, LO, LT],
        41,
        StateCause::Tag,
    ),
    (
        &[MARK, ONE, ITEM, ONE, HEAD_OF_NO_FILE, BS, LO, LT],
        41,
        StateCause::Stamp,
    ),
    (
        &[MARK, ONE, ITEM, ONE, HEAD_OF_NO_OP, BS, LO, LT],
        41,
        StateCause::Body,
    ),
    (
        &[MARK, ONE, ITEM, ONE, HEAD, BS_REVISED, LO, LT],
        41,
        StateCause::Body,
    ),
    (
        &[MARK, ONE, ITEM, ONE, HEAD, BS, LT, LO],
        41,
        StateCause::Body,
    ),
    (
        &[MARK, ONE, ITEM, TWO, HEAD, BS, LO, LT, HEAD, BS, LO, LT],
        311,
        StateCause::Order,
    ),
    (
        &[MARK, ONE, ITEM, MOST, HEAD, BS, LO, LT],
        311,
        StateCause::Short,
    ),
];

#[test]
fn faults_of_an_entry(rt: HostRuntime) {
    let alloc = rt.alloc();
    for (pieces, place, cause) in ENTRIES {
        refused(&rt, alloc, pieces, 1000, at(*place, *cause));
    }
}

/// Asserts that each proper prefix of a text is refused because it is too short. The text's items
/// begin at `places`.
fn refused_fronts(rt: &impl Abort, alloc: Global, text: &[u8], places: &[u64]) {
    for (n, _) in text.iter().enumerate() {
        let fault = at(last_place(places, n), StateCause::Short);
        refused(rt, alloc, &[&text[..n]], 1000, fault);
    }
}

#[test]
fn faults_of_length(rt: HostRuntime) {
    let alloc = rt.alloc();
    let known = known_text(&rt, alloc);
    let known = known.as_slice();
    let tail = at(311, StateCause::Tail);
    refused(&rt, alloc, &[known, b"\0"], 1000, tail);
    refused(&rt, alloc, &[known, b"\0"], 311, tail);
    refused(&rt, alloc, &[known], 310, at(310, StateCause::Long));
    refused_fronts(&rt, alloc, known, &BEGINNINGS);
}

/// Asserts that a parser that is fed a state's text and one more byte uses only the state's bytes.
fn uses_the_state(rt: &impl Abort, alloc: Global, known: &[u8]) {
    let longer = joined_text(rt, alloc, &[known, b"\0"]);
    let mut parser = StateParser::new(alloc, 1000);
    same(rt, parser.feed(longer.as_slice()), Ok((311, Step::Done)));
    same(rt, parser.feed(longer.as_slice()), Ok((0, Step::Done)));
    let state = parser.finish().expect(rt, "a state");
    text_is(rt, alloc, &state, known);
}

#[test]
fn a_parser_uses_only_the_bytes_of_the_state(rt: HostRuntime) {
    let alloc = rt.alloc();
    let known = known_text(&rt, alloc);
    uses_the_state(&rt, alloc, known.as_slice());
    let mut parser = StateParser::new(alloc, 1000);
    let front = known.as_slice().get(..310).expect(&rt, "310 bytes");
    same(&rt, parser.feed(front), Ok((310, Step::More)));
    let short = at(41, StateCause::Short);
    same(&rt, parser.finish().err(), Some(short));
}

#[test]
fn a_fault_is_reported_again(rt: HostRuntime) {
    let mut parser = StateParser::new(rt.alloc(), 1000);
    let fault = at(0, StateCause::Mark);
    same(&rt, parser.feed(b"DKS1"), Err(fault));
    same(&rt, parser.feed(b"DKS2"), Err(fault));
    same(&rt, parser.finish().err(), Some(fault));
}

/// Asserts that the cause of a parser's fault is `Memory`, and that the fault is at the ledger item
/// or at the entry. The parser returns the same fault again.
fn runs_out_of_memory(rt: &impl Abort, parser: &mut StateParser, known: &[u8], fault: StateFault) {
    same(rt, fault.cause, StateCause::Memory);
    same(rt, fault.at == 14 || fault.at == 41, true);
    same(rt, parser.feed(known), Err(fault));
}

/// Asserts that a parser that is fed a text takes the text, or runs out of memory.
fn fed_or_out_of_memory(rt: &impl Abort, alloc: Global, known: &[u8]) {
    let mut parser = StateParser::new(alloc, 1000);
    match parser.feed(known) {
        Ok(answer) => same(rt, answer, (311, Step::Done)),
        Err(fault) => runs_out_of_memory(rt, &mut parser, known, fault),
    }
}

/// Asserts that a text is read, or that memory runs out.
fn read_or_out_of_memory(rt: &impl Abort, alloc: Global, known: &[u8]) {
    match read_state(alloc, &mut Bytes::new(known, 64), 311) {
        Ok(state) => same(rt, encoded_len(&state), 311),
        Err(fault) => same(rt, fault, ReadFault::Memory),
    }
}

#[test]
fn out_of_memory_names_its_item(rt: HostRuntime) {
    let known = known_text(&rt, rt.alloc());
    fed_or_out_of_memory(&rt, rt.alloc(), known.as_slice());
    read_or_out_of_memory(&rt, rt.alloc(), known.as_slice());
}
