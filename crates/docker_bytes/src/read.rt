//! Reads the state that a source holds.
ghost use Rattle.std.specs.Prelude.{◌≡◌, ◌≢◌, ℕ, ◌-◌, ◌^◌, ◌<◌, List, [], ◌++◌, length, IsOk, Err, Some};
ghost use Rattle.cif_device.specs.Device.{IsNotPassed};
ghost use Rattle.docker_model.specs.state.StateText.{dks_2};
ghost use Rattle.docker_model.specs.state.StateText as formats;
ghost use Rattle.state_text.specs.FormatMeaning.{format_meant};
ghost use Rattle.docker_bytes.specs.ParserRead.{HasRead, IsUnread};
ghost use Rattle.docker_bytes.specs.ReadEnds.{EndsReading, EndsReadingBy, EndsText, as_it_is};
ghost use Rattle.docker_bytes.specs.ReadFaultText.{read_fault_text};
ghost use Rattle.docker_bytes.specs.SourceRead.{IsFaultOf, ReadsAll, ReadsMade, ReadsState, WantsSoFar};
ghost use Rattle.docker_bytes.specs.StateReading.{format_of, IsMadeOf, IsWanting};
ghost use Rattle.docker_bytes.specs.StateTaken.{RefusesPart, StateSettings, TakesState, taken_is_bounded};

use crate::fault::StateFault;
use crate::parser::Parser;
use cif_line::{FeedFault, Source, Taker, feed_all};
use state_text::format::Format;
use state_text::{Indexing, Maker, PartKeeper, State, StateCause, Whole};
use std::alloc::Global;
use std::error::Error;
use std::fmt;

/// Why no state was read.
#[derive(Clone, Copy, PartialEq, Eq, Debug)]
pub enum ReadFault {
    /// The source failed.
    Source,
    /// The bytes that the source holds aren't the text of a state. The cause is never `Memory`.
    State(StateFault),
    /// Out of memory: the allocator refused a request. No part that was judged before memory ran
    /// out is bad.
    Memory,
}

impl fmt::Display for ReadFault {
    ghost output = { λ fault. Some (read_fault_text fault) };

    fn fmt<W: fmt::Write>(&self, f: &mut fmt::Formatter<W>) -> fmt::Result {
        match self {
            ReadFault::Source => f.write_str("the source failed"),
            ReadFault::State(fault) => write!(f, "{fault}"),
            ReadFault::Memory => f.write_str("want of memory"),
        }
    }
}

impl Error for ReadFault {}

/// Reads a source to its end, or to the first fault, and returns the state whose text the source
/// held, with an index. The call reads pieces of at most 65,536 bytes, and nothing after the piece
/// that determines the result. So if a source never ends, the call reads at most up to the piece
/// that contains the byte at offset `limit`.
pub fn read_state<S: Source>(alloc: Global, source: &mut S, limit: u64) -> Result<State, ReadFault>
    requires { S.failures source.old < 2 ^ 64 - 1 }
    ensures reads { EndsReading S.left S.failures dks_2 limit
        (ReadsState dks_2 limit (S.left source.old)) source.old source.new result }
    ensures not_passed { IsNotPassed (S.ended source.old)
        (S.passed source.old) (S.passed source.new) }
{
    read_format(alloc, Format::Dks2, Indexing::new(alloc), source, limit)
}

/// Like `read_state`, but reads a text in the given format, and the state has no index. So reading
/// takes less time and memory, and the rows for a place are found by a walk over all rows.
pub fn read_unindexed<S: Source>(
    alloc: Global,
    format: Format,
    source: &mut S,
    limit: u64,
) -> Result<State, ReadFault>
    requires { S.failures source.old < 2 ^ 64 - 1 }
    ensures reads { EndsReading S.left S.failures (format_meant format) limit
        (ReadsState (format_meant format) limit (S.left source.old)) source.old source.new result }
    ensures not_passed { IsNotPassed (S.ended source.old)
        (S.passed source.old) (S.passed source.new) }
{
    read_format(alloc, format, Whole::new(alloc), source, limit)
}

/// Like `read_state`, but reads a text in the given format. Passes the parts to `keeper`, which
/// hasn't been given any part yet. Returns the value that the keeper makes from the parts.
pub(crate) fn read_format<S: Source, K: Maker>(
    alloc: Global,
    format: Format,
    keeper: K,
    source: &mut S,
    limit: u64,
) -> Result<K::Made, ReadFault>
    requires failures { S.failures source.old < 2 ^ 64 - 1 }
    requires none { K.given keeper ≡ record { horizon = 0; ledger = []; entries = [] } }
    ensures reads { EndsReading S.left S.failures (format_meant format) limit
        (ReadsMade K.makes (format_meant format) limit (S.left source.old))
        source.old source.new result }
    ensures not_passed { IsNotPassed (S.ended source.old)
        (S.passed source.old) (S.passed source.new) }
{
    let mut parser = Parser::new(alloc, format, limit, keeper);
    read_pieces(alloc, source, &mut parser)?;
    finish(parser)
}

/// Feeds all bytes of a source to a parser that has read no bytes yet, in pieces of at most 65,536
/// bytes. If a byte follows the state, the result is the fault `Tail`.
pub(crate) fn read_pieces<S: Source, K: PartKeeper>(
    alloc: Global,
    source: &mut S,
    parser: &mut Parser<K>,
) -> Result<(), ReadFault>
    requires failures { S.failures source.old < 2 ^ 64 - 1 }
    requires unread { IsUnread parser.old }
    requires limit { parser.old.reading.limit < 2 ^ 64 }
    ensures reads { EndsReadingBy WantsSoFar as_it_is S.left S.failures
        (format_of parser.old.reading) parser.old.reading.limit
        (λ _. ReadsAll (format_of parser.old.reading) parser.old.reading.limit (S.left source.old)
        parser.new) source.old source.new result }
    ensures not_passed { IsNotPassed (S.ended source.old)
        (S.passed source.old) (S.passed source.new) }
{
    match feed_all(alloc, source, parser) {
        Ok(_) => Ok(()),
        Err(FeedFault::Source) => Err(ReadFault::Source),
        Err(FeedFault::Memory) => Err(ReadFault::Memory),
        Err(FeedFault::Refused(fault)) => Err(fault),
    }
}

impl<K: PartKeeper> Taker for Parser<K> {
    type Fault = ReadFault;

    ghost Settings = { StateSettings };

    ghost takes = { TakesState };

    ghost refuses = { RefusesPart };

    fn take(&mut self, piece: &[u8]) -> Result<(), ReadFault> {
        feed(self, piece)
    }

    ghost bounded = { taken_is_bounded };
}

/// Feeds bytes to a parser. If a byte follows the state, the result is the fault `Tail`.
fn feed<K: PartKeeper>(parser: &mut Parser<K>, piece: &[u8]) -> Result<(), ReadFault>
    ensures read { (format : formats.Format) (limit : ℕ) (text : List ℕ) →
        HasRead parser.old format limit text → IsOk result →
        HasRead parser.new format limit (text ++ piece.now) }
    ensures state { (format : formats.Format) (limit : ℕ) (text : List ℕ) →
        HasRead parser.old format limit text → (fault : _) → result ≡ Err (ReadFault.State fault)
        → (rest : List ℕ) → IsFaultOf format limit ((text ++ piece.now) ++ rest) fault }
    ensures memory { (format : formats.Format) (limit : ℕ) (text : List ℕ) →
        HasRead parser.old format limit text → result ≡ Err ReadFault.Memory
        → (at : ℕ) × IsWanting format limit text piece.now at }
    ensures source { result ≢ Err ReadFault.Source }
{
    match parser.feed(piece) {
        Ok((used, _)) => {
            if used < piece.len() {
                return Err(ReadFault::State(tail(parser)));
            }
            Ok(())
        }
        Err(fault) => Err(fault_of(fault)),
    }
}

/// Returns the value that a parser's keeper makes from the parts of the text that the parser was
/// fed.
fn finish<K: Maker>(parser: Parser<K>) -> Result<K::Made, ReadFault>
    ensures { (format : formats.Format) (limit : ℕ) (text : List ℕ) →
        HasRead parser format limit text →
        EndsText format limit text (IsMadeOf K.makes format limit text) result }
{
    match parser.finish() {
        Ok(made) => Ok(made),
        Err(fault) => Err(fault_of(fault)),
    }
}

/// The fault of a text in which a byte follows the state. Its offset is the number of bytes that
/// the parser has read.
fn tail<K: PartKeeper>(parser: &Parser<K>) -> StateFault
    requires { parser.now.fault ≡ None }
    ensures at { (format : formats.Format) (limit : ℕ) (text : List ℕ) →
        HasRead parser.now format limit text → result.at ≡ length text }
    ensures cause { result.cause ≡ StateCause.Tail }
{
    StateFault {
        at: parser.offset(),
        cause: StateCause::Tail,
    }
}

/// The read fault for a fault of the parser: `Memory` if memory ran out, and otherwise a fault of
/// the text.
pub(crate) fn fault_of(fault: StateFault) -> ReadFault
    ensures memory { fault.cause ≡ StateCause.Memory → result ≡ ReadFault.Memory }
    ensures state { fault.cause ≢ StateCause.Memory → result ≡ ReadFault.State fault }
{
    match fault.cause {
        StateCause::Memory => ReadFault::Memory,
        _ => ReadFault::State(fault),
    }
}
