//! A parser that is fed the text of a state piece by piece, and passes the parts of the text to a
//! keeper. The keeper makes a value from these parts, for example the state itself or an excerpt.
ghost use Rattle.std.specs.Prelude.{◌≡◌, ℕ, ◌+◌, ◌≤◌, List, [], ◌++◌, length, take, IsOk, IsErr, IfOk, IfErr, Ok, Err, None};
ghost use Rattle.docker_model.specs.state.StateText as formats;
ghost use Rattle.state_text.specs.FormatMeaning.{format_meant};
ghost use Rattle.docker_bytes.specs.StateReading.{IsFaultReported, IsUnended, IsStep, IsMadeOf, IsWhole, JoinsText};
ghost use Rattle.docker_bytes.specs.ParserRead.{HasRead, HasFailed, ParserState, IsSound};

use crate::fault::{StateFault, Step};
use crate::reading::StateReading;
use state_text::format::Format;
use state_text::{Maker, PartKeeper, PartsSoFar, Received, Receiver, State};
use std::alloc::Global;
use std::marker::Model;

/// A parser of the text of one state. The parser is fed the text in pieces of any length. It passes
/// each complete part to its keeper, and itself holds at most 80 bytes of the next part.
#[derive(Debug, Drop)]
pub(crate) struct Parser<K: PartKeeper> {
    reading: StateReading<K>,
    fault: Option<StateFault>,
}

impl<K: PartKeeper> Model for Parser<K> {
    ghost Value = { ParserState K };

    ghost view = { λ parser. record { reading = parser.reading; fault = parser.fault } };

    ghost invariant = { λ parser. IsSound parser.reading parser.fault };
}

impl<K: PartKeeper> Parser<K> {
    /// A parser of a text in this format, of at most `limit` bytes. The parser will pass the parts
    /// to `keeper`, which hasn't been given any part yet.
    pub(crate) fn new(alloc: Global, format: Format, limit: u64, keeper: K) -> Parser<K>
        requires { K.given keeper ≡ record { horizon = 0; ledger = []; entries = [] } }
        ensures { HasRead result (format_meant format) limit [] }
    {
        Parser {
            reading: StateReading::new(alloc, format, limit, PartsSoFar::new(keeper)),
            fault: None,
        }
    }

    /// Takes the next bytes of the text, and returns how many of these bytes it used. `More` means
    /// that all of these bytes were used, and that the state needs more bytes. `Done` means that
    /// the bytes up to the state's last byte were used, and that later calls use no bytes. Returns
    /// a fault once a part is bad, or once the state's text goes past the limit. Also returns a
    /// fault if there is no memory for a part that ends in this piece. The offset of this fault is
    /// the beginning of the part's item, and no part up to and including this part is bad. After a
    /// fault, each later call returns the same fault.
    pub(crate) fn feed(&mut self, piece: &[u8]) -> Result<(usize, Step), StateFault>
        ensures within { IfOk result (λ answer. answer.0 ≤ length piece.now) }
        ensures read { (format : formats.Format) (limit : ℕ) (text : List ℕ) →
            HasRead self.old format limit text →
            IfOk result (λ answer. HasRead self.new format limit
            (text ++ take answer.0 piece.now)) }
        ensures step { (format : formats.Format) (limit : ℕ) (text : List ℕ) →
            HasRead self.old format limit text → IfOk result (IsStep format limit text piece.now) }
        ensures done { (format : formats.Format) (limit : ℕ) (text : List ℕ) →
            HasRead self.old format limit text → IsWhole format limit text →
            result ≡ Ok (0, Step.Done) }
        ensures err { (format : formats.Format) (limit : ℕ) (text : List ℕ) →
            HasRead self.old format limit text →
            IfErr result (λ fault. IsFaultReported format limit text piece.now fault) }
        ensures sound { IsOk result → self.new.fault ≡ None }
        ensures failed { IfErr result (λ fault. HasFailed self.new fault) }
        ensures again { (fault : _) → HasFailed self.old fault → result ≡ Err fault }
    {
        if let Some(fault) = self.fault {
            return Err(fault);
        }
        if self.reading.is_done() {
            return Ok((0, Step::Done));
        }
        match self.reading.read(piece) {
            Ok(answer) => Ok(answer),
            Err(fault) => {
                self.fault = Some(fault);
                Err(fault)
            }
        }
    }

    /// The number of bytes that were read. The parser must not have returned a fault.
    pub(crate) fn offset(&self) -> u64
        requires { self.now.fault ≡ None }
        ensures { (format : formats.Format) (limit : ℕ) (text : List ℕ) →
            HasRead self.now format limit text → result ≡ length text }
    {
        self.reading.offset()
    }
}

impl<K: Maker> Parser<K> {
    /// Returns the value that the keeper makes from the state whose text was read. Returns the
    /// fault `Short` if the text ends before the state does; its offset is the beginning of the
    /// incomplete item. Returns the fault `Memory` only after a complete text; its offset is the
    /// end of the text. If `feed` returned a fault, returns this fault.
    pub(crate) fn finish(self) -> Result<K::Made, StateFault>
        ensures ok { (format : formats.Format) (limit : ℕ) (text : List ℕ) →
            HasRead self format limit text →
            IfOk result (IsMadeOf K.makes format limit text) }
        ensures err { (format : formats.Format) (limit : ℕ) (text : List ℕ) →
            HasRead self format limit text →
            IfErr result (λ fault. IsUnended format limit text fault) }
        ensures again { (fault : _) → HasFailed self fault → result ≡ Err fault }
    {
        match self.fault {
            Some(fault) => Err(fault),
            None => self.reading.finish(),
        }
    }
}

impl<R: Receiver> Parser<Received<R>> {
    /// Returns the join of the receiving state with the state whose text was read. If `feed`
    /// returned a fault, if the text ends too early, or if memory runs out, returns the fault and
    /// the receiving state unchanged.
    pub(crate) fn join(self) -> (State, Result<(), StateFault>)
        ensures ok { (format : formats.Format) (limit : ℕ) (text : List ℕ) →
            HasRead self format limit text → IsOk result.1 →
            JoinsText format limit text R.own result.0 }
        ensures err { (format : formats.Format) (limit : ℕ) (text : List ℕ) →
            HasRead self format limit text →
            IfErr result.1 (λ fault. IsUnended format limit text fault) }
        ensures back { IsErr result.1 → result.0 ≡ R.own }
        ensures again { (fault : _) → HasFailed self fault → result.1 ≡ Err fault }
    {
        match self.fault {
            Some(fault) => (self.reading.into_own(), Err(fault)),
            None => self.reading.join(),
        }
    }

    /// Returns the receiving state unchanged.
    pub(crate) fn into_own(self) -> State
        ensures { result ≡ R.own }
    {
        self.reading.into_own()
    }
}
