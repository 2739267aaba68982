//! A parser that is fed the text of a state piece by piece.
ghost use Rattle.std.specs.Prelude.{◌≡◌, ℕ, ◌+◌, ◌≤◌, List, [], ◌++◌, length, take, IfOk, IfErr, Ok, Err};
ghost use Rattle.docker_model.specs.state.StateText.{dks_2};
ghost use Rattle.docker_model.specs.state.StateText as formats;
ghost use Rattle.docker_model.specs.state.StateFault.{IsStateText};
ghost use Rattle.docker_model.specs.state.State as states;
ghost use Rattle.docker_bytes.specs.StateReading.{IsFaultReported, IsUnended, IsStep, IsWhole};
ghost use Rattle.docker_bytes.specs.ParserRead.{HasRead, HasFailed, ParserState};

use crate::fault::{StateFault, Step};
use crate::parser::Parser;
use state_text::format::Format;
use state_text::{Indexing, State};
use std::alloc::Global;
use std::marker::Model;

/// A parser of the text of one state. The parser is fed the text in pieces of any length. It holds
/// the complete parts, and at most 80 bytes of the next part.
#[derive(Debug, Drop)]
pub struct StateParser {
    parser: Parser<Indexing>,
}

impl Model for StateParser {
    ghost Value = { ParserState states.State };

    ghost view = { λ it. it.parser };
}

impl StateParser {
    /// A parser of a text with the mark `DKS2`, of at most `limit` bytes.
    pub fn new(alloc: Global, limit: u64) -> StateParser
        ensures { HasRead result dks_2 limit [] }
    {
        StateParser {
            parser: Parser::new(alloc, Format::Dks2, limit, Indexing::new(alloc)),
        }
    }

    /// Takes the next bytes of the text, and returns how many of these bytes it used. `More` means
    /// that all of these bytes were used, and that the state needs more bytes. `Done` means that
    /// the bytes up to the state's last byte were used, and that later calls use no bytes. Returns
    /// a fault once a part is bad, or once the state's text goes past the limit. Also returns a
    /// fault if there is no memory for a part that ends in this piece. The offset of this fault is
    /// the beginning of the part's item, and no part up to and including this part is bad. After a
    /// fault, each later call returns the same fault.
    pub fn feed(&mut self, piece: &[u8]) -> Result<(usize, Step), StateFault>
        ensures within { IfOk result (λ answer. answer.0 ≤ length piece.now) }
        ensures read { (format : formats.Format) (limit : ℕ) (text : List ℕ) →
            HasRead self.old format limit text →
            IfOk result (λ answer. HasRead self.new format limit
            (text ++ take answer.0 piece.now)) }
        ensures step { (format : formats.Format) (limit : ℕ) (text : List ℕ) →
            HasRead self.old format limit text → IfOk result (IsStep format limit text piece.now) }
        ensures done { (format : formats.Format) (limit : ℕ) (text : List ℕ) →
            HasRead self.old format limit text → IsWhole format limit text →
            result ≡ Ok (0, Step.Done) }
        ensures err { (format : formats.Format) (limit : ℕ) (text : List ℕ) →
            HasRead self.old format limit text →
            IfErr result (λ fault. IsFaultReported format limit text piece.now fault) }
        ensures failed { IfErr result (λ fault. HasFailed self.new fault) }
        ensures again { (fault : _) → HasFailed self.old fault → result ≡ Err fault }
    {
        self.parser.feed(piece)
    }

    /// Returns the state whose text was read, with an index. Returns the fault `Short` if the text
    /// ends before the state does; its offset is the beginning of the incomplete item. Returns the
    /// fault `Memory` only after a complete text; its offset is the end of the text. If `feed`
    /// returned a fault, returns this fault.
    pub fn finish(self) -> Result<State, StateFault>
        ensures ok { (format : formats.Format) (limit : ℕ) (text : List ℕ) →
            HasRead self format limit text →
            IfOk result (λ state. IsStateText format limit text state) }
        ensures err { (format : formats.Format) (limit : ℕ) (text : List ℕ) →
            HasRead self format limit text →
            IfErr result (λ fault. IsUnended format limit text fault) }
        ensures again { (fault : _) → HasFailed self fault → result ≡ Err fault }
    {
        self.parser.finish()
    }
}
