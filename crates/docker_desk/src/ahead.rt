//! Bytes that were read from a source before a line needed them.
ghost use Rattle.std.specs.Prelude.{◌≡◌, ◌≢◌, ◌+◌, ◌-◌, ◌^◌, ◌<◌, ◌↔◌, [], ◌∷◌, false, true, IsTrue, IfOk, IsErr, None, OnOk, OnErr, MatchOption};
ghost use Rattle.cif_device.specs.Device.{CountsFailure, IsEnd};
ghost use Rattle.docker_cmd.specs.JobLine.{ReadsByte};
ghost use Rattle.docker_desk.specs.Lines.{MeetsEnd, Uses, byte_text, is_end_of_bytes, with_ahead};

use cif_line::{Failed, Sink, Source};
use docker_host::Streams;
use std::marker::Model;

/// The most bytes that one read requests.
const PIECE: usize = 4096;

/// The bytes that were read from a source and don't belong to any line yet.
#[derive(Debug, Drop)]
pub struct Ahead {
    bytes: [u8; PIECE],
    at: usize,
    end: usize,
}

impl Model for Ahead {
    ghost use Rattle.std.specs.Prelude.{List, ℕ, ◌≤◌, length, take, drop};

    ghost Value = { List ℕ };

    ghost view = { λ ahead. drop ahead.at (take ahead.end ahead.bytes) };

    ghost invariant = { λ ahead. (ahead.at ≤ ahead.end) × (ahead.end ≤ length ahead.bytes) };
}

impl Ahead {
    /// Returns an `Ahead` without bytes.
    pub fn new() -> Ahead
        ensures { result ≡ [] }
    {
        Ahead {
            bytes: [0; PIECE],
            at: 0,
            end: 0,
        }
    }

    /// Whether there are no bytes.
    fn is_empty(&self) -> bool
        ensures { IsTrue result ↔ (self.now ≡ []) }
    {
        self.at == self.end
    }

    /// Removes the first byte and returns it. Returns `None` if there are no bytes.
    fn take_first(&mut self) -> Option<u8>
        ensures { MatchOption result ((self.old ≡ []) × (self.new ≡ []))
            (λ byte. self.old ≡ byte ∷ self.new) }
    {
        if self.at == self.end {
            return None;
        }
        let byte = self.bytes[self.at];
        self.at += 1;
        Some(byte)
    }

    /// If there are no bytes, reads the input once. If there are still none, the input is at its
    /// end.
    fn make_ready<S: Source, K: Sink>(&mut self, streams: &mut Streams<S, K>) -> Result<(), Failed>
        requires { streams.old.input_failures < 2 ^ 64 - 1 }
        ensures same { with_ahead self.new streams.new.input
            ≡ with_ahead self.old streams.old.input }
        ensures end { OnOk result (self.new ≡ []
            → IsEnd (with_ahead self.new streams.new.input)) }
        ensures ended { OnOk result (self.new ≡ [] → streams.new.ended ≡ true) }
        ensures going { OnOk result (self.new ≢ [] → streams.new.ended ≡ streams.old.ended) }
        ensures still { OnErr result (streams.new.ended ≡ streams.old.ended) }
        ensures not_passed { streams.old.ended ≡ false
            → streams.new.passed ≡ streams.old.passed }
        ensures failures { CountsFailure (IsErr result)
            streams.old.input_failures streams.new.input_failures }
        ensures uses { Uses [] self.old self.new streams.old streams.new }
    {
        if !self.is_empty() {
            return Ok(());
        }
        self.at = 0;
        self.end = 0;
        self.end = streams.read(&mut self.bytes)?;
        Ok(())
    }

    /// Takes the next byte of the input. Returns `None` once the input has reported its end. If the
    /// input fails, no byte is lost.
    pub(crate) fn next_byte<S: Source, K: Sink>(
        &mut self,
        streams: &mut Streams<S, K>,
    ) -> Result<Option<u8>, Failed>
        requires { streams.old.input_failures < 2 ^ 64 - 1 }
        ensures byte { IfOk result (λ byte. ReadsByte (with_ahead self.old streams.old.input)
            byte (with_ahead self.new streams.new.input)) }
        ensures unmoved { OnErr result (with_ahead self.new streams.new.input
            ≡ with_ahead self.old streams.old.input) }
        ensures meets_end { MeetsEnd (is_end_of_bytes result)
            streams.old.ended streams.new.ended streams.old.passed streams.new.passed }
        ensures failures { CountsFailure (IsErr result)
            streams.old.input_failures streams.new.input_failures }
        ensures uses { Uses (byte_text result) self.old self.new streams.old streams.new }
        ensures none { IfOk result (λ byte. byte ≡ None → self.new ≡ []) }
    {
        self.make_ready(streams)?;
        Ok(self.take_first())
    }
}
