//! An input and an output that record the order of the calls to them.
ghost use Rattle.std.specs.Prelude.{◌≡◌, ◌-◌, ◌^◌, ◌<◌, ◌≤◌, [], ◌∷◌, length, take, IfOk, OnErr};
ghost use Rattle.docker_host.specs.Exchanges.{wrote};
ghost use Rattle.docker_host.specs.Streams.{EndsWriting, ReadsOnce, StreamsView, Writes, after_unread, after_unwritten};

use crate::exchanges::{Exchanges, StreamCall};
use cif_device::{Failed, Sink, Source};
use std::marker::Model;

/// An input and an output. Nothing but `read`, `write` and `write_all` uses the two devices, and each
/// of their calls to a device is added to one history. So the history shows which answers had been
/// written when the input was read.
#[derive(Drop)]
pub struct Streams<S: Source, K: Sink> {
    input: S,
    output: K,
    exchanges: Exchanges,
}

impl<S: Source, K: Sink> Model for Streams<S, K> {
    ghost Value = { StreamsView };

    ghost view = { λ streams. record {
      input = S.left streams.input;
      ended = S.ended streams.input;
      passed = S.passed streams.input;
      output = K.taken streams.output;
      input_failures = S.failures streams.input;
      output_failures = K.failures streams.output;
      exchanges = streams.exchanges.events;
    } };
}

impl<S: Source, K: Sink> Streams<S, K> {
    /// Returns these devices with an empty history.
    pub fn new(input: S, output: K) -> Streams<S, K>
        ensures { result ≡ record {
          input = S.left input;
          ended = S.ended input;
          passed = S.passed input;
          output = K.taken output;
          input_failures = S.failures input;
          output_failures = K.failures output;
          exchanges = [];
        } }
    {
        Streams {
            input,
            output,
            exchanges: Exchanges::new(),
        }
    }

    /// Returns the two devices.
    pub fn into_parts(self) -> (S, K)
        ensures input { S.left result.0 ≡ self.input }
        ensures output { K.taken result.1 ≡ self.output }
    {
        let Streams { input, output, .. } = self;
        (input, output)
    }

    /// Reads the input once, as `Source::read` does, and adds the read to the history.
    pub fn read(&mut self, into: &mut [u8]) -> Result<usize, Failed>
        requires { self.old.input_failures < 2 ^ 64 - 1 }
        ensures within { IfOk result (λ n. n ≤ length into.new) }
        ensures read { IfOk result (λ n.
            ReadsOnce n (length into.new) (take n into.new) self.old self.new) }
        ensures failed { OnErr result (self.new ≡ after_unread self.old) }
    {
        match self.input.read(into) {
            Ok(n) => {
                self.exchanges = self.exchanges.then(&StreamCall::Read(&into[..n]));
                Ok(n)
            }
            Err(failed) => {
                self.exchanges = self.exchanges.then(&StreamCall::Unread);
                Err(failed)
            }
        }
    }

    /// Writes to the output once, as `Sink::write` does, and adds the write to the history.
    pub fn write(&mut self, piece: &[u8]) -> Result<usize, Failed>
        requires failures { self.old.output_failures < 2 ^ 64 - 1 }
        requires piece { 0 < length piece.now }
        ensures within { IfOk result (λ n. n ≤ length piece.now) }
        ensures progress { IfOk result (λ n. 0 < n) }
        ensures wrote { IfOk result (λ n. Writes (take n piece.now) (wrote (take n piece.now) ∷ [])
            self.old self.new) }
        ensures no_failure { IfOk result (λ n.
            self.new.output_failures ≡ self.old.output_failures) }
        ensures failed { OnErr result (self.new ≡ after_unwritten self.old) }
    {
        match self.output.write(piece) {
            Ok(n) => {
                self.exchanges = self.exchanges.then(&StreamCall::Wrote(&piece[..n]));
                Ok(n)
            }
            Err(failed) => {
                self.exchanges = self.exchanges.then(&StreamCall::Unwritten);
                Err(failed)
            }
        }
    }

    /// Writes the whole text to the output, in as many writes as necessary. Stops at the first write
    /// that fails. The output has then taken a proper prefix of the text.
    pub fn write_all(&mut self, text: &[u8]) -> Result<(), Failed>
        requires { self.old.output_failures < 2 ^ 64 - 1 }
        ensures { EndsWriting result text.now self.old self.new }
    {
        let mut done = 0;
        while done < text.len() {
            match self.write(&text[done..]) {
                Ok(n) => done += n,
                Err(failed) => return Err(failed),
            }
        }
        Ok(())
    }
}
