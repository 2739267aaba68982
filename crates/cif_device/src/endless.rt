//! A source in memory that never ends.
ghost use Rattle.std.specs.Prelude.{◌≡◌, ◌<◌, ◌≤◌, min, [], ◌∷◌, length, take, false, None, Ok, IfOk};
ghost use Rattle.cif_device.specs.Device.{Ends, Goes, Round};

use crate::device::{Failed, Source};
use std::marker::Model;

/// A source that returns the bytes of one text, and then the bytes of another text over and over.
/// It never ends and never fails. Contracts can't refer to the bytes left in it, because these have
/// no end.
#[derive(Clone, Debug, Drop)]
pub struct Endless<'a> {
    rest: &'a [u8],
    again: &'a [u8],
    step: usize,
}

impl<'a> Model for Endless<'a> {
    ghost Value = { Round };

    ghost view = { λ endless. record {
      left = endless.rest.now;
      again = endless.again.now;
      step = endless.step;
    } };

    ghost invariant = { λ endless. (0 < length endless.again.now) × (0 < endless.step) };
}

impl<'a> Endless<'a> {
    /// Returns a source of the text `first`, and then of the text `again` over and over. One read
    /// returns at most `step` bytes.
    pub fn new(first: &'a [u8], again: &'a [u8], step: usize) -> Self
        requires again { 0 < length again.now }
        requires step { 0 < step }
        ensures left { result.left ≡ first.now }
        ensures again { result.again ≡ again.now }
        ensures step { result.step ≡ step }
    {
        Endless {
            rest: first,
            again,
            step,
        }
    }

    /// Returns the next byte.
    fn next_byte(&mut self) -> u8
        ensures goes { Goes self.old (result ∷ []) self.new }
    {
        if self.rest.is_empty() {
            self.rest = self.again;
        }
        let byte = self.rest[0];
        self.rest = &self.rest[1..];
        byte
    }
}

impl Source for Endless<'_> {
    ghost left = { λ _. None };

    ghost failures = { λ _. 0 };

    ghost ended = { λ _. false };

    ghost passed = { λ _. false };

    fn read(&mut self, into: &mut [u8]) -> Result<usize, Failed>
        ensures within { IfOk result (λ n. n ≤ length into.new) }
        ensures ending { IfOk result (λ n. Ends n (length into.new) false false false false) }

        // The contract of every source has the clauses above. Only the contract of this source has
        // the clauses below.
        ensures count { result ≡ Ok (min self.old.step (length into.old)) }
        ensures goes { IfOk result (λ n. Goes self.old (take n into.new) self.new) }
    {
        let count = self.step.min(into.len());
        for at in 0..count {
            into[at] = self.next_byte();
        }
        Ok(count)
    }

    fn failures(&self) -> u64 {
        0
    }
}
