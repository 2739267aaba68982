//! A source and a sink in memory.
ghost use Rattle.std.specs.Prelude.{◌≡◌, ◌+◌, ◌-◌, ◌^◌, ◌<◌, ◌≤◌, ◌↔◌, min, [], ◌∷◌, ◌++◌, length};
ghost use Rattle.std.specs.Prelude.{take, false, Some, Ok, IsTrue, IfOk, IsOk, IsErr, OnOk, OnErr, vec_capacity};
ghost use Rattle.cif_device.specs.Device.{Ends, Feed, Store, read_count, room_left};

use crate::device::{Failed, Memory, Sink, Source};
use std::alloc::Global;
use std::marker::Model;

/// A source over a slice. It never fails.
#[derive(Clone, Debug, Drop)]
pub struct Bytes<'a> {
    rest: &'a [u8],
    step: usize,
    ended: bool,
    passed: bool,
}

impl<'a> Model for Bytes<'a> {
    ghost Value = { Feed };

    ghost view = { λ bytes. record {
      left = bytes.rest.now;
      step = bytes.step;
      ended = bytes.ended;
      passed = bytes.passed;
    } };

    ghost invariant = { λ bytes. 0 < bytes.step };
}

impl<'a> Bytes<'a> {
    /// Returns a source of these bytes. One read returns at most `step` bytes.
    pub fn new(bytes: &'a [u8], step: usize) -> Self
        requires { 0 < step }
        ensures left { result.left ≡ bytes.now }
        ensures step { result.step ≡ step }
        ensures ended { result.ended ≡ false }
        ensures passed { result.passed ≡ false }
    {
        Bytes {
            rest: bytes,
            step,
            ended: false,
            passed: false,
        }
    }

    /// Returns the bytes that are left.
    pub fn left(&self) -> &[u8]
        ensures { result.now ≡ self.now.left }
    {
        self.rest
    }
}

impl Source for Bytes<'_> {
    ghost left = { λ bytes. Some bytes.left };

    ghost failures = { λ _. 0 };

    ghost ended = { λ bytes. bytes.ended };

    ghost passed = { λ bytes. bytes.passed };

    fn read(&mut self, into: &mut [u8]) -> Result<usize, Failed>
        ensures within { IfOk result (λ n. n ≤ length into.new) }
        ensures moved { IfOk result (λ n. self.old.left ≡ take n into.new ++ self.new.left) }
        ensures end { IfOk result (λ n. n ≡ 0 → 0 < length into.new → self.old.left ≡ []) }
        ensures ending { IfOk result (λ n. Ends n (length into.new)
            self.old.ended self.new.ended self.old.passed self.new.passed) }

        // The contract of every source has the clauses above. Only the contract of this source has
        // the clauses below.
        ensures count { result ≡ Ok (read_count self.old (length into.old)) }
        ensures step { self.new.step ≡ self.old.step }
    {
        let n = self.step.min(into.len()).min(self.rest.len());
        into[..n].copy_from_slice(&self.rest[..n]);
        self.rest = &self.rest[n..];
        self.passed = self.passed || self.ended;
        self.ended = self.ended || n == 0 && !into.is_empty();
        Ok(n)
    }

    fn failures(&self) -> u64 {
        0
    }
}

/// A sink that keeps the bytes it takes. Its room is reserved when the sink is made. A write fails
/// only if the sink is full.
#[derive(Debug, Drop)]
pub struct Kept {
    bytes: Vec<u8>,
    room: usize,
    failures: u64,
}

impl Model for Kept {
    ghost Value = { Store };

    ghost view = { λ kept. record {
      taken = kept.bytes.items;
      room = kept.room;
      failures = kept.failures;
    } };

    ghost invariant = { λ kept.
        (length kept.bytes.items ≤ kept.room) × (kept.room ≤ vec_capacity kept.bytes) };
}

impl Kept {
    /// Returns an empty sink with room for `room` bytes. Returns `Memory` if the allocator refuses
    /// memory.
    pub fn new(alloc: Global, room: usize) -> Result<Kept, Memory>
        ensures empty { IfOk result (λ kept. kept.taken ≡ []) }
        ensures room { IfOk result (λ kept. kept.room ≡ room) }
        ensures no_failure { IfOk result (λ kept. kept.failures ≡ 0) }
        ensures without_room { room ≡ 0 → IsOk result }
    {
        let bytes = Vec::with_capacity(alloc, room)?;
        Ok(Kept {
            bytes,
            room,
            failures: 0,
        })
    }

    /// Returns the bytes that the sink has taken.
    pub fn bytes(&self) -> &[u8]
        ensures bytes { result.now ≡ self.now.taken }
        ensures within { length self.now.taken ≤ self.now.room }
    {
        self.bytes.as_slice()
    }

    /// Whether the sink has no room left.
    pub(crate) fn is_full(&self) -> bool
        ensures { IsTrue result ↔ (room_left self.now ≡ 0) }
    {
        self.bytes.len() == self.room
    }

    /// Takes one byte. The sink must have room for it.
    pub(crate) fn push(&mut self, byte: u8)
        requires { 0 < room_left self.old }
        ensures { self.new ≡ record self.old { taken = self.old.taken ++ byte ∷ [] } }
    {
        self.bytes.push_reserved(byte);
    }
}

impl Sink for Kept {
    ghost taken = { λ kept. Some kept.taken };

    ghost failures = { λ kept. kept.failures };

    fn write(&mut self, piece: &[u8]) -> Result<usize, Failed>
        requires failures { self.old.failures < 2 ^ 64 - 1 }
        requires piece { 0 < length piece.now }
        ensures within { IfOk result (λ n. n ≤ length piece.now) }
        ensures moved { IfOk result (λ n. self.new.taken ≡ self.old.taken ++ take n piece.now) }
        ensures progress { IfOk result (λ n. 0 < n) }
        ensures no_failure { OnOk result (self.new.failures ≡ self.old.failures) }
        ensures counted { OnErr result (self.new.failures ≡ self.old.failures + 1) }
        ensures unmoved { OnErr result (self.new.taken ≡ self.old.taken) }

        // The contract of every sink has the clauses above. Only the contract of this sink has the
        // clauses below.
        ensures count { IfOk result (λ n. n ≡ min (length piece.now) (room_left self.old)) }
        ensures full { IsErr result ↔ (room_left self.old ≡ 0) }
        ensures room { self.new.room ≡ self.old.room }
    {
        let n = piece.len().min(self.room - self.bytes.len());
        if n == 0 {
            self.failures += 1;
            return Err(Failed);
        }
        self.bytes.extend_from_slice(&piece[..n]).unwrap();
        Ok(n)
    }

    fn failures(&self) -> u64 {
        self.failures
    }
}
