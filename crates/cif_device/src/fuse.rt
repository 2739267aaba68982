//! A device in memory that fails at one chosen call.
ghost use Rattle.std.specs.Prelude.{◌≡◌, ◌⊎◌, ◌+◌, ◌-◌, ◌^◌, ◌<◌, ◌≤◌, ◌↔◌, min, [], ◌++◌, length, take, Some, IsTrue, IfOk, IsErr, OnOk, OnErr};
ghost use Rattle.cif_device.specs.Device.{Ends, Fused, room_left};

use crate::device::{Failed, Sink, Source};
use crate::memory::{Bytes, Kept};
use std::marker::Model;

/// A device in memory that transfers at most one byte per call, and fails at one chosen call.
#[derive(Debug, Drop)]
pub struct Fuse<D> {
    device: D,
    calls: u64,
    failures: u64,
}

impl<D> Model for Fuse<D> {
    ghost Value = { Fused D };

    ghost view = { λ fuse. record {
      device = fuse.device;
      calls = fuse.calls;
      failures = fuse.failures;
    } };
}

impl<D> Fuse<D> {
    /// Returns a device that transfers the bytes of this inner device, one per call. The call with
    /// this number, counted from 1, fails without using the inner device.
    pub fn new(device: D, call: u64) -> Self
        requires { 0 < call }
        ensures device { result.device ≡ device }
        ensures calls { result.calls ≡ call }
        ensures no_failure { result.failures ≡ 0 }
    {
        Fuse {
            device,
            calls: call,
            failures: 0,
        }
    }

    /// Returns the inner device.
    pub fn device(&self) -> &D
        ensures { result.now ≡ self.now.device }
    {
        &self.device
    }

    /// Counts a call, and returns whether this call fails.
    fn blows(&mut self) -> bool
        ensures blows { IsTrue result ↔ (self.old.calls ≡ 1) }
        ensures counted { self.new ≡ record self.old { calls = self.old.calls - 1 } }
    {
        let blows = self.calls == 1;
        self.calls = self.calls.saturating_sub(1);
        blows
    }
}

impl Source for Fuse<Bytes<'_>> {
    ghost left = { λ fuse. Some fuse.device.left };

    ghost failures = { λ fuse. fuse.failures };

    ghost ended = { λ fuse. fuse.device.ended };

    ghost passed = { λ fuse. fuse.device.passed };

    fn read(&mut self, into: &mut [u8]) -> Result<usize, Failed>
        requires { self.old.failures < 2 ^ 64 - 1 }
        ensures within { IfOk result (λ n. n ≤ length into.new) }
        ensures moved { IfOk result (λ n.
            self.old.device.left ≡ take n into.new ++ self.new.device.left) }
        ensures end { IfOk result (λ n. n ≡ 0 → 0 < length into.new → self.old.device.left ≡ []) }
        ensures no_failure { OnOk result (self.new.failures ≡ self.old.failures) }
        ensures counted { OnErr result (self.new.failures ≡ self.old.failures + 1) }
        ensures unmoved { OnErr result (self.new.device.left ≡ self.old.device.left) }
        ensures ending { IfOk result (λ n. Ends n (length into.new)
            self.old.device.ended self.new.device.ended
            self.old.device.passed self.new.device.passed) }
        ensures still { OnErr result ((self.new.device.ended ≡ self.old.device.ended)
            × (self.new.device.passed ≡ self.old.device.passed)) }

        // The contract of every source has the clauses above. Only the contract of this source has
        // the clauses below.
        ensures count { IfOk result (λ n.
            n ≡ min (min 1 (length into.old)) (length self.old.device.left)) }
        ensures blows { IsErr result ↔ (self.old.calls ≡ 1) }
        ensures calls { self.new.calls ≡ self.old.calls - 1 }
    {
        if self.blows() {
            self.failures += 1;
            return Err(Failed);
        }
        let room = into.len().min(1);
        self.device.read(&mut into[..room])
    }

    fn failures(&self) -> u64 {
        self.failures
    }
}

impl Sink for Fuse<Kept> {
    ghost taken = { λ fuse. Some fuse.device.taken };

    ghost failures = { λ fuse. fuse.failures };

    fn write(&mut self, piece: &[u8]) -> Result<usize, Failed>
        requires failures { self.old.failures < 2 ^ 64 - 1 }
        requires piece { 0 < length piece.now }
        ensures within { IfOk result (λ n. n ≤ length piece.now) }
        ensures moved { IfOk result (λ n.
            self.new.device.taken ≡ self.old.device.taken ++ take n piece.now) }
        ensures progress { IfOk result (λ n. 0 < n) }
        ensures no_failure { OnOk result (self.new.failures ≡ self.old.failures) }
        ensures counted { OnErr result (self.new.failures ≡ self.old.failures + 1) }
        ensures unmoved { OnErr result (self.new.device.taken ≡ self.old.device.taken) }

        // The contract of every sink has the clauses above. Only the contract of this sink has the
        // clauses below.
        ensures count { IfOk result (λ n. n ≡ 1) }
        ensures fails { IsErr result ↔ ((self.old.calls ≡ 1) ⊎ (room_left self.old.device ≡ 0)) }
        ensures calls { self.new.calls ≡ self.old.calls - 1 }
        ensures room { self.new.device.room ≡ self.old.device.room }
    {
        if self.blows() {
            self.failures += 1;
            return Err(Failed);
        }
        if self.device.is_full() {
            self.failures += 1;
            return Err(Failed);
        }
        self.device.push(piece[0]);
        Ok(1)
    }

    fn failures(&self) -> u64 {
        self.failures
    }
}
