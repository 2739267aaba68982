//! An opened file of a folder in memory.
ghost use Rattle.std.specs.Prelude.{◌≡◌, ◌+◌, ◌-◌, ◌^◌, ◌<◌, ◌≤◌, ◌↔◌, [], ◌++◌, min, length, take, false, Some, IfOk, IsErr, OnOk, OnErr, drop};
ghost use Rattle.cif_device.specs.Device.{Ends};
ghost use Rattle.docker_host.specs.Shelf.{ShelfFileView, read_count};

use cif_device::{Failed, Source};
use std::marker::Model;

/// The largest number of bytes that one read returns.
const STEP: usize = 100;

/// A source that owns its bytes. One read returns at most 100 bytes. After a given number of bytes
/// each read fails.
#[derive(Debug, Drop)]
pub struct ShelfFile {
    bytes: Vec<u8>,
    at: usize,
    sound: usize,
    failures: u64,
    ended: bool,
    passed: bool,
}

impl Model for ShelfFile {
    ghost Value = { ShelfFileView };

    ghost view = { λ file. record {
      left = drop file.at file.bytes.items;
      sound = file.sound;
      failures = file.failures;
      ended = file.ended;
      passed = file.passed;
    } };

    ghost invariant = { λ file. file.at ≤ length file.bytes.items };
}

impl ShelfFile {
    /// Returns a source of these bytes. After the first `sound` bytes each read fails.
    pub fn new(bytes: Vec<u8>, sound: usize) -> ShelfFile
        ensures left { result.left ≡ bytes.items }
        ensures sound { result.sound ≡ sound }
        ensures no_failure { result.failures ≡ 0 }
        ensures ended { result.ended ≡ false }
        ensures passed { result.passed ≡ false }
    {
        ShelfFile {
            bytes,
            at: 0,
            sound,
            failures: 0,
            ended: false,
            passed: false,
        }
    }

    /// Returns the bytes that are left.
    pub fn rest(&self) -> &[u8]
        ensures { result.now ≡ self.now.left }
    {
        &self.bytes.as_slice()[self.at..]
    }
}

impl Source for ShelfFile {
    ghost left = { λ file. Some file.left };

    ghost failures = { λ file. file.failures };

    ghost ended = { λ file. file.ended };

    ghost passed = { λ file. file.passed };

    fn read(&mut self, into: &mut [u8]) -> Result<usize, Failed>
        requires { self.old.failures < 2 ^ 64 - 1 }
        ensures within { IfOk result (λ n. n ≤ length into.new) }
        ensures moved { IfOk result (λ n. self.old.left ≡ take n into.new ++ self.new.left) }
        ensures end { IfOk result (λ n. n ≡ 0 → 0 < length into.new → self.old.left ≡ []) }
        ensures no_failure { OnOk result (self.new.failures ≡ self.old.failures) }
        ensures counted { OnErr result (self.new.failures ≡ self.old.failures + 1) }
        ensures unmoved { OnErr result (self.new.left ≡ self.old.left) }
        ensures ending { IfOk result (λ n. Ends n (length into.new)
            self.old.ended self.new.ended self.old.passed self.new.passed) }
        ensures still { OnErr result
            ((self.new.ended ≡ self.old.ended) × (self.new.passed ≡ self.old.passed)) }

        // The clauses above are promised for every source. The clauses below are promised only for
        // this source.
        ensures count { IfOk result (λ n. n ≡ read_count self.old (length into.old)) }
        ensures sound { IfOk result (λ n. self.new.sound ≡ self.old.sound - n) }
        ensures fails { IsErr result ↔ (self.old.sound ≡ 0) }
    {
        if self.sound == 0 {
            self.failures += 1;
            return Err(Failed);
        }
        let rest = self.rest();
        let most = self.sound.min(STEP).min(rest.len());
        let n = into.len().min(most);
        into[..n].copy_from_slice(&rest[..n]);
        self.at += n;
        self.sound -= n;
        self.passed = self.passed || self.ended;
        self.ended = self.ended || n == 0 && !into.is_empty();
        Ok(n)
    }

    fn failures(&self) -> u64 {
        self.failures
    }
}
