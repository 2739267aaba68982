//! An input that records whether it was read past its end.
ghost use Rattle.std.specs.Prelude.{None};

use cif_line::{Failed, Source};

/// A source that returns at most 100 bytes per read. It records whether it has reported its end,
/// and whether it was read after that. It never fails. Unlike `Bytes`, it also returns what it has
/// recorded, so that a test can compare it.
#[derive(Drop)]
pub(crate) struct EndRecorder<'a> {
    rest: &'a [u8],
    ended: bool,
    passed: bool,
}

impl<'a> EndRecorder<'a> {
    /// Returns a source of this text.
    pub(crate) fn new(text: &'a [u8]) -> EndRecorder<'a> {
        EndRecorder {
            rest: text,
            ended: false,
            passed: false,
        }
    }

    /// Returns whether the source has reported its end, and whether it was read after that.
    pub(crate) fn is_read_past(&self) -> (bool, bool) {
        (self.ended, self.passed)
    }
}

impl Source for EndRecorder<'_> {
    ghost left = { λ _. None };

    ghost failures = { λ _. 0 };

    ghost ended = { λ recorder. recorder.ended };

    ghost passed = { λ recorder. recorder.passed };

    fn read(&mut self, into: &mut [u8]) -> Result<usize, Failed> {
        let n = into.len().min(self.rest.len()).min(100);
        into[..n].copy_from_slice(&self.rest[..n]);
        self.rest = &self.rest[n..];
        self.passed = self.passed || self.ended;
        self.ended = self.ended || n == 0 && !into.is_empty();
        Ok(n)
    }

    fn failures(&self) -> u64 {
        0
    }
}
