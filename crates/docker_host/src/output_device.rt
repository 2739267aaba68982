//! A sink over a writer of the standard library, such as standard output or the file of a draft.
ghost use Rattle.std.specs.Prelude.{◌≡◌, ◌+◌, ◌-◌, ◌^◌, ◌<◌, ◌≤◌, None, IfOk, OnOk, OnErr, length};
ghost use Rattle.std.specs.Io.KnownBytes.{WriteAppends};
ghost use Rattle.docker_host.specs.RealDevices.{OutputView};

use crate::transfers::write_some;
use cif_device::{Failed, Sink};
use std::io::{Stderr, Stdout, Write};
use std::marker::Model;

/// A sink over a writer. It writes the bytes at once, without a buffer.
#[derive(Drop)]
pub struct OutputDevice<W> {
    writer: W,
    failures: u64,
}

impl<W> Model for OutputDevice<W> {
    ghost Value = { OutputView W };

    ghost view = { λ output. record {
      writer = output.writer;
      failures = output.failures;
    } };
}

impl<W> OutputDevice<W> {
    /// Returns a sink over this writer. The call succeeds even if nothing can be written.
    pub fn new(writer: W) -> Self
        ensures writer { result.writer ≡ writer }
        ensures no_failure { result.failures ≡ 0 }
    {
        OutputDevice {
            writer,
            failures: 0,
        }
    }

    /// Returns the writer.
    pub(crate) fn writer(&self) -> &W
        ensures { result.now ≡ self.now.writer }
    {
        &self.writer
    }
}

impl OutputDevice<Stdout> {
    /// Returns standard output. The call succeeds even if no program reads that stream.
    pub fn stdout(rt: &HostRuntime) -> OutputDevice<Stdout>
        ensures { result.failures ≡ 0 }
    {
        OutputDevice::new(rt.stdout())
    }
}

impl OutputDevice<Stderr> {
    /// Returns standard error. The call succeeds even if no program reads that stream.
    pub fn stderr(rt: &HostRuntime) -> OutputDevice<Stderr>
        ensures { result.failures ≡ 0 }
    {
        OutputDevice::new(rt.stderr())
    }
}

impl<W: Write> Sink for OutputDevice<W> {
    ghost taken = { λ _. None };

    ghost failures = { λ output. output.failures };

    fn write(&mut self, piece: &[u8]) -> Result<usize, Failed>
        requires failures { self.old.failures < 2 ^ 64 - 1 }
        requires piece { 0 < length piece.now }
        ensures within { IfOk result (λ n. n ≤ length piece.now) }
        ensures progress { IfOk result (λ n. 0 < n) }
        ensures no_failure { OnOk result (self.new.failures ≡ self.old.failures) }
        ensures counted { OnErr result (self.new.failures ≡ self.old.failures + 1) }

        // The contract of every sink has the clauses above. Only the contract of this sink has the
        // clause below.
        ensures bytes { WriteAppends (W.contents self.old.writer) (W.contents self.new.writer)
            result piece.now }
    {
        match write_some(&mut self.writer, piece) {
            Ok(n) => Ok(n),
            Err(failed) => {
                self.failures += 1;
                Err(failed)
            }
        }
    }

    fn failures(&self) -> u64 {
        self.failures
    }
}
