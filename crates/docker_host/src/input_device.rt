//! A source over a reader of the standard library, such as standard input or an opened file.
ghost use Rattle.std.specs.Prelude.{◌≡◌, ◌+◌, ◌-◌, ◌^◌, ◌<◌, ◌≤◌, None, IfOk, OnOk, OnErr, false, length};
ghost use Rattle.std.specs.Io.KnownBytes.{ReadConsumes};
ghost use Rattle.cif_device.specs.Device.{Ends};
ghost use Rattle.docker_host.specs.RealDevices.{InputView};

use crate::folder::OpenFault;
use crate::transfers::read_some;
use cif_device::{Failed, Source};
use std::fs::File;
use std::io::{Read, Stdin};
use std::marker::Model;

/// A source over a reader. It reads only what it is asked for, so no byte is lost between two
/// programs that read the same stream.
#[derive(Drop)]
pub struct InputDevice<R> {
    reader: R,
    failures: u64,
    ended: bool,
    passed: bool,
}

impl<R> Model for InputDevice<R> {
    ghost Value = { InputView R };

    ghost view = { λ input. record {
      reader = input.reader;
      failures = input.failures;
      ended = input.ended;
      passed = input.passed;
    } };
}

impl<R> InputDevice<R> {
    /// Returns a source over this reader. The first read continues where the reader is.
    pub fn new(reader: R) -> Self
        ensures reader { result.reader ≡ reader }
        ensures no_failure { result.failures ≡ 0 }
        ensures ended { result.ended ≡ false }
        ensures passed { result.passed ≡ false }
    {
        InputDevice {
            reader,
            failures: 0,
            ended: false,
            passed: false,
        }
    }
}

impl InputDevice<Stdin> {
    /// Returns standard input. The first read continues at the current position of standard input.
    pub fn stdin(rt: &HostRuntime) -> InputDevice<Stdin>
        ensures no_failure { result.failures ≡ 0 }
        ensures ended { result.ended ≡ false }
        ensures passed { result.passed ≡ false }
    {
        InputDevice::new(rt.stdin())
    }
}

impl InputDevice<File> {
    /// Opens a named file. The first read returns the first bytes of the file.
    pub(crate) fn open(rt: &HostRuntime, name: &str) -> Result<InputDevice<File>, OpenFault>
        ensures sound { IfOk result (λ opened. opened.failures ≡ 0) }
        ensures fresh { IfOk result (λ opened.
            (opened.ended ≡ false) × (opened.passed ≡ false)) }
    {
        Ok(InputDevice::new(File::open(rt, name)?))
    }
}

impl<R: Read> Source for InputDevice<R> {
    ghost left = { λ _. None };

    ghost failures = { λ input. input.failures };

    ghost ended = { λ input. input.ended };

    ghost passed = { λ input. input.passed };

    fn read(&mut self, into: &mut [u8]) -> Result<usize, Failed>
        requires { self.old.failures < 2 ^ 64 - 1 }
        ensures within { IfOk result (λ n. n ≤ length into.new) }
        ensures no_failure { OnOk result (self.new.failures ≡ self.old.failures) }
        ensures counted { OnErr result (self.new.failures ≡ self.old.failures + 1) }
        ensures ending { IfOk result (λ n. Ends n (length into.new)
            self.old.ended self.new.ended self.old.passed self.new.passed) }
        ensures still { OnErr result
            ((self.new.ended ≡ self.old.ended) × (self.new.passed ≡ self.old.passed)) }

        // The contract of every source has the clauses above. Only the contract of this source has
        // the clause below.
        ensures bytes { ReadConsumes (R.remaining self.old.reader) (R.remaining self.new.reader)
            result into.new }
    {
        match read_some(&mut self.reader, into) {
            Ok(n) => {
                self.passed = self.passed || self.ended;
                self.ended = self.ended || n == 0 && !into.is_empty();
                Ok(n)
            }
            Err(failed) => {
                self.failures += 1;
                Err(failed)
            }
        }
    }

    fn failures(&self) -> u64 {
        self.failures
    }
}
