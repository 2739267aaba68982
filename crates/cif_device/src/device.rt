//! Sources and sinks of bytes, and how a whole piece is written.
ghost use Rattle.std.specs.Prelude.{◌≡◌, ℕ, ◌+◌, ◌-◌, ◌^◌, ◌<◌, ◌≤◌, Bool, List, Option, length, take, IfOk, OnOk, OnErr};
ghost use Rattle.cif_device.specs.Device.{Reads, IsEnd, Ends, Takes, TakesPart};

use std::alloc::{AllocError, AllocFailed};
use thiserror::Error;

/// A device failed.
#[derive(Clone, Copy, Debug, PartialEq, Eq, Hash, Error)]
#[error("the device failed")]
pub struct Failed;

/// The allocator refused memory.
#[derive(Clone, Copy, Debug, PartialEq, Eq, Hash, Error)]
#[error("out of memory")]
pub struct Memory;

impl From<AllocError> for Memory {
    fn from(_refused: AllocError) -> Memory {
        Memory
    }
}

impl<T: Drop> From<AllocFailed<T>> for Memory {
    fn from(_refused: AllocFailed<T>) -> Memory {
        Memory
    }
}

/// A device from which bytes are read.
pub trait Source {
    // The bytes that are left. The value is `None` if contracts can't refer to them. For example,
    // contracts can't refer to the bytes of a real file.
    ghost left: { Self → Option (List ℕ) };

    // The number of failures of the device.
    ghost failures: { Self → ℕ };

    // Whether the source has reported its end.
    ghost ended: { Self → Bool };

    // Whether the source was read after it had reported its end.
    ghost passed: { Self → Bool };

    /// Reads the next bytes into the beginning of the buffer and returns their number. If the
    /// buffer isn't empty, 0 means the end of the source. The other bytes of the buffer may have
    /// any value. If the device fails, returns `Failed`, and takes no bytes from the source.
    fn read(&mut self, into: &mut [u8]) -> Result<usize, Failed>
        requires { failures self.old < 2 ^ 64 - 1 }
        ensures within { IfOk result (λ n. n ≤ length into.new) }
        ensures moved { IfOk result (λ n.
            Reads (left self.old) (take n into.new) (left self.new)) }
        ensures end { IfOk result (λ n. n ≡ 0 → 0 < length into.new → IsEnd (left self.old)) }
        ensures no_failure { OnOk result (failures self.new ≡ failures self.old) }
        ensures counted { OnErr result (failures self.new ≡ failures self.old + 1) }
        ensures unmoved { OnErr result (left self.new ≡ left self.old) }
        ensures ending { IfOk result (λ n. Ends n (length into.new)
            (ended self.old) (ended self.new) (passed self.old) (passed self.new)) }
        ensures still { OnErr result
            ((ended self.new ≡ ended self.old) × (passed self.new ≡ passed self.old)) };

    /// Returns the number of failures of the device.
    fn failures(&self) -> u64
        ensures { result ≡ failures self.now };
}

/// A device to which bytes are written.
pub trait Sink {
    // The bytes that the sink has taken. The value is `None` if contracts can't refer to them. For
    // example, contracts can't refer to the bytes of a real file.
    ghost taken: { Self → Option (List ℕ) };

    // The number of failures of the device.
    ghost failures: { Self → ℕ };

    /// Writes the first bytes of the piece, at least one, and returns their number. The piece must
    /// not be empty. If the device fails, returns `Failed`, and the sink takes nothing.
    fn write(&mut self, piece: &[u8]) -> Result<usize, Failed>
        requires failures { failures self.old < 2 ^ 64 - 1 }
        requires piece { 0 < length piece.now }
        ensures within { IfOk result (λ n. n ≤ length piece.now) }
        ensures moved { IfOk result (λ n.
            Takes (taken self.old) (take n piece.now) (taken self.new)) }
        ensures progress { IfOk result (λ n. 0 < n) }
        ensures no_failure { OnOk result (failures self.new ≡ failures self.old) }
        ensures counted { OnErr result (failures self.new ≡ failures self.old + 1) }
        ensures unmoved { OnErr result (taken self.new ≡ taken self.old) };

    /// Returns the number of failures of the device.
    fn failures(&self) -> u64
        ensures { result ≡ failures self.now };
}

/// Writes the whole piece, in as many writes as necessary. Stops at the first write that fails, and
/// returns `Failed`. The sink has then taken a proper prefix of the piece.
pub fn write_all<K: Sink>(sink: &mut K, piece: &[u8]) -> Result<(), Failed>
    requires { K.failures sink.old < 2 ^ 64 - 1 }
    ensures whole { OnOk result (Takes (K.taken sink.old) piece.now (K.taken sink.new)) }
    ensures part { OnErr result (TakesPart (K.taken sink.old) piece.now (K.taken sink.new)) }
    ensures no_failure { OnOk result (K.failures sink.new ≡ K.failures sink.old) }
    ensures counted { OnErr result (K.failures sink.new ≡ K.failures sink.old + 1) }
{
    let mut done = 0;
    while done < piece.len() {
        done += sink.write(&piece[done..])?;
    }
    Ok(())
}
