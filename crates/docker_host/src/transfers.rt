//! One read from a reader, or one write to a writer, repeated if a signal interrupts it. The clauses
//! about bytes pass on what the standard library promises of any reader and any writer. It says
//! nothing about the bytes of real files and streams.
ghost use Rattle.std.specs.Prelude.{◌<◌, ◌≤◌, IfOk, length};
ghost use Rattle.std.specs.Io.KnownBytes.{ReadConsumes, WriteAppends};

use cif_device::Failed;
use std::io::{ErrorKind, Read, Write};

/// Reads once, and repeats the read if a signal interrupts it. Fails if the reader fails.
pub(crate) fn read_some<R: Read>(from: &mut R, into: &mut [u8]) -> Result<usize, Failed>
    ensures within { IfOk result (λ n. n ≤ length into.new) }
    ensures bytes { ReadConsumes (R.remaining from.old) (R.remaining from.new) result into.new }
{
    'tries: for _ in 0..u64::MAX {
        match from.read(into) {
            Ok(n) => return Ok(n),
            Err(error) if error.kind() == ErrorKind::Interrupted => {}
            Err(_) => return Err(Failed),
        }
    }
    Err(Failed)
}

/// Writes once, and repeats the write if a signal interrupts it. Fails if the writer fails or takes
/// no bytes.
pub(crate) fn write_some<W: Write>(to: &mut W, piece: &[u8]) -> Result<usize, Failed>
    ensures within { IfOk result (λ n. n ≤ length piece.now) }
    ensures progress { IfOk result (λ n. 0 < n) }
    ensures bytes { WriteAppends (W.contents to.old) (W.contents to.new) result piece.now }
{
    'tries: for _ in 0..u64::MAX {
        match to.write(piece) {
            Ok(0) => return Err(Failed),
            Ok(n) => return Ok(n),
            Err(error) if error.kind() == ErrorKind::Interrupted => {}
            Err(_) => return Err(Failed),
        }
    }
    Err(Failed)
}
