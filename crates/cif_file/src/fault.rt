//! Faults: why a text isn't a CIF file, and why no file could be read from a source.
ghost use Rattle.std.specs.Prelude.{Some};
ghost use Rattle.cif_file.specs.FaultText.{fault_text, read_fault_text};

use cif_change::FileCause;
use std::error::Error;
use std::fmt;

/// The fault of a text that isn't a CIF file: a record and a cause. The type is also used if memory
/// ran out at a record.
#[derive(Clone, Copy, PartialEq, Eq, Debug)]
pub struct FileFault {
    /// The number of the record at fault, counted from 1. If memory ran out, this is the number of
    /// the record at which it ran out.
    pub number: u32,
    /// What is wrong with this record.
    pub cause: FileCause,
}

impl fmt::Display for FileFault {
    ghost output = { λ fault. Some (fault_text fault) };

    fn fmt<W: fmt::Write>(&self, f: &mut fmt::Formatter<W>) -> fmt::Result {
        write!(f, "record {}: {}", self.number, self.cause)
    }
}

impl Error for FileFault {}

/// The reason why no file could be read from a source.
#[derive(Clone, Copy, PartialEq, Eq, Debug)]
pub enum FileReadFault {
    /// The source failed.
    Source,
    /// The text in the source isn't a CIF file. The cause is never `Memory`.
    File(FileFault),
    /// Memory ran out. None of the records checked until then is at fault.
    Memory,
}

impl fmt::Display for FileReadFault {
    ghost output = { λ fault. Some (read_fault_text fault) };

    fn fmt<W: fmt::Write>(&self, f: &mut fmt::Formatter<W>) -> fmt::Result {
        match self {
            FileReadFault::Source => f.write_str("the source failed"),
            FileReadFault::File(fault) => write!(f, "{fault}"),
            FileReadFault::Memory => f.write_str("want of memory"),
        }
    }
}

impl Error for FileReadFault {}
