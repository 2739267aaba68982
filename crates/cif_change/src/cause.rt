//! The reasons why the reader of an extract refuses the extract.
ghost use Rattle.std.specs.Prelude.{◌≡◌, ◌≤◌, Some, length};
ghost use Rattle.cif_change.specs.declared.cause.FileCause.TheVariants.{Field, Memory};
ghost use Rattle.cif_change.specs.Cause.{cause_column, cause_name, cause_text};

use cif_line::FieldFault;
use std::alloc::AllocError;
use std::error::Error;
use std::fmt;

/// The reason why the reader of an extract refuses the text, at a record or at the end.
#[derive(Clone, Copy, PartialEq, Eq, Debug)]
pub enum FileCause {
    /// The line doesn't have 80 bytes.
    Length,
    /// A byte of the line isn't printable. The number is the column of the leftmost bad byte.
    /// Columns count from 1.
    Byte(u8),
    /// The line doesn't begin with the identity of a kind of record.
    Kind,
    /// A record of this kind can't come next: no extract begins with the records before it and then
    /// a record of this kind.
    Place,
    /// A checked field of the record isn't good. The number is the first column of the leftmost bad
    /// field. Columns count from 1.
    Field(u8),
    /// At this record the schedule passes midnight for the third time. At most two midnights are
    /// allowed.
    Midnights,
    /// The text ends without a trailer.
    NoEnd,
    /// The record comes after the trailer.
    After,
    /// The extract has more records than the limit allows.
    TooMany,
    /// Memory ran out: the allocator refused memory.
    Memory,
}

impl FileCause {
    /// The name of the cause, as it is printed in a fault: one word of at most nine characters.
    pub fn name(&self) -> &'static str
        ensures name { result.now ≡ cause_name self.now }
        ensures len { length result.now ≤ 9 }
    {
        match self {
            FileCause::Length => "Length",
            FileCause::Byte(_) => "Byte",
            FileCause::Kind => "Kind",
            FileCause::Place => "Place",
            FileCause::Field(_) => "Field",
            FileCause::Midnights => "Midnights",
            FileCause::NoEnd => "NoEnd",
            FileCause::After => "After",
            FileCause::TooMany => "TooMany",
            FileCause::Memory => "Memory",
        }
    }

    /// The column of a bad byte or a bad field, counted from 1. Returns `None` for any other cause.
    pub fn column(&self) -> Option<u8>
        ensures { result ≡ cause_column self.now }
    {
        match self {
            FileCause::Byte(column) | FileCause::Field(column) => Some(*column),
            _ => None,
        }
    }
}

impl fmt::Display for FileCause {
    ghost output = { λ cause. Some (cause_text cause) };

    fn fmt<W: fmt::Write>(&self, f: &mut fmt::Formatter<W>) -> fmt::Result {
        match self.column() {
            Some(column) => write!(f, "{} {column}", self.name()),
            None => f.write_str(self.name()),
        }
    }
}

impl Error for FileCause {}

impl From<FieldFault> for FileCause {
    ghost from_gives = { λ fault cause. cause ≡ Field fault.0 };

    fn from(fault: FieldFault) -> Self {
        Self::Field(fault.0)
    }
}

impl From<AllocError> for FileCause {
    ghost from_gives = { λ _ cause. cause ≡ Memory };

    fn from(_refused: AllocError) -> Self {
        Self::Memory
    }
}
