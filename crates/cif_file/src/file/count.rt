//! The counts of a CIF file that was checked but not kept.
ghost use Rattle.std.specs.Prelude.{◌≡◌};
ghost use Rattle.cif_file.specs.FileRead.{FileCounted, IsCounted};

use crate::file::header_line::HeaderLine;
use cif_line::Header;
use std::marker::Model;

/// The header of a CIF file, with the numbers of its records and of its changes.
#[derive(Debug, Drop)]
pub struct FileCount {
    header: HeaderLine,
    records: u32,
    changes: u64,
}

impl Model for FileCount {
    ghost Value = { FileCounted };

    ghost view = { λ count. record {
      header_line = count.header;
      record_count = count.records;
      change_count = count.changes;
    } };

    ghost invariant = { λ count. IsCounted (record {
      header_line = count.header;
      record_count = count.records;
      change_count = count.changes;
    }) };
}

impl FileCount {
    /// Makes a `FileCount` from a file's header and counts.
    pub(crate) fn of(header: HeaderLine, records: u32, changes: u64) -> FileCount
        requires counted { IsCounted (record {
          header_line = header;
          record_count = records;
          change_count = changes;
        }) }
        ensures { result ≡ record {
          header_line = header;
          record_count = records;
          change_count = changes;
        } }
    {
        FileCount {
            header,
            records,
            changes,
        }
    }

    /// A view of the header.
    pub fn header(&self) -> Header<'_>
        ensures { result ≡ self.now.header_line }
    {
        self.header.view()
    }

    /// How many records the file has, including the header and the trailer.
    pub fn records(&self) -> u32
        ensures count { result ≡ self.now.record_count }
        ensures counted { IsCounted self.now }
    {
        self.records
    }

    /// How many changes the records make.
    pub fn changes(&self) -> u64
        ensures changes { result ≡ self.now.change_count }
        ensures counted { IsCounted self.now }
    {
        self.changes
    }
}
