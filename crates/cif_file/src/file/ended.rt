//! A CIF file that was read to its trailer.
ghost use Rattle.std.specs.Prelude.{◌≡◌};
ghost use Rattle.cif_file.specs.FileRead.{IsCounted};
ghost use Rattle.cif_file.specs.MadeChanges.{ArePartsOfFile};
ghost use Rattle.cif_file.specs.EndedRead.{file_ended, parts_ended, count_ended};

use crate::file::CifFile;
use crate::file::count::FileCount;
use crate::file::header_line::HeaderLine;
use crate::file::parts::FileParts;
use crate::keeper::counting::CountingKeeper;
use crate::keeper::kept::FileSoFar;

/// A CIF file that was read to its trailer: its header, how many records it has, and what the
/// keeper kept of these records.
#[derive(Debug, Drop)]
pub struct Ended<K> {
    /// The line of the file's header.
    pub header: HeaderLine,
    /// How many records the file has, including the header and the trailer.
    pub records: u32,
    /// The keeper, which has received all records that make changes.
    pub keeper: K,
}

impl Ended<FileSoFar> {
    /// Makes the file, with all of its changes, which the keeper has kept.
    pub(crate) fn into_file(self) -> CifFile
        requires { ArePartsOfFile (parts_ended self) }
        ensures { result ≡ file_ended self }
    {
        let Ended {
            header,
            records,
            keeper,
        } = self;
        let FileSoFar { made, .. } = keeper;
        FileParts {
            header,
            records,
            changes: made,
        }
        .into_file()
    }
}

impl Ended<CountingKeeper> {
    /// Makes a `FileCount` of the file.
    pub(crate) fn into_count(self) -> FileCount
        requires { IsCounted (count_ended self) }
        ensures { result ≡ count_ended self }
    {
        let Ended {
            header,
            records,
            keeper,
        } = self;
        FileCount::of(header, records, keeper.count())
    }
}
