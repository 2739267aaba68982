//! Checks whether the text of a source is a CIF file, and counts the file's records and changes.
ghost use Rattle.std.specs.Prelude.{◌-◌, ◌^◌, ◌<◌, ◌≤◌};
ghost use Rattle.cif_device.specs.Device.{IsNotPassed};
ghost use Rattle.cif_file.specs.FileEnds.{EndsReadingFile};
ghost use Rattle.cif_file.specs.SourceRead.{CountsText, WantsAtStart};

use crate::fault::FileReadFault;
use crate::file::count::FileCount;
use crate::keeper::counting::CountingKeeper;
use crate::read::read_kept;
use crate::records::MOST_RECORDS;
use cif_line::Source;
use std::alloc::Global;

/// Reads a source to its end, as [`read_file`](crate::read_file) does, and returns how many records
/// and changes its file has. No record or change is kept, so memory can run out only before the
/// first byte is read.
pub fn judge_file<S: Source>(
    alloc: Global,
    source: &mut S,
    limit: u32,
) -> Result<FileCount, FileReadFault>
    requires failures { S.failures source.old < 2 ^ 64 - 1 }
    requires limit { limit ≤ MOST_RECORDS }
    ensures reads { EndsReadingFile WantsAtStart S.left S.failures limit
        (CountsText limit (S.left source.old)) source.old source.new result }
    ensures not_passed { IsNotPassed (S.ended source.old)
        (S.passed source.old) (S.passed source.new) }
{
    match read_kept(alloc, source, CountingKeeper::new(), limit) {
        Ok(ended) => Ok(ended.into_count()),
        Err(fault) => Err(fault),
    }
}
