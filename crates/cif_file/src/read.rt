//! Reads a CIF file from a source.
ghost use Rattle.std.specs.Prelude.{◌≡◌, ◌≢◌, ℕ, ◌-◌, ◌^◌, ◌<◌, ◌≤◌, List, [], length, IfOk, Err};
ghost use Rattle.cif_device.specs.Device.{IsNotPassed};
ghost use Rattle.docker_model.specs.file.FileFault.{IsFileText};
ghost use Rattle.docker_model.specs.file.Text.{lines_of};
ghost use Rattle.cif_file.specs.FileEnds.{EndsReadingFile};
ghost use Rattle.cif_file.specs.ParserRead.{IsReading, WantsMemoryAt, EndsBy};
ghost use Rattle.cif_file.specs.SourceRead.{IsFaultOf, ReadsEnded, ReadsText, WantsMemory, WantsMemoryBy};
ghost use Rattle.cif_file.specs.FileTaken.{TakesFile, RefusesPiece, taken_is_bounded};

pub(crate) mod judge;
pub(crate) mod next_record;
pub(crate) mod parser;
pub(crate) mod pieces;
pub(crate) mod text;

use crate::fault::{FileFault, FileReadFault};
use crate::file::CifFile;
use crate::file::ended::Ended;
use crate::keeper::ChangeKeeper;
use crate::keeper::kept::FileSoFar;
use crate::read::parser::FileReading;
use crate::records::MOST_RECORDS;
use cif_change::FileCause;
use cif_line::{FeedFault, Source, Taker, feed_all};
use std::alloc::Global;

/// Reads a source to its end, and returns its text as a CIF file of at most `limit` records. Stops
/// after the piece in which the first fault is found, and returns the fault. A piece has at most
/// 65,536 bytes, so an endless source isn't read beyond the piece with the first record above the
/// limit.
pub fn read_file<S: Source>(
    alloc: Global,
    source: &mut S,
    limit: u32,
) -> Result<CifFile, FileReadFault>
    requires failures { S.failures source.old < 2 ^ 64 - 1 }
    requires limit { limit ≤ MOST_RECORDS }
    ensures reads { EndsReadingFile WantsMemory S.left S.failures limit
        (ReadsText limit (S.left source.old)) source.old source.new result }
    ensures not_passed { IsNotPassed (S.ended source.old)
        (S.passed source.old) (S.passed source.new) }
{
    match read_kept(alloc, source, FileSoFar::new(alloc), limit) {
        Ok(ended) => Ok(ended.into_file()),
        Err(fault) => Err(fault),
    }
}

impl<K: ChangeKeeper> Taker for FileReading<K> {
    type Fault = FileFault;

    ghost Settings = { ℕ };

    ghost takes = { TakesFile K.keeps };

    ghost refuses = { λ _ limit text piece fault. RefusesPiece K.wants limit text piece fault };

    fn take(&mut self, piece: &[u8]) -> Result<(), FileFault> {
        self.feed(piece)
    }

    ghost bounded = { taken_is_bounded K.keeps };
}

/// Reads a source to its end, as [`read_file`] does, and returns what this keeper kept of the
/// source's file. Every record is checked, whether the keeper keeps it or not.
pub fn read_kept<S: Source, K: ChangeKeeper>(
    alloc: Global,
    source: &mut S,
    keeper: K,
    limit: u32,
) -> Result<Ended<K>, FileReadFault>
    requires failures { S.failures source.old < 2 ^ 64 - 1 }
    requires limit { limit ≤ MOST_RECORDS }
    requires none { K.keeps keeper [] [] }
    ensures reads { EndsReadingFile (WantsMemoryBy K.wants) S.left S.failures limit
        (ReadsEnded K.keeps limit (S.left source.old)) source.old source.new result }
    ensures not_passed { IsNotPassed (S.ended source.old)
        (S.passed source.old) (S.passed source.new) }
{
    let mut reading = FileReading::new(keeper, limit);
    match feed_all(alloc, source, &mut reading) {
        Ok(_) => ended_of(reading),
        Err(FeedFault::Source) => Err(FileReadFault::Source),
        Err(FeedFault::Memory) => Err(FileReadFault::Memory),
        Err(FeedFault::Refused(fault)) => Err(fault_of(fault)),
    }
}

/// Ends the input. Returns what the keeper kept of the file, or the fault of the text.
fn ended_of<K: ChangeKeeper>(reading: FileReading<K>) -> Result<Ended<K>, FileReadFault>
    ensures ok { IfOk result (EndsBy K.keeps reading) }
    ensures file { (limit : ℕ) (text : List ℕ) → IsReading K.keeps reading limit text →
        (fault : _) → result ≡ Err (FileReadFault.File fault) → IsFaultOf limit text fault }
    ensures memory { (limit : ℕ) (text : List ℕ) → IsReading K.keeps reading limit text →
        result ≡ Err FileReadFault.Memory →
        K.wants × WantsMemoryAt limit (lines_of text) (length (lines_of text))
        × IsFileText limit text (lines_of text) }
    ensures source { result ≢ Err FileReadFault.Source }
{
    match reading.end() {
        Ok(ended) => Ok(ended),
        Err(fault) => Err(fault_of(fault)),
    }
}

/// Converts a fault of the file to a fault of reading a source: returns `Memory` if memory ran out,
/// and otherwise `File`.
fn fault_of(fault: FileFault) -> FileReadFault
    ensures memory { fault.cause ≡ FileCause.Memory → result ≡ FileReadFault.Memory }
    ensures file { fault.cause ≢ FileCause.Memory → result ≡ FileReadFault.File fault }
    ensures source { result ≢ FileReadFault.Source }
{
    match fault.cause {
        FileCause::Memory => FileReadFault::Memory,
        _ => FileReadFault::File(fault),
    }
}
