//! Reads a CIF file from a source, and keeps only what the docker of one place on one day may need.
ghost use Rattle.std.specs.Prelude.{◌≡◌, ◌-◌, ◌^◌, ◌<◌, ◌≤◌};
ghost use Rattle.cif_device.specs.Device.{IsNotPassed};
ghost use Rattle.cif_file.specs.FileEnds.{EndsReadingFile};
ghost use Rattle.cif_file.specs.SourceRead.{WantsMemory};
ghost use Rattle.docker_excerpt.specs.ThinEnded.{ReadsThin};

use crate::place_day::PlaceDay;
use crate::thin_file::{ThinFile, thin_of};
use crate::thin_kept::ThinSoFar;
use cif_file::{FileReadFault, MOST_RECORDS, read_kept};
use cif_line::{Day, Source, Tiploc};
use std::alloc::Global;
use std::marker::Brand;

/// Reads a source to its end, like `read_file` of `cif_file`, but keeps only what the docker of this
/// place on this day may need. Every record is checked, whether it is kept or not.
pub fn read_thin<S: Source>(
    alloc: Global,
    source: &mut S,
    place: Tiploc,
    day: Day,
    limit: u32,
) -> Result<ThinFile, FileReadFault>
    requires failures { S.failures source.old < 2 ^ 64 - 1 }
    requires limit { limit ≤ MOST_RECORDS }
    ensures reads { EndsReadingFile WantsMemory S.left S.failures limit
        (ReadsThin place day limit (S.left source.old)) source.old source.new result }
    ensures not_passed { IsNotPassed (S.ended source.old)
        (S.passed source.old) (S.passed source.new) }
{
    thin_at::<Brand, S>(alloc, source, place, day, limit)
}

/// Implements `read_thin`. For proofs, the type `P` gives the place and the day.
fn thin_at<P: PlaceDay, S: Source>(
    alloc: Global,
    source: &mut S,
    place: Tiploc,
    day: Day,
    limit: u32,
) -> Result<ThinFile, FileReadFault>
    requires failures { S.failures source.old < 2 ^ 64 - 1 }
    requires limit { limit ≤ MOST_RECORDS }
    requires place { place ≡ P.place }
    requires day { day ≡ P.day }
    ensures reads { EndsReadingFile WantsMemory S.left S.failures limit
        (ReadsThin place day limit (S.left source.old)) source.old source.new result }
    ensures not_passed { IsNotPassed (S.ended source.old)
        (S.passed source.old) (S.passed source.new) }
{
    let keeper: ThinSoFar<P> = ThinSoFar::new(alloc, place, day);
    match read_kept(alloc, source, keeper, limit) {
        Ok(ended) => Ok(thin_of(ended)),
        Err(fault) => Err(fault),
    }
}
