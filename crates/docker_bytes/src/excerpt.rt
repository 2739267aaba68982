//! Reads a state for a command that doesn't write it. The reader keeps only the part of the state
//! from which the docker of one place and one day is made, or only the ledger.
ghost use Rattle.std.specs.Prelude.{◌≡◌, ◌-◌, ◌^◌, ◌<◌};
ghost use Rattle.cif_device.specs.Device.{IsNotPassed};
ghost use Rattle.docker_model.specs.state.StateText.{dks_2};
ghost use Rattle.docker_bytes.specs.Excerpts.{IsExcerptAt};
ghost use Rattle.docker_bytes.specs.ReadEnds.{EndsReading};
ghost use Rattle.docker_bytes.specs.SourceRead.{ReadsMade, ReadsState};

use crate::read::{ReadFault, read_format};
use cif_line::{Day, Source, Tiploc};
use docker_excerpt::{Excerpt, ExcerptingAt, KeptLedger, Ledger, PlaceDay};
use state_text::format::Format;
use std::alloc::Global;
use std::marker::Brand;

/// Reads a source as `read_state` does, and returns an excerpt of its state: the part from which
/// the docker of a place and a day is made. All parts of the text are judged, whether they are kept
/// or not. An excerpt isn't a state: no call writes, joins or sends it.
pub fn read_excerpt<S: Source>(
    alloc: Global,
    source: &mut S,
    place: Tiploc,
    day: Day,
    limit: u64,
) -> Result<Excerpt, ReadFault>
    requires { S.failures source.old < 2 ^ 64 - 1 }
    ensures reads { EndsReading S.left S.failures dks_2 limit
        (ReadsMade (IsExcerptAt place day) dks_2 limit (S.left source.old)) source.old source.new result }
    ensures not_passed { IsNotPassed (S.ended source.old)
        (S.passed source.old) (S.passed source.new) }
{
    excerpt_at::<Brand, S>(alloc, source, place, day, limit)
}

/// Like `read_excerpt`, for the place and the day that the type `P` determines.
fn excerpt_at<P: PlaceDay, S: Source>(
    alloc: Global,
    source: &mut S,
    place: Tiploc,
    day: Day,
    limit: u64,
) -> Result<Excerpt, ReadFault>
    requires failures { S.failures source.old < 2 ^ 64 - 1 }
    requires place { place ≡ P.place }
    requires day { day ≡ P.day }
    ensures reads { EndsReading S.left S.failures dks_2 limit
        (ReadsMade (IsExcerptAt place day) dks_2 limit (S.left source.old)) source.old source.new result }
    ensures not_passed { IsNotPassed (S.ended source.old)
        (S.passed source.old) (S.passed source.new) }
{
    let keeper: ExcerptingAt<P> = ExcerptingAt::new(alloc, place, day);
    read_format(alloc, Format::Dks2, keeper, source, limit)
}

/// Reads a source as `read_state` does, and returns the ledger of its state. All parts of the text
/// are judged, but no entry is kept. So the call allocates memory only for the ledger and for the
/// lines of one schedule.
pub fn read_ledger<S: Source>(
    alloc: Global,
    source: &mut S,
    limit: u64,
) -> Result<KeptLedger, ReadFault>
    requires { S.failures source.old < 2 ^ 64 - 1 }
    ensures reads { EndsReading S.left S.failures dks_2 limit
        (ReadsState dks_2 limit (S.left source.old)) source.old source.new result }
    ensures not_passed { IsNotPassed (S.ended source.old)
        (S.passed source.old) (S.passed source.new) }
{
    read_format(alloc, Format::Dks2, Ledger::new(alloc), source, limit)
}
