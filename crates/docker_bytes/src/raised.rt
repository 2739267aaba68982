//! Reads a state whose horizon is raised. Entries lapse as they are read.
ghost use Rattle.std.specs.Prelude.{◌≡◌, ◌-◌, ◌^◌, ◌<◌};
ghost use Rattle.cif_device.specs.Device.{IsNotPassed};
ghost use Rattle.docker_model.specs.state.StateText.{dks_2};
ghost use Rattle.docker_bytes.specs.ReadEnds.{EndsReading};
ghost use Rattle.docker_bytes.specs.SourceRead.{RaisesState};

use crate::read::{ReadFault, read_format};
use cif_line::{Day, Source};
use state_text::format::Format;
use state_text::{HorizonDay, Lapsing, State};
use std::alloc::Global;
use std::marker::Brand;

/// Reads a source as `read_unindexed` does, and raises the horizon of its state to a day. An entry
/// whose body ended before this day lapses as soon as it is read, so its body takes no memory
/// afterwards. If the text's horizon isn't before the day, it stays as it is.
pub fn read_raised<S: Source>(
    alloc: Global,
    source: &mut S,
    day: Day,
    limit: u64,
) -> Result<State, ReadFault>
    requires { S.failures source.old < 2 ^ 64 - 1 }
    ensures reads { EndsReading S.left S.failures dks_2 limit
        (RaisesState dks_2 limit (S.left source.old) day) source.old source.new result }
    ensures not_passed { IsNotPassed (S.ended source.old)
        (S.passed source.old) (S.passed source.new) }
{
    raised_to::<Brand, S>(alloc, source, day, limit)
}

/// Like `read_raised`, for the day that the type `D` determines.
fn raised_to<D: HorizonDay, S: Source>(
    alloc: Global,
    source: &mut S,
    day: Day,
    limit: u64,
) -> Result<State, ReadFault>
    requires failures { S.failures source.old < 2 ^ 64 - 1 }
    requires day { day ≡ D.day }
    ensures reads { EndsReading S.left S.failures dks_2 limit
        (RaisesState dks_2 limit (S.left source.old) day) source.old source.new result }
    ensures not_passed { IsNotPassed (S.ended source.old)
        (S.passed source.old) (S.passed source.new) }
{
    let keeper: Lapsing<D> = Lapsing::new(alloc, day);
    read_format(alloc, Format::Dks2, keeper, source, limit)
}
