//! Reads a state's text in the older format, `DKS1`, which has no horizon.
ghost use Rattle.std.specs.Prelude.{◌-◌, ◌^◌, ◌<◌};
ghost use Rattle.cif_device.specs.Device.{IsNotPassed};
ghost use Rattle.docker_model.specs.state.StateText.{dks_1};
ghost use Rattle.docker_bytes.specs.ReadEnds.{EndsReading};
ghost use Rattle.docker_bytes.specs.SourceRead.{ReadsState};

use crate::read::{ReadFault, read_format};
use cif_line::Source;
use state_text::format::Format;
use state_text::{Indexing, State};
use std::alloc::Global;

/// Reads a source as `read_state` does, but accepts a text with the mark `DKS1`. A text with this
/// mark has no horizon, so the state has no horizon. A text with the mark `DKS2` is refused with a
/// fault at offset 0.
pub fn migrate<S: Source>(alloc: Global, source: &mut S, limit: u64) -> Result<State, ReadFault>
    requires { S.failures source.old < 2 ^ 64 - 1 }
    ensures reads { EndsReading S.left S.failures dks_1 limit
        (ReadsState dks_1 limit (S.left source.old)) source.old source.new result }
    ensures not_passed { IsNotPassed (S.ended source.old)
        (S.passed source.old) (S.passed source.new) }
{
    read_format(alloc, Format::Dks1, Indexing::new(alloc), source, limit)
}
