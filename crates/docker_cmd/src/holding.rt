//! What a job keeps in memory after it has read its sources. `day`, `print` and `files` keep only
//! what their output needs.
ghost use Rattle.std.specs.Prelude.{◌-◌, ◌^◌, ◌<◌, IfOk};
ghost use Rattle.cif_device.specs.Device.{IsNotPassed};
ghost use Rattle.docker_cmd.specs.Holding.{IsWrittenFrom, held_meant};
ghost use Rattle.docker_cmd.specs.Prepared.{EndsReadingSources, IsReadOf};
ghost use Rattle.docker_cmd.specs.Tasks.{output_of, sources_of};

use crate::jobs::Job;
use crate::sources::{
    MOST_BYTES, counts_of_file, office_of_state_and_file, office_of_two_states, office_raised,
};
use crate::tasks::Task;
use cif_file::{FileCount, MOST_RECORDS};
use cif_line::Source;
use docker_office::{LedgerOffice, Office, OfficeFault, PlaceOffice};
use state_text::format::Format;
use std::alloc::Global;

/// What a job keeps in memory. It determines what the job writes.
#[derive(Debug, Drop)]
pub(crate) enum Holding {
    /// The counts of a file. The job writes the line with these counts.
    Counts(FileCount),
    /// A whole state. The job writes its text.
    Whole(Office),
    /// The excerpt from which the job makes its docker.
    Place(PlaceOffice),
    /// Only the ledger of a state. The job lists its files.
    Ledger(LedgerOffice),
}

/// Reads a job's sources, and keeps what the job needs for its output.
pub(crate) fn hold<S: Source, T: Source>(
    alloc: Global,
    job: &Job,
    first: &mut S,
    second: &mut T,
) -> Result<Holding, OfficeFault>
    requires first { S.failures first.old < 2 ^ 64 - 1 }
    requires second { T.failures second.old < 2 ^ 64 - 1 }
    ensures reads { EndsReadingSources S.left S.failures T.left T.failures
        (λ held. IsReadOf job.now.task (S.left first.old) (T.left second.old) (held_meant held))
        (sources_of job.now.task) first.old first.new second.old second.new result }
    ensures written { IfOk result (IsWrittenFrom (output_of job.now.task)) }
    ensures not_passed { IsNotPassed (S.ended first.old) (S.passed first.old) (S.passed first.new)
        × IsNotPassed (T.ended second.old) (T.passed second.old) (T.passed second.new) }
{
    match job.task() {
        Task::New => Ok(Holding::Whole(Office::new(alloc))),
        Task::Check => Ok(Holding::Counts(counts_of_file(alloc, first)?)),
        Task::Day { place, day } => {
            let office = PlaceOffice::take(alloc, place, day, first, MOST_RECORDS)?;
            Ok(Holding::Place(office))
        }
        Task::Take => Ok(Holding::Whole(office_of_state_and_file(alloc, first, second)?)),
        Task::Merge => Ok(Holding::Whole(office_of_two_states(alloc, first, second)?)),
        Task::Print { place, day } => {
            let office = PlaceOffice::read(alloc, place, day, first, MOST_BYTES)?;
            Ok(Holding::Place(office))
        }
        Task::Files => Ok(Holding::Ledger(LedgerOffice::read(alloc, first, MOST_BYTES)?)),
        Task::Horizon { day } => Ok(Holding::Whole(office_raised(alloc, first, day)?)),
        Task::Migrate => {
            let office = Office::read(alloc, Format::Dks1, first, MOST_BYTES)?;
            Ok(Holding::Whole(office))
        }
    }
}
