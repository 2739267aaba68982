//! Reads the sources of the jobs that read a file's counts or a whole state.
ghost use Rattle.std.specs.Prelude.{◌-◌, ◌^◌, ◌<◌, ℕ};
ghost use Rattle.cif_device.specs.Device.{IsNotPassed};
ghost use Rattle.cif_file.specs.SourceRead.{CountsText};
ghost use Rattle.docker_model.specs.file.File.{most_records};
ghost use Rattle.docker_model.specs.state.StateText.{dks_2};
ghost use Rattle.docker_bytes.specs.SourceRead.{RaisesState};
ghost use Rattle.docker_cmd.specs.Prepared.{CountsSources, DeviceBytes, EndsReadingSources, JoinsBehind, ReadsSources, TakesBehind, most_bytes};
ghost use Rattle.docker_cmd.specs.Reads.{checked_file, state_and_file, two_states};
ghost use Rattle.docker_office.specs.OfficeReads.{EndsReadingState};

use cif_file::{FileCount, MOST_RECORDS, judge_file};
use cif_line::{Day, Source};
use docker_office::{Office, OfficeFault};
use state_text::format::Format;
use std::alloc::Global;

/// The most bytes that a state's text may have.
pub const MOST_BYTES: u64 = 1_099_511_627_776;

/// Checks the file that a source holds, and returns its counts.
pub(crate) fn counts_of_file<S: Source>(
    alloc: Global,
    source: &mut S,
) -> Result<FileCount, OfficeFault>
    requires { S.failures source.old < 2 ^ 64 - 1 }
    ensures reads { (second : DeviceBytes) → ReadsSources
        (CountsText most_records (S.left source.old)) checked_file
        (S.left source.old) (S.left source.new) second second result }
    ensures counted { (second : ℕ) → CountsSources result
        (S.failures source.old) (S.failures source.new) second second }
    ensures not_passed { IsNotPassed (S.ended source.old)
        (S.passed source.old) (S.passed source.new) }
{
    Ok(judge_file(alloc, source, MOST_RECORDS)?)
}

/// Returns an office that has read the state in a source and set its horizon to this day.
pub(crate) fn office_raised<S: Source>(
    alloc: Global,
    source: &mut S,
    day: Day,
) -> Result<Office, OfficeFault>
    requires { S.failures source.old < 2 ^ 64 - 1 }
    ensures reads { EndsReadingState S.left S.failures dks_2 most_bytes
        (RaisesState dks_2 most_bytes (S.left source.old) day) source.old source.new result }
    ensures not_passed { IsNotPassed (S.ended source.old)
        (S.passed source.old) (S.passed source.new) }
{
    let mut office = Office::new(alloc);
    office.reload_under(source, day, MOST_BYTES)?;
    Ok(office)
}

/// Returns an office that has read the state in the first source and then taken the file in the
/// second source.
pub(crate) fn office_of_state_and_file<S: Source, T: Source>(
    alloc: Global,
    first: &mut S,
    second: &mut T,
) -> Result<Office, OfficeFault>
    requires first { S.failures first.old < 2 ^ 64 - 1 }
    requires second { T.failures second.old < 2 ^ 64 - 1 }
    ensures reads { EndsReadingSources S.left S.failures T.left T.failures
        (TakesBehind (S.left first.old) (T.left second.old)) state_and_file
        first.old first.new second.old second.new result }
    ensures not_passed { IsNotPassed (S.ended first.old) (S.passed first.old) (S.passed first.new)
        × IsNotPassed (T.ended second.old) (T.passed second.old) (T.passed second.new) }
{
    let mut taker = Office::read(alloc, Format::Dks2, first, MOST_BYTES)?;
    taker.take(second, MOST_RECORDS)?;
    Ok(taker)
}

/// Returns an office that has read the state in the first source and then received the state in the
/// second source.
pub(crate) fn office_of_two_states<S: Source, T: Source>(
    alloc: Global,
    first: &mut S,
    second: &mut T,
) -> Result<Office, OfficeFault>
    requires first { S.failures first.old < 2 ^ 64 - 1 }
    requires second { T.failures second.old < 2 ^ 64 - 1 }
    ensures reads { EndsReadingSources S.left S.failures T.left T.failures
        (JoinsBehind (S.left first.old) (T.left second.old)) two_states
        first.old first.new second.old second.new result }
    ensures not_passed { IsNotPassed (S.ended first.old) (S.passed first.old) (S.passed first.new)
        × IsNotPassed (T.ended second.old) (T.passed second.old) (T.passed second.new) }
{
    let mut receiver = Office::read(alloc, Format::Dks2, first, MOST_BYTES)?;
    receiver.receive(second, MOST_BYTES)?;
    Ok(receiver)
}
