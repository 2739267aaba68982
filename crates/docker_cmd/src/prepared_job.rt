//! A job that has read its sources.
ghost use Rattle.std.specs.Prelude.{◌≡◌, ◌-◌, ◌^◌, ◌<◌, IfOk};
ghost use Rattle.cif_device.specs.Device.{IsNotPassed};
ghost use Rattle.docker_cmd.specs.Holding.{IsWrittenFrom, held_meant};
ghost use Rattle.docker_cmd.specs.Prepared.{EndsReadingSources, IsOfOneFile, IsPreparedFor, PreparedView};
ghost use Rattle.docker_cmd.specs.Tasks.{output_of, sources_of};
ghost use Rattle.docker_cmd.specs.Reads.{taken_file};

use crate::holding::{Holding, hold};
use crate::jobs::Job;
use cif_line::Source;
use docker_office::OfficeFault;
use std::alloc::Global;
use std::marker::Model;

/// A job that has read its sources, and is ready to write.
#[derive(Debug, Drop)]
pub struct Prepared<'a> {
    job: &'a Job,
    held: Holding,
}

impl<'a> Model for Prepared<'a> {
    ghost Value = { PreparedView };

    ghost view = { λ prepared. record {
      job = prepared.job.now;
      read = held_meant prepared.held;
    } };

    ghost invariant = { λ prepared. IsWrittenFrom (output_of prepared.job.now.task)
        prepared.held };
}

impl<'a> Prepared<'a> {
    /// Returns what the job keeps in memory: the counts of a file for `check`, and an office for
    /// any other job. The office may hold only the part of the state that the job writes.
    pub(crate) fn held(&self) -> &Holding
        ensures held { self.now.read ≡ held_meant result.now }
        ensures written { IsWrittenFrom (output_of self.now.job.task) result.now }
    {
        &self.held
    }
}

/// Reads a job's sources, in the order of its words, and returns the job with the counts of its
/// file or with an office. `new` reads nothing. `check` and `day` read FILE from the first source;
/// `print`, `files`, `horizon` and `migrate` read STATE from the first source. `take` and `merge`
/// read STATE from the first source. If the first source held a state, `take` then reads FILE from
/// the second source, and `merge` reads OTHER from the second source. Each source is read to its
/// end, or to the piece that decides the result. A piece has at most 65,536 bytes.
///
/// Fails with `File` or `State` if a source doesn't hold a file or a state, with `Source` if a
/// source failed, and with `Memory` if memory ran out. With `Memory`, the records and parts that
/// were read before memory ran out have no fault.
pub fn prepare<'a, S: Source, T: Source>(
    alloc: Global,
    job: &'a Job,
    first: &mut S,
    second: &mut T,
) -> Result<Prepared<'a>, OfficeFault>
    requires first { S.failures first.old < 2 ^ 64 - 1 }
    requires second { T.failures second.old < 2 ^ 64 - 1 }
    ensures reads { EndsReadingSources S.left S.failures T.left T.failures
        (IsPreparedFor job.now (S.left first.old) (T.left second.old))
        (sources_of job.now.task) first.old first.new second.old second.new result }
    ensures one_file { sources_of job.now.task ≡ taken_file →
        IfOk result (λ prepared. IsOfOneFile (S.left first.old) prepared.read) }
    ensures not_passed { IsNotPassed (S.ended first.old) (S.passed first.old) (S.passed first.new)
        × IsNotPassed (T.ended second.old) (T.passed second.old) (T.passed second.new) }
{
    let held = hold(alloc, job, first, second)?;
    Ok(Prepared { job, held })
}
