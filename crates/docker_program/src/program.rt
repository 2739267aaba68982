//! The program: the order in which it looks, reads and writes.
ghost use Rattle.std.specs.Prelude.{◌≡◌};
ghost use Rattle.cif_device.specs.Device.{IsNotPassed};
ghost use Rattle.docker_cmd.specs.FaultLine.{IsCounted};
ghost use Rattle.docker_cmd.specs.Words.{texts};
ghost use Rattle.docker_host.specs.Host.{AreFew};
ghost use Rattle.docker_program.specs.Program.{EndsBy, Performs, ending_status, failures_of, fault_in};

use crate::fault_report::tell;
use crate::job_output::write_output;
use crate::job_sources::read_sources;
use crate::looks::look_at_stored;
use crate::request::requested_job;
use cif_line::{Sink, Source};
use docker_cmd::Fault;
use docker_host::{Folder, Host};
use std::alloc::Global;
use std::mem;

/// Does the job that is requested: looks at the file that the job writes, reads the job's sources,
/// and then writes its output.
fn do_job<S: Source, D: Folder, K: Sink, L: Sink>(
    alloc: Global,
    words: &[&str],
    host: &mut Host<S, D, K, L>,
) -> Result<(), Fault>
    requires few { AreFew host.old }
    ensures ends { EndsBy (texts words.now) D.names_bytes host.old host.new (fault_in result) }
    ensures counted { IsCounted (ending_status (fault_in result))
        (failures_of host.old) (failures_of host.new) }
    ensures faults { host.new.faults ≡ host.old.faults }
    ensures untold { host.new.faults_failures ≡ host.old.faults_failures }
    ensures not_passed { IsNotPassed host.old.ended host.old.passed host.new.passed }
{
    let job = requested_job(alloc, words, &mut host.input)?;
    let looked = look_at_stored(&job, &mut host.folder);
    let prepared = read_sources(alloc, &job, &mut host.input, &mut host.folder)?;
    let done = write_output(looked, &prepared, &mut host.folder, &mut host.output);
    // The program ends here. What the program has read isn't freed piece by piece, because the
    // system takes back all memory of the program at once.
    mem::forget(prepared);
    Ok(done?)
}

/// Does the job that the words name, and returns the exit status. Without words, the first line of
/// standard input names the job. If the job writes a file, the program looks at this file first.
/// Then it opens every file that the job reads, once, in the order of the words; only after that is
/// anything read. After the last read the files are closed in the same order. Only then is a draft
/// made or anything written. No draft is left over. A fault is reported as one line on the sink of
/// faults.
pub fn perform<S: Source, D: Folder, K: Sink, L: Sink>(
    alloc: Global,
    words: &[&str],
    host: &mut Host<S, D, K, L>,
) -> u8
    requires few { AreFew host.old }
    ensures performs { Performs (texts words.now) D.names_bytes host.old host.new result }
{
    match do_job(alloc, words, host) {
        Ok(()) => 0,
        Err(fault) => tell(&fault, &mut host.faults),
    }
}
