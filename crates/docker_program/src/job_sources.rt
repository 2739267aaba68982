//! Opens, reads and closes the sources of a job.
ghost use Rattle.std.specs.Prelude.{◌≡◌, ◌+◌, ◌-◌, ◌^◌, ◌<◌, OnOk};
ghost use Rattle.cif_device.specs.Device.{IsNotPassed};
ghost use Rattle.docker_cmd.specs.FaultLine.{IsCounted, result_status};
ghost use Rattle.docker_host.specs.History.{Bytes as HeldBytes};
ghost use Rattle.docker_program.specs.SourceNames.{file_and_input, two_files};
ghost use Rattle.docker_program.specs.Sources.{ReadsBy, ReadsNamed, asking};

use crate::job_names::names;
use crate::names::SourceNames;
use cif_line::{Bytes, Source};
use docker_cmd::{Job, OfficeFault, Prepared, prepare};
use docker_host::Folder;
use std::alloc::Global;

/// Opens the files that a job reads, each once, in the order of its words. Then reads the job's
/// sources, and closes the files in the same order. If standard input is a source, the bytes that
/// are left in it are read.
pub(crate) fn read_sources<'a, S: Source, D: Folder>(
    alloc: Global,
    job: &'a Job,
    stdin: &mut S,
    folder: &mut D,
) -> Result<Prepared<'a>, OfficeFault>
    requires stdin { S.failures stdin.old < 2 ^ 64 - 1 }
    requires folder { D.failures folder.old < 2 ^ 64 - 1 }
    ensures reads { ReadsNamed (asking (D.history folder.old) (D.history folder.new)
        (S.left stdin.old) (S.left stdin.new)) job.now result }
    ensures counted { IsCounted (result_status result)
        (S.failures stdin.old + D.failures folder.old)
        (S.failures stdin.new + D.failures folder.new) }
    ensures stdin_kept { OnOk result (S.failures stdin.new ≡ S.failures stdin.old) }
    ensures not_passed { IsNotPassed (S.ended stdin.old) (S.passed stdin.old) (S.passed stdin.new) }
    ensures folder_kept { OnOk result (D.failures folder.new ≡ D.failures folder.old) }
{
    match names(job) {
        SourceNames::None => prepare(alloc, job, &mut Bytes::new(&[], 1), &mut Bytes::new(&[], 1)),
        SourceNames::Stdin => prepare(alloc, job, stdin, &mut Bytes::new(&[], 1)),
        SourceNames::File(name) => {
            read_file_and_second(alloc, job, name, &mut Bytes::new(&[], 1), folder)
        },
        SourceNames::FileAndStdin(name) => read_file_and_second(alloc, job, name, stdin, folder),
        SourceNames::Files(name, other) => read_files(alloc, job, name, other, folder),
    }
}

/// Opens the file with this name, reads this file and the second source, and closes the file.
fn read_file_and_second<'a, T: Source, D: Folder>(
    alloc: Global,
    job: &'a Job,
    name: &str,
    second: &mut T,
    folder: &mut D,
) -> Result<Prepared<'a>, OfficeFault>
    requires second { T.failures second.old < 2 ^ 64 - 1 }
    requires folder { D.failures folder.old < 2 ^ 64 - 1 }
    ensures reads { ReadsBy (file_and_input name.now) (asking (D.history folder.old)
        (D.history folder.new) (T.left second.old) (T.left second.new)) job.now result }
    ensures counted { IsCounted (result_status result)
        (T.failures second.old + D.failures folder.old)
        (T.failures second.new + D.failures folder.new) }
    ensures second_kept { OnOk result (T.failures second.new ≡ T.failures second.old) }
    ensures not_passed { IsNotPassed (T.ended second.old)
        (T.passed second.old) (T.passed second.new) }
    ensures folder_kept { OnOk result (D.failures folder.new ≡ D.failures folder.old) }
{
    let mut file = match folder.open(name) {
        Ok(file) => file,
        Err(fault) => return Err(fault.one_of(OfficeFault::Source, OfficeFault::Memory)),
    };
    let prepared = prepare(alloc, job, &mut file, second);
    folder.close(file);
    prepared
}

/// Opens the files with these two names in this order, reads both, and closes them in this order.
fn read_files<'a, D: Folder>(
    alloc: Global,
    job: &'a Job,
    name: &str,
    other: &str,
    folder: &mut D,
) -> Result<Prepared<'a>, OfficeFault>
    requires { D.failures folder.old < 2 ^ 64 - 1 }
    ensures reads { (rest : HeldBytes) → ReadsBy (two_files name.now other.now)
        (asking (D.history folder.old) (D.history folder.new) rest rest) job.now result }
    ensures counted { IsCounted (result_status result)
        (D.failures folder.old) (D.failures folder.new) }
    ensures kept { OnOk result (D.failures folder.new ≡ D.failures folder.old) }
{
    let mut first = match folder.open(name) {
        Ok(first) => first,
        Err(cause) => return Err(cause.one_of(OfficeFault::Source, OfficeFault::Memory)),
    };
    let mut second = match folder.open(other) {
        Ok(second) => second,
        Err(cause) => {
            folder.close(first);
            return Err(cause.one_of(OfficeFault::Source, OfficeFault::Memory));
        }
    };
    let prepared = prepare(alloc, job, &mut first, &mut second);
    folder.close(first);
    folder.close(second);
    prepared
}
