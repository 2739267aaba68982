//! Writes the output of a job.
ghost use Rattle.std.specs.Prelude.{◌≡◌, ◌-◌, ◌^◌, ◌<◌, IfErr, OnErr, OnOk, Err};
ghost use Rattle.cif_device.specs.Device.{CountsFailure, Takes, TakesPart};
ghost use Rattle.docker_cmd.specs.Prepared.{EndsEmitting, IsRefused, IsRefusedDocker, file_read, office_read};
ghost use Rattle.docker_cmd.specs.Writes.{counts_written, docker_written, files_written, state_written};
ghost use Rattle.docker_cmd.specs.Tasks.{output_of};

use crate::check_line::check_line;
use crate::holding::Holding;
use crate::prepared_job::Prepared;
use cif_file::FileCount;
use cif_line::{Sink, write_all};
use docker_office::{LedgerOffice, Office, OfficeFault, PlaceOffice};

/// Writes what the job prints, or the text of the state that the job stores. `check` writes the
/// line with its file's counts. `day` and `print` write the docker of the timing point and the day
/// that their words name. `files` lists the files that the office knows. Any other job writes the
/// text of the office's state.
///
/// Returns `Lapsed` for a docker of a day before the third day after the state's horizon. Returns
/// `Memory` if there is no memory for a docker. In both cases nothing is written. Returns `Sink` if
/// the sink fails; the sink has then gained a proper prefix of the text.
pub fn emit<K: Sink>(prepared: &Prepared<'_>, sink: &mut K) -> Result<(), OfficeFault>
    requires { K.failures sink.old < 2 ^ 64 - 1 }
    ensures ends { EndsEmitting K.taken K.failures (output_of prepared.now.job.task)
        prepared.now.read sink.old sink.new result }
    ensures lapsed { IsRefused prepared.now → result ≡ Err OfficeFault.Lapsed }
{
    match prepared.held() {
        Holding::Counts(file) => write_counts(file, sink),
        Holding::Whole(office) => write_state(office, sink),
        Holding::Place(office) => write_place(office, sink),
        Holding::Ledger(office) => write_ledger(office, sink),
    }
}

/// Writes the line with a file's counts.
fn write_counts<K: Sink>(file: &FileCount, sink: &mut K) -> Result<(), OfficeFault>
    requires { K.failures sink.old < 2 ^ 64 - 1 }
    ensures { EndsEmitting K.taken K.failures counts_written (file_read file.now)
        sink.old sink.new result }
{
    let text = check_line(file.records(), file.changes());
    write(sink, text.as_slice())
}

/// Writes the text. If the sink fails, the sink has gained a proper prefix of the text.
fn write<K: Sink>(sink: &mut K, text: &[u8]) -> Result<(), OfficeFault>
    requires { K.failures sink.old < 2 ^ 64 - 1 }
    ensures whole { OnOk result (Takes (K.taken sink.old) text.now (K.taken sink.new)) }
    ensures part { OnErr result (TakesPart (K.taken sink.old) text.now (K.taken sink.new)) }
    ensures failures { CountsFailure (result ≡ Err OfficeFault.Sink)
        (K.failures sink.old) (K.failures sink.new) }
    ensures only { IfErr result (λ fault. fault ≡ OfficeFault.Sink) }
{
    write_all(sink, text).map_err(|_| OfficeFault::Sink)
}

/// Writes the text of an office's state.
fn write_state<K: Sink>(office: &Office, sink: &mut K) -> Result<(), OfficeFault>
    requires { K.failures sink.old < 2 ^ 64 - 1 }
    ensures { EndsEmitting K.taken K.failures state_written (office_read office.now)
        sink.old sink.new result }
{
    office.send(sink)
}

/// Writes the docker for which the excerpt was made.
fn write_place<K: Sink>(office: &PlaceOffice, sink: &mut K) -> Result<(), OfficeFault>
    requires { K.failures sink.old < 2 ^ 64 - 1 }
    ensures ends { EndsEmitting K.taken K.failures (docker_written office.now.place office.now.day)
        (office_read office.now.state) sink.old sink.new result }
    ensures lapsed { IsRefusedDocker (docker_written office.now.place office.now.day)
        (office_read office.now.state) → result ≡ Err OfficeFault.Lapsed }
{
    office.print(sink)
}

/// Writes the list of the files in a ledger.
fn write_ledger<K: Sink>(office: &LedgerOffice, sink: &mut K) -> Result<(), OfficeFault>
    requires { K.failures sink.old < 2 ^ 64 - 1 }
    ensures { EndsEmitting K.taken K.failures files_written (office_read office.now)
        sink.old sink.new result }
{
    office.files(sink)
}
