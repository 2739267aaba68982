//! Writes the output of a job to the output device or to a file.
ghost use Rattle.std.specs.Prelude.{◌≡◌, ◌+◌, ◌-◌, ◌^◌, ◌<◌, ℕ, IfSome, Some, option_map};
ghost use Rattle.docker_cmd.specs.FaultLine.{IsCounted, result_status};
ghost use Rattle.docker_program.specs.SourceNames.{stored_by};
ghost use Rattle.docker_program.specs.Writing.{EndsWriting, drafting, written};

use crate::looks::Looked;
use cif_line::Sink;
use docker_cmd::{OfficeFault, Prepared, emit};
use docker_host::{Folder, end_draft};

/// Writes the output of a job: to the file that was looked at, or to `output` if the job writes no
/// file.
pub(crate) fn write_output<D: Folder, K: Sink>(
    looked: Option<Looked<'_, D::Seen>>,
    prepared: &Prepared<'_>,
    folder: &mut D,
    output: &mut K,
) -> Result<(), OfficeFault>
    requires name { option_map (λ it. it.name.now) looked ≡ stored_by prepared.now.job }
    requires folder { D.failures folder.old < 2 ^ 64 - 1 }
    requires output { K.failures output.old < 2 ^ 64 - 1 }
    ensures ends { (look : ℕ) → IfSome looked.entry (λ it. D.look_of it.seen ≡ look)
        → EndsWriting (drafting look D.names_bytes)
        (written (K.taken output.old) (K.taken output.new)
        (D.history folder.old) (D.history folder.new)) prepared.now result }
    ensures counted { IsCounted (result_status result)
        (D.failures folder.old + K.failures output.old)
        (D.failures folder.new + K.failures output.new) }
{
    match looked {
        None => emit(prepared, output),
        Some(looked) => write_file(prepared, looked, folder),
    }
}

/// Writes the output of a job to the file that was looked at. The output is written to a draft, and
/// the complete draft replaces the file.
fn write_file<D: Folder>(
    prepared: &Prepared<'_>,
    looked: Looked<'_, D::Seen>,
    folder: &mut D,
) -> Result<(), OfficeFault>
    requires name { stored_by prepared.now.job ≡ Some looked.name.now }
    requires folder { D.failures folder.old < 2 ^ 64 - 1 }
    ensures ends { (output : _) → EndsWriting (drafting (D.look_of looked.entry.seen) D.names_bytes)
        (written output output (D.history folder.old) (D.history folder.new)) prepared.now result }
    ensures counted { IsCounted (result_status result)
        (D.failures folder.old) (D.failures folder.new) }
{
    let mut made = match folder.create(looked.name, &looked.seen) {
        Ok(made) => made,
        Err(cause) => return Err(cause.one_of(OfficeFault::Sink, OfficeFault::Memory)),
    };
    let written = emit(prepared, &mut made.draft);
    end_draft(made, written, OfficeFault::Sink, folder)
}
