//! Stores the text of an office's state in a file.
ghost use Rattle.std.specs.Prelude.{◌-◌, ◌^◌, ◌<◌};
ghost use Rattle.docker_model.specs.state.StateText.{dks_2, state_text};
ghost use Rattle.docker_cmd.specs.FaultLine.{IsCounted, result_status};
ghost use Rattle.docker_desk.specs.Desk.{EndsStoring};

use docker_cmd::{Office, OfficeFault};
use docker_host::{Folder, end_draft};

/// Makes a draft based on a look at the named file, writes the text of the office's state to the
/// draft, and replaces the file with the draft.
pub(crate) fn store_office<D: Folder>(
    office: &Office,
    name: &str,
    seen: &D::Seen,
    folder: &mut D,
) -> Result<(), OfficeFault>
    requires { D.failures folder.old < 2 ^ 64 - 1 }
    ensures ends { EndsStoring D.names_bytes name.now (D.look_of seen.now)
        (state_text dks_2 office.now) (D.history folder.old) (D.history folder.new) result }
    ensures counted { IsCounted (result_status result)
        (D.failures folder.old) (D.failures folder.new) }
{
    let mut made = match folder.create(name, seen) {
        Ok(made) => made,
        Err(cause) => return Err(cause.one_of(OfficeFault::Sink, OfficeFault::Memory)),
    };
    let written = office.send(&mut made.draft);
    end_draft(made, written, OfficeFault::Sink, folder)
}
