//! Starts a session.
ghost use Rattle.std.specs.Prelude.{◌≡◌, ◌-◌, ◌^◌, ◌<◌, IfOk, length};
ghost use Rattle.docker_cmd.specs.FaultLine.{IsCounted, result_status};
ghost use Rattle.docker_desk.specs.Reading.{LooksAndOpens};
ghost use Rattle.docker_desk.specs.Serving.{EndsOpening};

use crate::desk::Desk;
use crate::reading::reload_state;
use crate::session::Session;
use docker_cmd::{Office, OfficeFault};
use docker_host::Folder;
use std::alloc::Global;

/// Looks at the named file, then opens it and reads its state. The look is made even if the file
/// can't be opened. If the call fails, with `State`, `Source` or `Memory`, there is no session.
pub fn open_session<D: Folder>(
    alloc: Global,
    name: &str,
    folder: &mut D,
) -> Result<Session<D::Seen>, OfficeFault>
    requires { D.failures folder.old < 2 ^ 64 - 1 }
    ensures opens { LooksAndOpens name.now (EndsOpening (λ session. session.desk) result)
        (D.history folder.old) (D.history folder.new) }
    ensures look { IfOk result (λ session. D.look_of session.seen
        ≡ length (D.history folder.old)) }
    ensures counted { IsCounted (result_status result)
        (D.failures folder.old) (D.failures folder.new) }
{
    let seen = folder.look(name);
    let mut office = Office::new(alloc);
    match reload_state(&mut office, name, folder) {
        Ok(()) => Ok(Session {
            desk: Desk::new(alloc, office),
            seen,
        }),
        Err(fault) => Err(fault),
    }
}
