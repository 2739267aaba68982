//! The real devices of a session.
ghost use Rattle.std.specs.Prelude.{◌≡◌, []};
ghost use Rattle.docker_host.specs.SessionHost.{FailedFew};

use crate::input_device::InputDevice;
use crate::output_device::OutputDevice;
use crate::real_folder::RealFolder;
use crate::session_host::SessionHost;
use crate::streams::Streams;
use std::io::{Stderr, Stdin, Stdout};

/// Returns the real devices of a session: the standard streams and the real files. No device has
/// failed, and both histories are empty.
pub fn real_session_host(
    rt: &HostRuntime,
) -> SessionHost<InputDevice<Stdin>, RealFolder, OutputDevice<Stdout>, OutputDevice<Stderr>>
    ensures few { FailedFew result }
    ensures no_failure { result.folder_failures ≡ 0 }
    ensures history { result.history ≡ [] }
    ensures exchanges { result.streams.exchanges ≡ [] }
{
    SessionHost {
        streams: Streams::new(InputDevice::stdin(rt), OutputDevice::stdout(rt)),
        folder: RealFolder::new(rt),
        faults: OutputDevice::stderr(rt),
    }
}
