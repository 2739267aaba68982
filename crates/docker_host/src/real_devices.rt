//! The real devices of a program.
ghost use Rattle.std.specs.Prelude.{◌≡◌, []};
ghost use Rattle.docker_host.specs.Host.{AreFew};

use crate::host::Host;
use crate::input_device::InputDevice;
use crate::output_device::OutputDevice;
use crate::real_folder::RealFolder;
use std::io::{Stderr, Stdin, Stdout};

/// Returns the real devices: the standard streams and the real files. No device has failed, and the
/// history of the folder is empty.
pub fn real_host(
    rt: &HostRuntime,
) -> Host<InputDevice<Stdin>, RealFolder, OutputDevice<Stdout>, OutputDevice<Stderr>>
    ensures few { AreFew result }
    ensures no_failure { result.folder_failures ≡ 0 }
    ensures history { result.history ≡ [] }
{
    Host {
        input: InputDevice::stdin(rt),
        folder: RealFolder::new(rt),
        output: OutputDevice::stdout(rt),
        faults: OutputDevice::stderr(rt),
    }
}
