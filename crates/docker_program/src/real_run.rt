//! Runs the program on the real devices.
ghost use Rattle.std.specs.Prelude.{◌≢◌, Err};

use crate::given::perform_given;
use docker_cmd::JobFault;
use docker_host::{hold_standard, real_host};
use std::env;
use std::io::ErrorKind;
use std::process::ExitCode;

/// Runs the program once, with the words, the standard streams and the files that the system gives
/// the program. Returns the exit status.
pub fn run(rt: &HostRuntime) -> ExitCode {
    let _standard = hold_standard(rt);
    ExitCode::from(perform_given(rt.alloc(), own_words(rt), &mut real_host(rt)))
}

/// Returns the words after the program's name. Fails with `Usage` if a word isn't valid UTF-8, and
/// with `Memory` if there is no memory for the words.
pub fn own_words(rt: &HostRuntime) -> Result<Vec<String>, JobFault>
    ensures { result ≢ Err JobFault.Source }
{
    let all = match env::args(rt) {
        Ok(all) => all,
        Err(error) if error.kind() == ErrorKind::OutOfMemory => return Err(JobFault::Memory),
        Err(_) => return Err(JobFault::Usage),
    };
    Ok(all.skip(1).collect(rt.alloc())?)
}
