//! Runs a session on the real devices.
use docker_desk::serve_given;
use docker_host::{hold_standard, real_session_host};
use docker_program::own_words;
use std::process::ExitCode;

/// Serves one session with the words, the standard streams and the files that the system gives the
/// program. Returns the exit status.
pub fn run(rt: &HostRuntime) -> ExitCode {
    let _standard = hold_standard(rt);
    ExitCode::from(serve_given(rt.alloc(), own_words(rt), &mut real_session_host(rt)))
}
