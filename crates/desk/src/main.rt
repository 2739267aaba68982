//! The program `desk`: keeps an office's state in memory, and answers one request per line.
#![tactic(auto)]

mod real_session;

use real_session::run;
use std::process::ExitCode;

fn main(rt: HostRuntime) -> ExitCode {
    run(&rt)
}
