//! The program `docker`: prints the docker of a timing point from CIF extracts, and keeps what it
//! knows from the extracts in a state.
#![tactic(auto)]

use docker_program::run;
use std::process::ExitCode;

fn main(rt: HostRuntime) -> ExitCode {
    run(&rt)
}
