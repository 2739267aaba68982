//! Runs the program `docker` with several lists of words, one after another. After the output for
//! each list it prints the exit status.
#![tactic(auto)]

use docker_host::real_host;
use docker_program::perform;
use std::io;

fn main(rt: HostRuntime) -> io::Result<()> {
    let rows: [&[&str]; 14] = [
        &["check", "one-schedule.cif"],
        &["day", "one-schedule.cif", "BRAYTON", "2024-06-10"],
        &["day", "two-schedules.cif", "ASHFELD", "2024-06-10"],
        &["print", "one-schedule.state", "ASHFELD", "2024-06-10"],
        &["files", "one-schedule.state"],
        &["print", "one-schedule.cif", "ASHFELD", "2024-06-10"],
        &["check", "short-line.cif"],
        &["frobnicate", "one-schedule.cif"],
        &["day", "one-schedule.cif", "ASHFELD", "2024-02-30"],
        &["take", "stdin", "one-schedule.cif"],
        &["take", "missing.state", "one-schedule.cif"],
        &["check", "missing.cif"],
        &["check", "."],
        &["check", "stdin"],
    ];
    for words in rows {
        let status = perform(rt.alloc(), words, &mut real_host(&rt));
        println!(rt; "status {status}")?;
    }
    Ok(())
}
