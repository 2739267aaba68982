//! Tests calls with truncated texts, small limits, endless sources, failing devices, and memory
//! that runs out. Each line of standard input is a row of a table. A row names a call, the texts
//! that the call receives, and the expected text. Files and dockers are made in `records.rt`, and
//! other texts are in the folder `data`. The program prints the results. If a result isn't the
//! expected text, the program also prints a statement about the difference, so that its output
//! differs from the file `stdout`.
//!
//! A row that begins with `growth` names a call that allocates memory. The call is made once, and
//! once more if memory runs out. `tests/programs/growth/test_calls.py` runs the program once for
//! each allocation of the first call, and refuses that allocation.
#![tactic(auto)]

mod answers;
mod asking;
mod copies;
mod desk;
mod devices;
mod endings;
mod file_growths;
mod growths;
mod job_growths;
mod knowledge;
mod office_growths;
mod part_growths;
mod records;
mod run_growth;
mod spans;
mod state_growths;
mod tables;
mod texts;

use desk::Desk;

fn main(rt: HostRuntime) {
    for line in rt.lines(rt.alloc()) {
        match line {
            Ok(row) => do_row(&Desk::of(&rt, row.as_str())),
            Err(_) => Desk::of(&rt, "").trouble("a row can't be read"),
        }
    }
}

/// Runs a row. If the first word is `growth`, the row's call allocates memory. Otherwise the first
/// word is the name of a table.
fn do_row(desk: &Desk) {
    let words = desk.words();
    match words.as_slice() {
        [first, call, rest @ ..] if *first == "growth" => growths::do_row(desk, call, rest),
        [first, rest @ ..] => tables::do_row(desk, first, rest),
        _ => desk.trouble("a row without a word"),
    }
}
