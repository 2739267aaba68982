//! Chooses the function that runs a row whose call allocates memory. The choice depends only on the
//! name of the call.

use crate::desk::Desk;
use crate::{file_growths, job_growths, office_growths, part_growths, run_growth, state_growths};

/// Runs a row that names this call.
pub(crate) fn do_row(desk: &Desk, call: &str, words: &[&str]) {
    match call {
        "FileParser::feed" => file_growths::feed(desk, words),
        "FileParser::finish" => file_growths::finish(desk, words),
        "FileParser" | "read_pieces" => file_growths::read(desk, call, words),
        "State::of_file" => file_growths::of_file(desk, words),
        "Parts::item" | "Parts::entry" | "Parts::finish" => part_growths::parts(desk, call, words),
        "Staging::offer" | "State::commit" => part_growths::staging(desk, call, words),
        "run" => run_growth::run_events(desk, words),
        _ => do_state_row(desk, call, words),
    }
}

/// Runs a row whose call reads or joins states, makes a docker, or makes a sink.
fn do_state_row(desk: &Desk, call: &str, words: &[&str]) {
    match call {
        "State::join" => state_growths::join(desk, words),
        "StateParser::feed" => state_growths::feed(desk, words),
        "StateParser::finish" => state_growths::finish(desk, words),
        "read_state" => state_growths::read(desk, words),
        "join_state" => state_growths::join_text(desk, words),
        "migrate" => state_growths::migrate_text(desk, words),
        "docker" => state_growths::make_docker(desk, words),
        "Kept::new" => state_growths::keep(desk, words),
        _ => do_office_row(desk, call, words),
    }
}

/// Runs a row that calls a function of an office or of a job.
fn do_office_row(desk: &Desk, call: &str, words: &[&str]) {
    match call {
        "Office::take"
        | "Office::receive"
        | "Office::reload"
        | "Office::reload_under"
        | "Office::migrate" => office_growths::read(desk, call, words),
        "Office::print" => office_growths::print(desk, words),
        "Office::read" => office_growths::read_whole(desk, words),
        "PlaceOffice::read" => office_growths::read_at_place(desk, words),
        "PlaceOffice::print" => office_growths::print_at_place(desk, words),
        "LedgerOffice::read" => office_growths::read_ledger(desk, words),
        "job" => job_growths::words_of_job(desk, words),
        "job_line" => job_growths::line_of_job(desk, words),
        "prepare" => job_growths::read_for_job(desk, words),
        "emit" => job_growths::write_for_job(desk, words),
        _ => desk.trouble("no such call"),
    }
}
