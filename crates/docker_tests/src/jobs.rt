//! Tests of the jobs that the words of a command name.

use crate::compare::same_of;
use cif_line::{Day, Tiploc};
use docker_cmd::{JobFault, Subcommand, job};
use std::alloc::Global;
use std::process::Abort;

/// A row: the words, and the subcommand, the timing point and the day number of the job that they
/// name.
type Row = (
    &'static [&'static str],
    Subcommand,
    Option<[u8; 7]>,
    Option<u16>,
);

const JOBS: &[Row] = &[
    (&["new", "S"], Subcommand::New, None, None),
    (&["check", "F"], Subcommand::Check, None, None),
    (&["check", "stdin"], Subcommand::Check, None, None),
    (
        &["day", "F", "ASHFELD", "2024-06-10"],
        Subcommand::Day,
        Some(*b"ASHFELD"),
        Some(23537),
    ),
    (
        &["day", "stdin", "ELM", "2059-12-31"],
        Subcommand::Day,
        Some(*b"ELM    "),
        Some(36524),
    ),
    (&["take", "S", "F"], Subcommand::Take, None, None),
    (&["take", "S", "stdin"], Subcommand::Take, None, None),
    (&["merge", "S", "S2"], Subcommand::Merge, None, None),
    (&["merge", "S", "stdin"], Subcommand::Merge, None, None),
    (
        &["print", "stdin", "ASHFELD", "2024-06-14"],
        Subcommand::Print,
        Some(*b"ASHFELD"),
        Some(23541),
    ),
    (&["files", "stdin"], Subcommand::Files, None, None),
    (
        &["horizon", "S", "2024-06-05"],
        Subcommand::Horizon,
        None,
        Some(23532),
    ),
    (&["migrate", "S"], Subcommand::Migrate, None, None),
];

/// Returns the code of a timing point.
fn code_of(tiploc: Option<Tiploc>) -> Option<[u8; 7]> {
    match tiploc {
        Some(tiploc) => Some(*tiploc.bytes()),
        None => None,
    }
}

/// Returns the number of a day.
fn number_of(day: Option<Day>) -> Option<u16> {
    match day {
        Some(day) => Some(day.number()),
        None => None,
    }
}

/// Asserts that the words of this row name the row's job.
fn is_job(rt: &impl Abort, alloc: Global, row: &Row) {
    let (words, subcommand, tiploc, day) = *row;
    let job = job(alloc, words).expect(rt, "a job");
    same_of(rt, words, job.subcommand(), subcommand);
    same_of(rt, words, job.words().len() + 1, words.len());
    same_of(rt, words, code_of(job.tiploc()), tiploc);
    same_of(rt, words, number_of(job.day()), day);
}

#[test]
fn words_that_name_a_job(rt: HostRuntime) {
    for row in JOBS {
        is_job(&rt, rt.alloc(), row);
    }
}

/// Words that name no job.
const NONE: &[&[&str]] = &[
    &[],
    &["new"],
    &["new", "S", "F"],
    &["new", "stdin"],
    &["check"],
    &["check", "F", "G"],
    &["check", ""],
    &["check", "-"],
    &["day"],
    &["day", "F"],
    &["day", "F", "ASHFELD"],
    &["day", "F", "ASHFELD", "2024-02-30"],
    &["day", "F", "ASHFELDX", "2024-06-10"],
    &["day", "F", "ASHFELD", "2024-06-10", "x"],
    &["day", "F", "2024-06-10", "ASHFELD"],
    &["day", "-", "ASHFELD", "2024-06-10"],
    &["day", "--", "F", "ASHFELD", "2024-06-10"],
    &["day", "--help"],
    &["Day", "F", "ASHFELD", "2024-06-10"],
    &["take", "S"],
    &["take", "stdin", "F"],
    &["take", "stdin", "stdin"],
    &["merge", "S"],
    &["merge", "stdin", "S"],
    &["print", "S", "ASHFELD", "240610"],
    &["print", "S", "ASH FELD", "2024-06-10"],
    &["files"],
    &["files", "S", "S"],
    &["horizon", "S"],
    &["horizon", "stdin", "2024-06-10"],
    &["horizon", "S", "2060-01-01"],
    &["migrate", "stdin"],
    &["frobnicate"],
    &["help"],
    &["--help"],
    &["--version"],
];

#[test]
fn words_that_name_no_job(rt: HostRuntime) {
    for words in NONE {
        let fault = job(rt.alloc(), words).err();
        same_of(&rt, words, fault, Some(JobFault::Usage));
    }
}
