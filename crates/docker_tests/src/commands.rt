//! Tests of what each command writes, given the contents of its sources.

use crate::compare::{same, same_in, same_of};
use crate::offices::{text_of, text_of_parts};
use crate::refused_files::SHORT;
use cif_line::{Bytes, Kept};
use docker_cmd::{Fault, OfficeFault, emit, fault_text, job, job_line, prepare, status};
use std::alloc::Global;
use std::process::Abort;
use test_records::dockers::{ASHFELD_0900, AT_ASHFELD, END, LEAVES_0900, Lines};
use test_records::files::{AMENDED, DELETED_AT_NO_TIME, File, MORNING, RENAMED};
use test_records::ledgers::UPDATE_9A;
use test_records::states::{
    EMPTY_STATE, LAPSED_STATE, MORNING_STATE, OLD_STATE, Parts, REVISED_STATE, REVISION_STATE,
};
use test_records::{HD, ZZ};

/// Runs the command with these words on sources with these two texts, and returns what the command
/// writes.
fn written(rt: &impl Abort, alloc: Global, words: &[&str], first: &[u8], second: &[u8]) -> Kept {
    let job = job(alloc, words).expect(rt, "a job");
    let mut first = Bytes::new(first, 7);
    let mut second = Bytes::new(second, 7);
    let prepared = prepare(alloc, &job, &mut first, &mut second).expect(rt, "an answer");
    let mut sink = Kept::new(alloc, 1000).expect(rt, "room");
    emit(&prepared, &mut sink).expect(rt, "all is written");
    sink
}

/// The bytes that a command writes at the end of each line.
pub(crate) const LINE_END: &[u8] = b"\n";

/// Rows of commands that read only a file: the words, the file, and the lines of the expected
/// output.
const OF_FILES: &[(&[&str], File, Lines)] = &[
    (
        &["check", "F"],
        MORNING,
        &[b"accepted: 5 records, 1 changes"],
    ),
    (
        &["check", "F"],
        RENAMED,
        &[b"accepted: 3 records, 2 changes"],
    ),
    (
        &["check", "F"],
        AMENDED,
        &[b"accepted: 3 records, 1 changes"],
    ),
    (
        &["check", "F"],
        DELETED_AT_NO_TIME,
        &[b"accepted: 5 records, 1 changes"],
    ),
    (
        &["day", "F", "ASHFELD", "2024-06-10"],
        MORNING,
        ASHFELD_0900,
    ),
];

/// Asserts what the command with these words writes for this file.
fn writes_of_file(rt: &impl Abort, alloc: Global, words: &[&str], file: File, wanted: Lines) {
    let text = text_of(rt, alloc, file);
    let sink = written(rt, alloc, words, text.as_slice(), b"");
    let wanted = text_of(rt, alloc, wanted);
    same_of(rt, words, sink.bytes(), wanted.as_slice());
}

#[test]
fn commands_that_read_a_file(rt: HostRuntime) {
    for (words, file, wanted) in OF_FILES {
        writes_of_file(&rt, rt.alloc(), words, file, wanted);
    }
}

/// Rows of commands that read a state: the words, the state, the content of the second source, and
/// the expected output.
const OF_STATES: &[(&[&str], Parts, Parts, Parts)] = &[
    (&["new", "S"], &[], &[], EMPTY_STATE),
    (
        &["merge", "S", "S2"],
        MORNING_STATE,
        REVISION_STATE,
        REVISED_STATE,
    ),
    (
        &["merge", "S", "stdin"],
        REVISION_STATE,
        MORNING_STATE,
        REVISED_STATE,
    ),
    (
        &["print", "S", "ASHFELD", "2024-06-10"],
        MORNING_STATE,
        &[],
        &[AT_ASHFELD, LINE_END, LEAVES_0900, LINE_END, END, LINE_END],
    ),
    (&["files", "S"], MORNING_STATE, &[], &[UPDATE_9A, LINE_END]),
    (
        &["horizon", "S", "2024-06-15"],
        MORNING_STATE,
        &[],
        LAPSED_STATE,
    ),
    (
        &["horizon", "S", "2024-06-14"],
        LAPSED_STATE,
        &[],
        LAPSED_STATE,
    ),
    (&["migrate", "S"], OLD_STATE, &[], MORNING_STATE),
];

/// Asserts what the command with these words writes for this first and this second source.
pub(crate) fn writes(
    rt: &impl Abort,
    alloc: Global,
    words: &[&str],
    first: Parts,
    second: Parts,
    wanted: Parts,
) {
    let first = text_of_parts(rt, alloc, first);
    let second = text_of_parts(rt, alloc, second);
    let wanted = text_of_parts(rt, alloc, wanted);
    let sink = written(rt, alloc, words, first.as_slice(), second.as_slice());
    same_of(rt, words, sink.bytes(), wanted.as_slice());
}

#[test]
fn commands_that_read_a_state(rt: HostRuntime) {
    for (words, first, second, wanted) in OF_STATES {
        writes(&rt, rt.alloc(), words, first, second, wanted);
    }
}

#[test]
fn a_file_taken_into_a_state(rt: HostRuntime) {
    let alloc = rt.alloc();
    let empty = text_of_parts(&rt, alloc, EMPTY_STATE);
    let file = text_of(&rt, alloc, MORNING);
    let words = ["take", "S", "F"];
    let sink = written(&rt, alloc, &words, empty.as_slice(), file.as_slice());
    let wanted = text_of_parts(&rt, alloc, MORNING_STATE);
    same(&rt, sink.bytes(), wanted.as_slice());
    let words = ["print", "S", "ASHFELD", "2024-06-10"];
    let docker = written(&rt, alloc, &words, sink.bytes(), b"");
    let wanted = text_of(&rt, alloc, ASHFELD_0900);
    same(&rt, docker.bytes(), wanted.as_slice());
}

/// Returns the fault with which the command with these words ends if its source has this text.
/// Returns `None` if the command succeeds.
fn fault_of(rt: &impl Abort, alloc: Global, words: &[&str], first: &[u8]) -> Option<OfficeFault> {
    let job = job(alloc, words).expect(rt, "a job");
    let mut first = Bytes::new(first, 7);
    let mut second = Bytes::new(b"", 7);
    match prepare(alloc, &job, &mut first, &mut second) {
        Ok(prepared) => {
            let mut sink = Kept::new(alloc, 1000).expect(rt, "room");
            emit(&prepared, &mut sink).err()
        }
        Err(fault) => Some(fault),
    }
}

/// Asserts that a command is refused with status 1, and that this line reports it.
fn is_refused(
    rt: &impl Abort,
    alloc: Global,
    words: &[&str],
    first: &[u8],
    line: &str,
    name: &str,
) {
    let fault = fault_of(rt, alloc, words, first).expect(rt, name);
    let fault = Fault::Office(fault);
    same_in(rt, name, status(&fault), 1);
    same_in(rt, name, fault_text(&fault).as_slice(), line.as_bytes());
}

#[test]
fn commands_that_are_refused(rt: HostRuntime) {
    let alloc = rt.alloc();
    let short = text_of(&rt, alloc, &[HD, SHORT, ZZ]);
    is_refused(
        &rt,
        alloc,
        &["check", "F"],
        short.as_slice(),
        "docker: file refused: record 2: Length\n",
        "a line of 79 characters",
    );
    let lapsed = text_of_parts(&rt, alloc, LAPSED_STATE);
    is_refused(
        &rt,
        alloc,
        &["print", "S", "ASHFELD", "2024-06-17"],
        lapsed.as_slice(),
        "docker: day refused: before horizon plus three days\n",
        "a day before the horizon plus three",
    );
    is_refused(
        &rt,
        alloc,
        &["migrate", "S"],
        lapsed.as_slice(),
        "docker: state refused: offset 0: Mark\n",
        "a state of the newer format",
    );
}

#[test]
fn a_job_line_before_the_file_that_it_names(rt: HostRuntime) {
    let alloc = rt.alloc();
    let mut text = Vec::new(alloc);
    text.extend_from_slice(b"day stdin ASHFELD 2024-06-10\n")
        .expect(&rt, "room");
    let file = text_of(&rt, alloc, MORNING);
    text.extend_from_slice(file.as_slice()).expect(&rt, "room");
    let mut source = Bytes::new(text.as_slice(), 7);
    let job = job_line(alloc, &mut source).expect(&rt, "a job");
    let mut second = Bytes::new(b"", 7);
    let prepared = prepare(alloc, &job, &mut source, &mut second).expect(&rt, "an answer");
    let mut sink = Kept::new(alloc, 171).expect(&rt, "room");
    emit(&prepared, &mut sink).expect(&rt, "all is written");
    let wanted = text_of(&rt, alloc, ASHFELD_0900);
    same(&rt, sink.bytes(), wanted.as_slice());
}
