//! Tests of whole sessions: their words, their lines, and how they end.
ghost use Rattle.std.specs.Prelude.{◌<◌};

use crate::compare::{same, same_in};
use crate::end_recorder::EndRecorder;
use crate::expected::*;
use crate::records::{BOTH_STATE, lines_text, state_text};
use crate::session_parts::{READING, WRITING, joined, room};
use crate::shelves::{shelf_of_morning, text_of};
use cif_line::Bytes;
use docker_desk::{files_of_none, serve};
use docker_host::{SessionHost, Streams};
use std::alloc::Global;
use std::process::Abort;
use test_records::dockers::Lines;
use test_records::states::{LAPSED_STATE, MORNING_STATE, Parts};

/// A row: the words and the input of a session on a file with the state of the morning train, the
/// answers, the reported lines, and the status. The last column is the state in the file after the
/// session.
type Row = (
    &'static [&'static str],
    &'static str,
    &'static [Lines],
    Lines,
    u8,
    Parts,
);

/// Asserts that a session ends as its row says if its input is read in pieces of at most `step`
/// bytes.
fn goes_in_pieces(rt: &impl Abort, alloc: Global, row: &Row, step: usize)
    requires { 0 < step }
{
    let (words, input, answers, reported, status, state) = *row;
    let mut host = SessionHost {
        streams: Streams::new(Bytes::new(input.as_bytes(), step), room(rt, alloc, 2000)),
        folder: shelf_of_morning(rt, alloc),
        faults: room(rt, alloc, 1000),
    };
    let ended = serve(alloc, words, &mut host);
    let SessionHost {
        streams,
        folder,
        faults,
    } = host;
    let (_, output) = streams.into_parts();
    same_in(rt, input, ended, status);
    let wanted = joined(rt, alloc, answers);
    same_in(rt, input, output.bytes(), wanted.as_slice());
    let wanted = lines_text(rt, alloc, reported);
    same_in(rt, input, faults.bytes(), wanted.as_slice());
    let kept = state_text(rt, alloc, state);
    same_in(rt, input, text_of(&folder), kept.as_slice());
}

/// Asserts that the session of each row ends as the row says.
fn go(rt: &impl Abort, alloc: Global, rows: &[Row]) {
    for row in rows {
        goes_in_pieces(rt, alloc, row, 1);
        goes_in_pieces(rt, alloc, row, 2);
        goes_in_pieces(rt, alloc, row, 4096);
    }
}

/// Rows of sessions that only read.
const READ: &[Row] = &[
    (READING, "", &[], &[], 0, MORNING_STATE),
    (
        READING,
        "print ASHFELD 2024-06-10\nfiles\nrenew\npermanent ASHFELD 2024-06-18\n",
        &[ANSWER_0900, FILES, DONE, ANSWER_18_JUNE],
        &[],
        0,
        MORNING_STATE,
    ),
    (
        READING,
        "take F2\nmerge S2\nhorizon 2024-06-15\nsave\nprint ASHFELD 2024-06-10\n",
        &[USAGE, USAGE, USAGE, USAGE, ANSWER_0900],
        &[],
        0,
        MORNING_STATE,
    ),
    (
        READING,
        "\nfiles now\nfiles\r\nfiles",
        &[USAGE, USAGE, USAGE, USAGE],
        &[],
        0,
        MORNING_STATE,
    ),
];

/// Rows of sessions that change the state.
const CHANGED: &[Row] = &[
    (
        WRITING,
        "take F2\nprint ASHFELD 2024-06-10\nsave\nfiles\nsave\n",
        &[DONE, ANSWER_0905, DONE, BOTH_FILES, DONE],
        &[],
        0,
        BOTH_STATE,
    ),
    (
        WRITING,
        "merge S2\nrenew\nfiles\nsave\n",
        &[DONE, DONE, BOTH_FILES, DONE],
        &[],
        0,
        BOTH_STATE,
    ),
    (
        WRITING,
        "horizon 2024-06-15\nprint ASHFELD 2024-06-17\nprint ASHFELD 2024-06-18\nsave\n",
        &[DONE, DAY_REFUSED, ANSWER_18_JUNE, DONE],
        &[],
        0,
        LAPSED_STATE,
    ),
    (
        WRITING,
        "save\nprint ASHFELD 2024-06-10\n",
        &[DONE, ANSWER_0900],
        &[],
        0,
        MORNING_STATE,
    ),
];

/// Rows of sessions that end with unsaved changes.
const LEFT_UNSAVED: &[Row] = &[
    (WRITING, "take F2\n", &[DONE], UNSAVED, 1, MORNING_STATE),
    (WRITING, "merge S2\n", &[DONE], UNSAVED, 1, MORNING_STATE),
    (
        WRITING,
        "horizon 2024-06-15\n",
        &[DONE],
        UNSAVED,
        1,
        MORNING_STATE,
    ),
    (
        WRITING,
        "take F2\nsave\nmerge S2\n",
        &[DONE, DONE, DONE],
        UNSAVED,
        1,
        BOTH_STATE,
    ),
    (
        WRITING,
        "take F2\nsave",
        &[DONE, USAGE],
        UNSAVED,
        1,
        MORNING_STATE,
    ),
];

/// The answer to a request whose file should be an extract, but holds a state.
const FILE_OF_A_STATE: Lines = &[b"1 1 39", b"docker: file refused: record 1: Length"];

/// Rows of sessions with refused requests. Refused requests change nothing.
const REFUSED: &[Row] = &[
    (
        WRITING,
        "take F9\nprint ASHFELD 2024-06-10\n",
        &[FAILED, ANSWER_0900],
        &[],
        0,
        MORNING_STATE,
    ),
    (
        WRITING,
        "take F3\nmerge S9\nfiles\n",
        &[FILE_WITHOUT_END, FAILED, FILES],
        &[],
        0,
        MORNING_STATE,
    ),
    (
        WRITING,
        "merge F2\ntake S2\nfiles\n",
        &[STATE_WITHOUT_MARK, FILE_OF_A_STATE, FILES],
        &[],
        0,
        MORNING_STATE,
    ),
];

#[test]
fn sessions_that_read(rt: HostRuntime) {
    go(&rt, rt.alloc(), READ);
}

#[test]
fn sessions_that_write(rt: HostRuntime) {
    go(&rt, rt.alloc(), CHANGED);
    go(&rt, rt.alloc(), LEFT_UNSAVED);
    go(&rt, rt.alloc(), REFUSED);
}

/// Asserts that a session reads this input to its end, and doesn't read it again after that.
fn is_read_once(rt: &impl Abort, alloc: Global, input: &str) {
    let mut host = SessionHost {
        streams: Streams::new(EndRecorder::new(input.as_bytes()), room(rt, alloc, 1000)),
        folder: shelf_of_morning(rt, alloc),
        faults: room(rt, alloc, 100),
    };
    let ended = serve(alloc, READING, &mut host);
    let SessionHost { streams, .. } = host;
    let (recorder, _) = streams.into_parts();
    same_in(rt, input, ended, 0);
    same_in(rt, input, recorder.is_read_past(), (true, false));
}

#[test]
fn an_input_that_ends(rt: HostRuntime) {
    is_read_once(&rt, rt.alloc(), "");
    is_read_once(&rt, rt.alloc(), "files\n");
    is_read_once(&rt, rt.alloc(), "files\nfiles");
    is_read_once(&rt, rt.alloc(), "files\r");
}

#[test]
fn the_worked_example_of_a_session(rt: HostRuntime) {
    let output = files_of_none(rt.alloc()).expect(&rt, "room");
    let wanted: &[u8] = b"0 0 0\n";
    same(&rt, output.bytes(), wanted);
}
