//! Tests of the bytes of answers.
ghost use Rattle.std.specs.Prelude.{◌<◌};

use crate::compare::{same, same_in};
use crate::expected::{DAY_REFUSED, DONE, FAILED, FILE_WITHOUT_END, STATE_WITHOUT_MARK, USAGE};
use crate::records::lines_text;
use crate::session_parts::{room, writing_to};
use cif_file::{FileCause, FileFault};
use cif_line::{Failed, Fuse, Kept, Sink, write_all};
use docker_cmd::OfficeFault;
use docker_desk::{Answer, Page, write_answer, write_reply};
use docker_office::{StateCause, StateFault};
use std::alloc::Global;
use std::process::Abort;
use test_records::states::Parts;
use test_records::text;

/// More bytes than any answer in these tests has.
const ROOM: usize = 2000;

/// A row: a status, a text, and the bytes of the answer.
type Row = (u8, &'static str, &'static str);

/// Asserts the bytes of the answer in this row.
fn is_answer(rt: &impl Abort, alloc: Global, row: &Row) {
    let (status, text, bytes) = *row;
    let mut streams = writing_to(room(rt, alloc, ROOM));
    let done = write_answer(status, text.as_bytes(), &mut streams);
    let (_, kept) = streams.into_parts();
    same_in(rt, text, done, Ok(()));
    same_in(rt, text, kept.bytes(), bytes.as_bytes());
}

/// Rows of answers whose lines and bytes are counted: without a text, with a text that has no line
/// feed, and with lines.
const COUNTED: &[Row] = &[
    (0, "", "0 0 0\n"),
    (4, "", "4 0 0\n"),
    (0, "a", "0 0 1\na"),
    (0, "\n", "0 1 1\n\n"),
    (1, "no\n", "1 1 3\nno\n"),
    (0, "one\ntwo\nthree", "0 2 13\none\ntwo\nthree"),
    (3, "0 1 2\n0 1 2\n", "3 2 12\n0 1 2\n0 1 2\n"),
    (
        0,
        "0\n1\n2\n3\n4\n5\n6\n7\n8\n9\n",
        "0 10 20\n0\n1\n2\n3\n4\n5\n6\n7\n8\n9\n",
    ),
    (255, "\n\n", "255 2 2\n\n\n"),
];

#[test]
fn headers(rt: HostRuntime) {
    for row in COUNTED {
        is_answer(&rt, rt.alloc(), row);
    }
}

/// Returns the bytes of an answer.
fn bytes_of(rt: &impl Abort, alloc: Global, answer: &Answer) -> Kept {
    let mut streams = writing_to(room(rt, alloc, ROOM));
    write_reply(answer, &mut streams).expect(rt, "an answer");
    let (_, kept) = streams.into_parts();
    kept
}

/// Asserts that the bytes of an answer are these lines.
pub(crate) fn answers(rt: &impl Abort, alloc: Global, answer: &Answer, lines: &[&[u8]]) {
    let kept = bytes_of(rt, alloc, answer);
    let wanted = lines_text(rt, alloc, lines);
    same(rt, kept.bytes(), wanted.as_slice());
}

/// Asserts that the bytes of an answer are these parts, one after another.
pub(crate) fn answers_whole(rt: &impl Abort, alloc: Global, answer: &Answer, parts: Parts) {
    let kept = bytes_of(rt, alloc, answer);
    let wanted = text(alloc, parts, b"").expect(rt, "room");
    same(rt, kept.bytes(), wanted.as_slice());
}

/// Asserts that the bytes of the answer to a refused request are these lines.
fn refuses(rt: &impl Abort, alloc: Global, fault: OfficeFault, lines: &[&[u8]]) {
    answers(rt, alloc, &Answer::Refused(fault), lines);
}

/// Returns the fault of a file that is refused at this record.
fn file_fault(number: u32, cause: FileCause) -> OfficeFault {
    OfficeFault::File(FileFault { number, cause })
}

/// Returns the fault of a state that is refused at this offset.
fn state_fault(at: u64, cause: StateCause) -> OfficeFault {
    OfficeFault::State(StateFault { at, cause })
}

#[test]
fn answers_without_a_text(rt: HostRuntime) {
    answers(&rt, rt.alloc(), &Answer::Done, DONE);
    answers(&rt, rt.alloc(), &Answer::Usage, USAGE);
    let page = Page::new(rt.alloc());
    answers(&rt, rt.alloc(), &Answer::Text(page), DONE);
}

#[test]
fn answers_to_refused_requests(rt: HostRuntime) {
    let alloc = rt.alloc();
    refuses(&rt, alloc, OfficeFault::Lapsed, DAY_REFUSED);
    let memory: &[&[u8]] = &[b"3 1 23", b"docker: want of memory"];
    refuses(&rt, alloc, OfficeFault::Memory, memory);
    refuses(&rt, alloc, OfficeFault::Source, FAILED);
    refuses(&rt, alloc, OfficeFault::Sink, FAILED);
    let no_end = file_fault(5, FileCause::NoEnd);
    refuses(&rt, alloc, no_end, FILE_WITHOUT_END);
    let byte: &[&[u8]] = &[b"1 1 40", b"docker: file refused: record 2: Byte 20"];
    refuses(&rt, alloc, file_fault(2, FileCause::Byte(20)), byte);
    let no_mark = state_fault(0, StateCause::Mark);
    refuses(&rt, alloc, no_mark, STATE_WITHOUT_MARK);
}

/// Writes pieces on a page, and checks the answer that has the page as its text.
#[test]
fn an_answer_with_a_text(rt: HostRuntime) {
    let mut page = Page::new(rt.alloc());
    write_all(&mut page, b"one\n").expect(&rt, "room");
    write_all(&mut page, b"two\n").expect(&rt, "room");
    same(&rt, page.text(), b"one\ntwo\n".as_slice());
    same(&rt, page.failures(), 0);
    let lines: &[&[u8]] = &[b"0 2 8", b"one", b"two"];
    answers(&rt, rt.alloc(), &Answer::Text(page), lines);
}

/// Writes an answer, whose text is the usage line, to a sink that takes one byte per write. Only
/// the write with this number fails. Returns the result and the sink.
fn broken_at(rt: &impl Abort, alloc: Global, write: u64) -> (Result<(), Failed>, Fuse<Kept>)
    requires { 0 < write }
{
    let kept = Kept::new(alloc, ROOM).expect(rt, "room");
    let mut streams = writing_to(Fuse::new(kept, write));
    let done = write_reply(&Answer::Usage, &mut streams);
    let (_, sink) = streams.into_parts();
    (done, sink)
}

/// Asserts that a sink that fails at the write with this number has then taken exactly these bytes,
/// and that the failure is reported.
fn stops_at(rt: &impl Abort, alloc: Global, write: u64, bytes: &str)
    requires { 0 < write }
{
    let (done, sink) = broken_at(rt, alloc, write);
    same(rt, done, Err(Failed));
    same(rt, sink.device().bytes(), bytes.as_bytes());
    same(rt, sink.failures(), 1);
}

#[test]
fn an_output_that_fails_within_an_answer(rt: HostRuntime) {
    let alloc = rt.alloc();
    stops_at(&rt, alloc, 1, "");
    stops_at(&rt, alloc, 3, "2 ");
    stops_at(&rt, alloc, 8, "2 1 292");
    stops_at(&rt, alloc, 9, "2 1 292\n");
    stops_at(&rt, alloc, 14, "2 1 292\ndesk:");
    let (done, sink) = broken_at(&rt, alloc, 301);
    same(&rt, done, Ok(()));
    let whole = lines_text(&rt, alloc, USAGE);
    same(&rt, sink.device().bytes(), whole.as_slice());
}
