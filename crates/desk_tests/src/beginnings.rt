//! Tests of sessions that can't begin.

ghost use Rattle.std.specs.Prelude.{◌≡◌};

use crate::compare::same;
use crate::expected::{DEVICE, NO_MARK_LINE, NO_SESSION};
use crate::records::{lines_text, state_text};
use crate::session_parts::{READING, WRITING, room};
use crate::shelves::{shelf_of, shelf_with, text_of};
use cif_line::Bytes;
use docker_desk::serve;
use docker_host::{SessionHost, Shelf, Streams};
use std::alloc::Global;
use std::process::Abort;
use test_records::files::MORNING;
use test_records::states::MORNING_STATE;

/// The input of a session that can't begin.
const INPUT: &[u8] = b"files\nsave\n";

/// Asserts the status and the reported lines of a session that can't begin with this folder. The
/// session must read no input, write no answer, and leave this text in the file `S`.
fn can_t_begin(
    rt: &impl Abort,
    alloc: Global,
    words: &[&str],
    folder: Shelf,
    end: (u8, &[&[u8]], &[u8]),
)
    requires { folder.failures ≡ 0 }
{
    let (status, lines, text) = end;
    let mut host = SessionHost {
        streams: Streams::new(Bytes::new(INPUT, 1), room(rt, alloc, 1000)),
        folder,
        faults: room(rt, alloc, 1000),
    };
    let ended = serve(alloc, words, &mut host);
    let SessionHost {
        streams,
        folder,
        faults,
    } = host;
    let (input, output) = streams.into_parts();
    same(rt, ended, status);
    let reported = lines_text(rt, alloc, lines);
    same(rt, faults.bytes(), reported.as_slice());
    let silent = (b"".as_slice(), INPUT);
    same(rt, (output.bytes(), input.left()), silent);
    same(rt, text_of(&folder), text);
}

/// Asserts the reported line of a session that can't begin because the file `S` has this text.
fn refuses_text(rt: &impl Abort, alloc: Global, words: &[&str], text: &[u8], line: &[u8]) {
    let folder = shelf_with(rt, alloc, "S", text);
    let lines: &[&[u8]] = &[line];
    can_t_begin(rt, alloc, words, folder, (1, lines, text));
}

/// Words that aren't the words of a session.
const OTHER_WORDS: &[&[&str]] = &[
    &[],
    &[""],
    &["stdin"],
    &["-S"],
    &["--write"],
    &["S", "--write"],
    &["S", "S2"],
    &["--write", ""],
    &["--write", "stdin"],
    &["--write", "--write"],
    &["--write", "S", "S2"],
    &["write", "S"],
    &["--Write", "S"],
];

#[test]
fn words_of_no_session(rt: HostRuntime) {
    let alloc = rt.alloc();
    let text = state_text(&rt, alloc, MORNING_STATE);
    for words in OTHER_WORDS {
        let folder = shelf_of(&rt, alloc, MORNING_STATE);
        can_t_begin(&rt, alloc, words, folder, (2, NO_SESSION, text.as_slice()));
    }
}

#[test]
fn a_state_that_can_t_be_read(rt: HostRuntime) {
    let alloc = rt.alloc();
    let missing = (4, DEVICE, b"".as_slice());
    can_t_begin(&rt, alloc, READING, Shelf::new(alloc, 0), missing);
    let others = shelf_with(&rt, alloc, "S2", b"");
    can_t_begin(&rt, alloc, WRITING, others, missing);
    let empty = b"docker: state refused: offset 0: Short";
    refuses_text(&rt, alloc, READING, b"", empty);
    let file = lines_text(&rt, alloc, MORNING);
    refuses_text(&rt, alloc, WRITING, file.as_slice(), NO_MARK_LINE);
    let text = state_text(&rt, alloc, MORNING_STATE);
    let cut = text.as_slice().get(..310).expect(&rt, "310 bytes");
    let short = b"docker: state refused: offset 41: Short";
    refuses_text(&rt, alloc, WRITING, cut, short);
}
