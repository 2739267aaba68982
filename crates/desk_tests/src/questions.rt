//! Tests of the words `--help` and `--version`.

use crate::compare::same;
use crate::expected::{DEVICE, HELP, VERSION};
use crate::records::{lines_text, state_text};
use crate::session_parts::room;
use crate::shelves::{shelf_of_morning, text_of};
use cif_line::Bytes;
use docker_desk::serve;
use docker_host::{SessionHost, Streams};
use std::alloc::Global;
use std::process::Abort;
use test_records::dockers::Lines;
use test_records::states::MORNING_STATE;

/// Asserts that `word` prints the first `bytes` bytes of these lines on an output with room for
/// them, and then reports `faults` and ends with `status`. No input is read, and no file changes.
fn prints(rt: &impl Abort, alloc: Global, word: &str, lines: Lines, end: (usize, &[&[u8]], u8)) {
    let (bytes, told, status) = end;
    let mut host = SessionHost {
        streams: Streams::new(Bytes::new(b"files\nsave\n", 1), room(rt, alloc, bytes)),
        folder: shelf_of_morning(rt, alloc),
        faults: room(rt, alloc, 100),
    };
    let ended = serve(alloc, &[word], &mut host);
    let SessionHost {
        streams,
        folder,
        faults,
    } = host;
    let (input, output) = streams.into_parts();
    let text = lines_text(rt, alloc, lines);
    let front = text.as_slice().get(..bytes).expect(rt, "lines");
    same(rt, (ended, output.bytes()), (status, front));
    let reported = lines_text(rt, alloc, told);
    same(rt, faults.bytes(), reported.as_slice());
    same(rt, input.left(), b"files\nsave\n".as_slice());
    let kept = state_text(rt, alloc, MORNING_STATE);
    same(rt, text_of(&folder), kept.as_slice());
}

#[test]
fn help_and_version(rt: HostRuntime) {
    let alloc = rt.alloc();
    prints(&rt, alloc, "--help", HELP, (305, &[], 0));
    prints(&rt, alloc, "--version", VERSION, (32, &[], 0));
}

#[test]
fn help_that_can_t_be_printed(rt: HostRuntime) {
    let alloc = rt.alloc();
    for bytes in [0, 1, 63, 64, 65, 69, 77, 82, 304] {
        prints(&rt, alloc, "--help", HELP, (bytes, DEVICE, 4));
    }
    prints(&rt, alloc, "--version", VERSION, (31, DEVICE, 4));
}
