//! Tests of sessions with a device that fails.
ghost use Rattle.std.specs.Prelude.{◌<◌};

use crate::compare::same;
use crate::expected::{
    ANSWER_0900, ANSWER_0905, BOTH_FILES, DEVICE, DEVICE_UNSAVED, DONE, FAILED, FILES, UNSAVED,
};
use crate::records::{lines_text, state_text};
use crate::session_parts::{READING, WRITING, joined, room};
use crate::shelves::{shelf_of_morning, text_of};
use cif_line::{Bytes, Fuse, Source};
use docker_desk::serve;
use docker_host::{Fails, SessionHost, Streams};
use std::alloc::Global;
use std::process::Abort;
use test_records::dockers::Lines;
use test_records::states::MORNING_STATE;

/// Asserts that an output with room for `bytes` bytes receives exactly the first `bytes` bytes of
/// the answers to two requests, and that the session then reads nothing more.
fn output_has_room_for(rt: &impl Abort, alloc: Global, bytes: usize) {
    let mut host = SessionHost {
        streams: Streams::new(
            Bytes::new(b"files\nprint ASHFELD 2024-06-10\nfiles\n", 1),
            room(rt, alloc, bytes),
        ),
        folder: shelf_of_morning(rt, alloc),
        faults: room(rt, alloc, 100),
    };
    let ended = serve(alloc, READING, &mut host);
    let SessionHost {
        streams,
        faults,
        ..
    } = host;
    let (input, output) = streams.into_parts();
    let answers = joined(rt, alloc, &[FILES, ANSWER_0900]);
    let front = answers.as_slice().get(..bytes).expect(rt, "answers");
    same(rt, (ended, output.bytes()), (4, front));
    let reported = lines_text(rt, alloc, DEVICE);
    same(rt, faults.bytes(), reported.as_slice());
    same(rt, input.left(), b"files\n".as_slice());
}

#[test]
fn an_output_that_fails(rt: HostRuntime) {
    output_has_room_for(&rt, rt.alloc(), 41);
    output_has_room_for(&rt, rt.alloc(), 45);
    output_has_room_for(&rt, rt.alloc(), 49);
    output_has_room_for(&rt, rt.alloc(), 100);
    output_has_room_for(&rt, rt.alloc(), 219);
}

/// Asserts the status, the answers and the reported lines of a session in which the desk may write.
/// Its input returns one byte per read, and only the read with this number fails.
fn input_fails_at(rt: &impl Abort, alloc: Global, read: u64, answers: &[Lines], end: (u8, Lines))
    requires { 0 < read }
{
    let mut host = SessionHost {
        streams: Streams::new(
            Fuse::new(Bytes::new(b"take F2\nfiles\n", 1), read),
            room(rt, alloc, 1000),
        ),
        folder: shelf_of_morning(rt, alloc),
        faults: room(rt, alloc, 100),
    };
    let ended = serve(alloc, WRITING, &mut host);
    let SessionHost {
        streams,
        faults,
        ..
    } = host;
    let (_, output) = streams.into_parts();
    let wanted = joined(rt, alloc, answers);
    same(rt, (ended, output.bytes()), (end.0, wanted.as_slice()));
    let reported = lines_text(rt, alloc, end.1);
    same(rt, faults.bytes(), reported.as_slice());
}

#[test]
fn an_input_that_fails(rt: HostRuntime) {
    let both: &[Lines] = &[DONE, BOTH_FILES];
    input_fails_at(&rt, rt.alloc(), 1, &[], (4, DEVICE));
    input_fails_at(&rt, rt.alloc(), 8, &[], (4, DEVICE));
    input_fails_at(&rt, rt.alloc(), 9, &[DONE], (4, DEVICE_UNSAVED));
    input_fails_at(&rt, rt.alloc(), 14, &[DONE], (4, DEVICE_UNSAVED));
    input_fails_at(&rt, rt.alloc(), 15, both, (4, DEVICE_UNSAVED));
    input_fails_at(&rt, rt.alloc(), 16, both, (1, UNSAVED));
}

/// Asserts that a session continues even if each of its saves fails because the folder fails at the
/// call that `fails` names.
fn store_fails(rt: &impl Abort, alloc: Global, fails: Fails) {
    let mut folder = shelf_of_morning(rt, alloc);
    folder.fail(fails);
    let mut host = SessionHost {
        streams: Streams::new(
            Bytes::new(b"take F2\nsave\nprint ASHFELD 2024-06-10\n", 4096),
            room(rt, alloc, 1000),
        ),
        folder,
        faults: room(rt, alloc, 100),
    };
    let ended = serve(alloc, WRITING, &mut host);
    let SessionHost {
        streams,
        folder,
        faults,
    } = host;
    let (_, output) = streams.into_parts();
    let wanted = joined(rt, alloc, &[DONE, FAILED, ANSWER_0905]);
    same(rt, (ended, output.bytes()), (1, wanted.as_slice()));
    let reported = lines_text(rt, alloc, UNSAVED);
    same(rt, faults.bytes(), reported.as_slice());
    let kept = state_text(rt, alloc, MORNING_STATE);
    same(rt, text_of(&folder), kept.as_slice());
}

#[test]
fn a_store_that_fails(rt: HostRuntime) {
    store_fails(&rt, rt.alloc(), Fails::AtCreate);
    store_fails(&rt, rt.alloc(), Fails::AfterWriting(100));
    store_fails(&rt, rt.alloc(), Fails::AtComplete);
}
