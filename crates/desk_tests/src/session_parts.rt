//! Words and sinks for the tests of sessions.
ghost use Rattle.std.specs.Prelude.{◌≡◌};

use crate::records::lines_text;
use cif_line::{Bytes, Kept, Sink};
use docker_host::Streams;
use std::alloc::Global;
use std::process::Abort;
use test_records::dockers::Lines;

/// The words of a session in which the desk may write.
pub(crate) const WRITING: &[&str] = &["--write", "S"];

/// The words of a session in which the desk may not write.
pub(crate) const READING: &[&str] = &["S"];

/// Returns a sink with room for this many bytes.
pub(crate) fn room(rt: &impl Abort, alloc: Global, bytes: usize) -> Kept
    ensures { result.failures ≡ 0 }
{
    Kept::new(alloc, bytes).expect(rt, "room")
}

/// Returns streams with this output and an empty input.
pub(crate) fn writing_to<K: Sink>(output: K) -> Streams<Bytes<'static>, K>
    ensures { result.output_failures ≡ K.failures output }
{
    Streams::new(Bytes::new(b"", 1), output)
}

/// Returns the concatenation of these answers.
pub(crate) fn joined(rt: &impl Abort, alloc: Global, answers: &[Lines]) -> Vec<u8> {
    let mut all = Vec::new(alloc);
    for lines in answers {
        let answer = lines_text(rt, alloc, lines);
        all.extend_from_slice(answer.as_slice()).expect(rt, "room");
    }
    all
}
