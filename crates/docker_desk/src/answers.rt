//! Writes an answer.
ghost use Rattle.std.specs.Prelude.{◌≡◌, ◌-◌, ◌^◌, ◌<◌, ◌++◌};
ghost use Rattle.docker_host.specs.Streams.{EndsWriting};
ghost use Rattle.docker_desk.specs.Answers.{answer_text, header_text, line_count};

use arrayvec::ArrayVec;
use cif_line::{Failed, Sink, Source};
use docker_host::Streams;
use fixed_text::put;
use itoa::Buffer;

/// The header of an answer, with its line feed. The longest header fits in 64 bytes.
type AnswerHeader = ArrayVec<u8, 64>;

/// Writes the answer with a status and a text: its header, and then the text unchanged. If a write
/// fails, the output has gained a proper prefix of the answer.
pub fn write_answer<S: Source, K: Sink>(
    status: u8,
    text: &[u8],
    streams: &mut Streams<S, K>,
) -> Result<(), Failed>
    requires { streams.old.output_failures < 2 ^ 64 - 1 }
    ensures { EndsWriting result (answer_text status text.now) streams.old streams.new }
{
    let header = header(status, line_feeds(text), text.len());
    write_both(header.as_slice(), text, streams)
}

/// Writes a text, and then a second one.
pub(crate) fn write_both<S: Source, K: Sink>(
    first: &[u8],
    second: &[u8],
    streams: &mut Streams<S, K>,
) -> Result<(), Failed>
    requires { streams.old.output_failures < 2 ^ 64 - 1 }
    ensures { EndsWriting result (first.now ++ second.now) streams.old streams.new }
{
    match streams.write_all(first) {
        Ok(()) => streams.write_all(second),
        Err(failed) => Err(failed),
    }
}

/// Returns the header of an answer.
fn header(status: u8, lines: usize, bytes: usize) -> AnswerHeader
    ensures { result.items ≡ header_text status lines bytes }
{
    let mut header = AnswerHeader::new();
    put(&mut header, Buffer::new().format(status).as_bytes());
    put(&mut header, b" ");
    put(&mut header, Buffer::new().format(lines).as_bytes());
    put(&mut header, b" ");
    put(&mut header, Buffer::new().format(bytes).as_bytes());
    put(&mut header, b"\n");
    header
}

/// Returns the number of line feeds in a text.
fn line_feeds(text: &[u8]) -> usize
    ensures { result ≡ line_count text.now }
{
    let mut count = 0;
    let mut rest = text;
    while let Some((byte, behind)) = rest.split_first() {
        if *byte == b'\n' {
            count += 1;
        }
        rest = behind;
    }
    count
}
