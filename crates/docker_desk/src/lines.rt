//! Reads the lines of a source.
ghost use Rattle.std.specs.Prelude.{◌≡◌, ◌-◌, ◌^◌, ◌<◌, Err};
ghost use Rattle.cif_device.specs.Device.{CountsFailure};
ghost use Rattle.docker_desk.specs.Lines.{EndsLine, EndsSkipping, MeetsEnd, UsesLine, asked_meant, cut_or_end, is_end_of_lines, with_ahead};

use crate::ahead::Ahead;
use arrayvec::ArrayVec;
use cif_line::{Sink, Source, is_printable};
use docker_host::Streams;

/// The most bytes that a line may have, not counting its line feed.
const LONGEST: usize = 255;

/// A line without its line feed.
pub type RequestLine = ArrayVec<u8, LONGEST>;

/// The result of reading the next line of a source.
#[derive(Debug)]
pub enum Asked {
    /// A whole line: at most 255 printable bytes, ended by a line feed. The line feed isn't kept.
    Line(RequestLine),
    /// A bad line: it has more than 255 bytes, or a byte that isn't printable. The line was read up
    /// to and including its line feed.
    Bad,
    /// A cut line: the bytes after the last line feed of the source.
    Cut,
    /// No line, because the source is at its end.
    End,
}

/// The reason why no line could be read.
#[derive(Clone, Copy, PartialEq, Eq, Debug)]
pub enum InputFault {
    /// The source failed.
    Failed,
    /// The line has at least 2 ^ 64 - 1 bytes, too many to count.
    Endless,
}

impl From<cif_line::Failed> for InputFault {
    ghost use Rattle.docker_desk.specs.declared.lines.InputFault.TheVariants as fault;
    ghost use Rattle.std.specs.Prelude.{◌≡◌};

    ghost from_gives = { λ _ told. told ≡ fault.Failed };

    fn from(_failed: cif_line::Failed) -> InputFault {
        InputFault::Failed
    }
}

/// Reads the next line of the input, beginning with the bytes that were read ahead. The bytes after
/// the line feed are kept for the next call. The input isn't read once a line feed has been read.
/// With `Cut` and `End` the input has reported its end, so a caller that must not read past the end
/// has to stop. If the call returns a fault, the part of the line that was read is lost.
pub fn next_line<S: Source, K: Sink>(
    ahead: &mut Ahead,
    streams: &mut Streams<S, K>,
) -> Result<Asked, InputFault>
    requires { streams.old.input_failures < 2 ^ 64 - 1 }
    ensures ends { EndsLine (with_ahead ahead.old streams.old.input) result
        (with_ahead ahead.new streams.new.input) }
    ensures failures { CountsFailure (result ≡ Err InputFault.Failed)
        streams.old.input_failures streams.new.input_failures }
    ensures meets_end { MeetsEnd (is_end_of_lines result)
        streams.old.ended streams.new.ended streams.old.passed streams.new.passed }
    ensures uses { UsesLine EndsLine ahead.old ahead.new streams.old streams.new result }
{
    let mut line = RequestLine::new();
    for _ in 0..=LONGEST {
        let Some(byte) = ahead.next_byte(streams)? else {
            return Ok(without_feed(&line));
        };
        if byte == b'\n' {
            return Ok(Asked::Line(line));
        }
        if line.is_full() || !is_printable(byte) {
            return skip_line(ahead, streams);
        }
        line.push(byte);
    }
    unreachable!()
}

/// Returns the last line of an input that ends after these bytes: a cut line, or `End` if there are
/// no bytes.
fn without_feed(line: &RequestLine) -> Asked
    ensures { asked_meant result ≡ cut_or_end line.now.items }
{
    if line.is_empty() {
        Asked::End
    } else {
        Asked::Cut
    }
}

/// Reads the rest of a bad line, including its line feed. Returns `Cut` if the input ends before
/// the line feed.
fn skip_line<S: Source, K: Sink>(
    ahead: &mut Ahead,
    streams: &mut Streams<S, K>,
) -> Result<Asked, InputFault>
    requires { streams.old.input_failures < 2 ^ 64 - 1 }
    ensures ends { EndsSkipping (with_ahead ahead.old streams.old.input) result
        (with_ahead ahead.new streams.new.input) }
    ensures failures { CountsFailure (result ≡ Err InputFault.Failed)
        streams.old.input_failures streams.new.input_failures }
    ensures meets_end { MeetsEnd (is_end_of_lines result)
        streams.old.ended streams.new.ended streams.old.passed streams.new.passed }
    ensures uses { UsesLine EndsSkipping ahead.old ahead.new streams.old streams.new result }
{
    for _ in 0..u64::MAX {
        match ahead.next_byte(streams)? {
            None => return Ok(Asked::Cut),
            Some(b'\n') => return Ok(Asked::Bad),
            Some(_) => {}
        }
    }
    Err(InputFault::Endless)
}
