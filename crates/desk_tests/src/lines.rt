//! Tests of the lines of an input that is read in pieces of several sizes.
ghost use Rattle.std.specs.Prelude.{◌≡◌, ◌<◌};

use crate::compare::same;
use crate::session_parts::room;
use cif_line::{Bytes, Fuse, Kept, Source};
use docker_desk::{Ahead, Asked, next_line};
use docker_host::Streams;
use std::alloc::Global;
use std::process::Abort;

/// The kind of a line, and its bytes if it has the form of a request.
type ExpectedLine<'a> = (&'static str, &'a [u8]);

/// The kind of a line that has the form of a request.
const LINE: &str = "line";

/// What a test expects for a line that is too long, or that has a byte that isn't printable. The
/// bytes of the line aren't compared.
const BAD: ExpectedLine<'static> = ("bad", b"");

/// What a test expects for the bytes after the last line feed. These bytes aren't compared.
const CUT: ExpectedLine<'static> = ("cut", b"");

/// What a test expects for the end of the input.
const END: ExpectedLine<'static> = ("end", b"");

/// A row: a text, and its lines in order.
type Row = (&'static [u8], &'static [ExpectedLine<'static>]);

/// Streams over a text, whose output takes nothing.
type Reading<'a> = Streams<Bytes<'a>, Kept>;

/// Asserts that the next line of the input is `wanted`.
fn is_next(rt: &impl Abort, ahead: &mut Ahead, streams: &mut Reading<'_>, wanted: ExpectedLine<'_>)
    requires { streams.old.input_failures ≡ 0 }
    ensures { streams.new.input_failures ≡ 0 }
{
    match next_line(ahead, streams) {
        Ok(Asked::Line(text)) => same(rt, (LINE, text.as_slice()), wanted),
        Ok(Asked::Bad) => same(rt, BAD, wanted),
        Ok(Asked::Cut) => same(rt, CUT, wanted),
        Ok(Asked::End) => same(rt, END, wanted),
        Err(_) => panic!(rt; "a source in memory fails"),
    }
}

/// Asserts that a text has exactly these lines if it is read in pieces of at most `step` bytes.
fn are_lines(rt: &impl Abort, alloc: Global, text: &[u8], step: usize, lines: &[ExpectedLine<'_>])
    requires { 0 < step }
{
    let mut ahead = Ahead::new();
    let mut streams = Streams::new(Bytes::new(text, step), room(rt, alloc, 0));
    for line in lines {
        is_next(rt, &mut ahead, &mut streams, *line);
    }
    is_next(rt, &mut ahead, &mut streams, END);
    let (source, _) = streams.into_parts();
    same(rt, source.left().len(), 0);
}

/// Asserts that a text has these lines, whatever the size of its pieces.
fn are_lines_in_pieces(rt: &impl Abort, alloc: Global, text: &[u8], lines: &[ExpectedLine<'_>]) {
    are_lines(rt, alloc, text, 1, lines);
    are_lines(rt, alloc, text, 2, lines);
    are_lines(rt, alloc, text, 4096, lines);
    are_lines(rt, alloc, text, 10_000, lines);
}

/// Asserts that the text of each row has the row's lines.
fn have_lines(rt: &impl Abort, alloc: Global, rows: &[Row]) {
    for (text, lines) in rows {
        are_lines_in_pieces(rt, alloc, text, lines);
    }
}

/// Rows of whole lines, some of them empty.
const WHOLE: &[Row] = &[
    (b"", &[]),
    (b"files\n", &[(LINE, b"files")]),
    (
        b"print ASHFELD 2024-06-10\n files \n",
        &[(LINE, b"print ASHFELD 2024-06-10"), (LINE, b" files ")],
    ),
    (b"\n\nsave\n", &[(LINE, b""), (LINE, b""), (LINE, b"save")]),
    (b" ~\n", &[(LINE, b" ~")]),
];

/// Rows with a byte that isn't printable. The line after the bad line is read.
const OTHER_BYTES: &[Row] = &[
    (b"files\r\nsave\n", &[BAD, (LINE, b"save")]),
    (b"fi\tles\nsave\n", &[BAD, (LINE, b"save")]),
    (b"\0files\nsave\n", &[BAD, (LINE, b"save")]),
    (b"files\x1f\nsave\n", &[BAD, (LINE, b"save")]),
    (b"files\x7f\nsave\n", &[BAD, (LINE, b"save")]),
    (b"files\x80\nsave\n", &[BAD, (LINE, b"save")]),
    (b"take \xc3\xa9\nsave\n", &[BAD, (LINE, b"save")]),
    (b"\xff\n\xff\n", &[BAD, BAD]),
];

/// Rows whose last line has no line feed.
const CUTS: &[Row] = &[
    (b"save", &[CUT]),
    (b"files\nsave", &[(LINE, b"files"), CUT]),
    (b"\n ", &[(LINE, b""), CUT]),
    (b"sa\rve", &[CUT]),
    (b"\r", &[CUT]),
];

#[test]
fn lines_of_texts(rt: HostRuntime) {
    have_lines(&rt, rt.alloc(), WHOLE);
    have_lines(&rt, rt.alloc(), OTHER_BYTES);
    have_lines(&rt, rt.alloc(), CUTS);
}

/// Returns a text of this many letters.
fn letters(rt: &impl Abort, alloc: Global, many: usize) -> Vec<u8> {
    let mut text = Vec::new(alloc);
    for _ in 0..many {
        text.push(b'x').expect(rt, "room");
    }
    text
}

/// Asserts that a line of this many letters is whole if `is_whole` is set, and bad otherwise. Also
/// asserts that the line after it is read.
fn is_line_of(rt: &impl Abort, alloc: Global, many: usize, is_whole: bool) {
    let long = letters(rt, alloc, many);
    let mut text = letters(rt, alloc, many);
    text.extend_from_slice(b"\nsave\n").expect(rt, "room");
    let first = if is_whole {
        (LINE, long.as_slice())
    } else {
        BAD
    };
    are_lines_in_pieces(
        rt,
        alloc,
        text.as_slice(),
        &[first, (LINE, b"save".as_slice())],
    );
}

/// Asserts that this many letters without a line feed are a cut line.
fn is_cut_of(rt: &impl Abort, alloc: Global, many: usize) {
    let text = letters(rt, alloc, many);
    are_lines_in_pieces(rt, alloc, text.as_slice(), &[CUT]);
}

#[test]
fn lines_of_many_bytes(rt: HostRuntime) {
    let alloc = rt.alloc();
    is_line_of(&rt, alloc, 254, true);
    is_line_of(&rt, alloc, 255, true);
    is_line_of(&rt, alloc, 256, false);
    is_line_of(&rt, alloc, 4090, false);
    is_line_of(&rt, alloc, 4095, false);
    is_line_of(&rt, alloc, 4096, false);
    is_line_of(&rt, alloc, 10_000, false);
    is_cut_of(&rt, alloc, 255);
    is_cut_of(&rt, alloc, 256);
    is_cut_of(&rt, alloc, 5000);
}

/// Returns a text of a thousand lines. Some lines extend over the end of a piece.
fn many_lines(rt: &impl Abort, alloc: Global) -> Vec<u8> {
    let mut text = Vec::new(alloc);
    for _ in 0..1000 {
        text.extend_from_slice(b"renew\n").expect(rt, "room");
    }
    text
}

#[test]
fn a_thousand_lines(rt: HostRuntime) {
    let text = many_lines(&rt, rt.alloc());
    let lines = [(LINE, b"renew".as_slice()); 1000];
    are_lines_in_pieces(&rt, rt.alloc(), text.as_slice(), &lines);
}

/// Reads one line from a source that returns one byte per read. Only the read with this number
/// fails. Returns how often the source failed, and whether reading the line failed.
fn read_with_fuse(rt: &impl Abort, alloc: Global, text: &[u8], read: u64) -> (u64, bool)
    requires { 0 < read }
{
    let source = Fuse::new(Bytes::new(text, 1), read);
    let mut streams = Streams::new(source, room(rt, alloc, 0));
    let failed = match next_line(&mut Ahead::new(), &mut streams) {
        Err(_) => true,
        Ok(Asked::Line(_text)) => false,
        Ok(Asked::Bad) => false,
        Ok(Asked::Cut) => false,
        Ok(Asked::End) => false,
    };
    let (source, _) = streams.into_parts();
    (source.failures(), failed)
}

#[test]
fn an_input_that_fails(rt: HostRuntime) {
    let alloc = rt.alloc();
    same(&rt, read_with_fuse(&rt, alloc, b"save\n", 1), (1, true));
    same(&rt, read_with_fuse(&rt, alloc, b"save\n", 5), (1, true));
    same(&rt, read_with_fuse(&rt, alloc, b"save\n", 6), (0, false));
    same(&rt, read_with_fuse(&rt, alloc, b"s\xffve\n", 4), (1, true));
    same(&rt, read_with_fuse(&rt, alloc, b"save", 5), (1, true));
}
