//! Tests of the requests that lines contain.

use crate::compare::same_in;
use crate::session_parts::room;
use cif_line::{Bytes, Day};
use docker_desk::{Ahead, Asked, DockerKind, Query, Request, next_line, request_in};
use docker_host::Streams;
use std::alloc::Global;
use std::process::Abort;

/// A row: a line, and the words of its request, separated by one space.
type Row = (&'static str, &'static str);

/// Appends a space and a word.
fn add(rt: &impl Abort, text: &mut Vec<u8>, word: &[u8]) {
    text.push(b' ').expect(rt, "room");
    text.extend_from_slice(word).expect(rt, "room");
}

/// Appends a verb, a word and a day.
fn add_dated(rt: &impl Abort, text: &mut Vec<u8>, verb: &[u8], word: &[u8], day: &Day) {
    text.extend_from_slice(verb).expect(rt, "room");
    add(rt, text, word);
    add(rt, text, &day.iso());
}

/// Returns the verb that requests a docker of this kind.
fn docker_verb(kind: DockerKind) -> &'static [u8] {
    match kind {
        DockerKind::Ordinary => b"print",
        DockerKind::Permanent => b"permanent",
        DockerKind::Detailed => b"detail",
        DockerKind::PermanentDetailed => b"permanent-detail",
    }
}

/// Appends the words of a query.
fn add_query(rt: &impl Abort, text: &mut Vec<u8>, query: &Query) {
    match query {
        Query::Docker { kind, place, day } => {
            add_dated(rt, text, docker_verb(*kind), place.bytes(), day);
        }
        Query::Train { uid, day } => add_dated(rt, text, b"train", uid.bytes(), day),
        Query::Trains { identity, day } => add_dated(rt, text, b"trains", identity, day),
        Query::Files => text.extend_from_slice(b"files").expect(rt, "room"),
        Query::Places => text.extend_from_slice(b"places").expect(rt, "room"),
        Query::Known => text.extend_from_slice(b"known").expect(rt, "room"),
    }
}

/// Returns the verb of a request that names no day and isn't a query, and the name of its file if it
/// has one. For any other request, the verb is empty.
fn file_words<'a>(request: &Request<'a>) -> (&'static str, Option<&'a str>) {
    match request {
        Request::Take(file) => ("take", Some(*file)),
        Request::Merge(other) => ("merge", Some(*other)),
        Request::Renew => ("renew", None),
        Request::Save => ("save", None),
        _ => ("", None),
    }
}

/// Returns the words of a request, separated by one space.
fn words_of(rt: &impl Abort, alloc: Global, request: &Request<'_>) -> Vec<u8> {
    let mut text = Vec::new(alloc);
    match request {
        Request::Show(query) => add_query(rt, &mut text, query),
        Request::Horizon { day } => {
            text.extend_from_slice(b"horizon").expect(rt, "room");
            add(rt, &mut text, &day.iso());
        }
        _ => {}
    }
    let (verb, file) = file_words(request);
    text.extend_from_slice(verb.as_bytes()).expect(rt, "room");
    if let Some(file) = file {
        add(rt, &mut text, file.as_bytes());
    }
    text
}

/// Returns the words of the request in the first line of a text, or an empty text if the line isn't
/// a request.
fn asked_by(rt: &impl Abort, alloc: Global, text: &[u8], may_write: bool) -> Vec<u8> {
    let mut streams = Streams::new(Bytes::new(text, 4096), room(rt, alloc, 0));
    match next_line(&mut Ahead::new(), &mut streams) {
        Ok(Asked::Line(line)) => match request_in(line.as_slice(), may_write) {
            Some(request) => words_of(rt, alloc, &request),
            None => Vec::new(alloc),
        },
        Ok(Asked::Bad) | Ok(Asked::Cut) | Ok(Asked::End) => panic!(rt; "no request can be so"),
        Err(_) => panic!(rt; "a source in memory fails"),
    }
}

/// Asserts that a line is the request with these words. If there are no words, asserts that the
/// line isn't a request.
fn asks(rt: &impl Abort, alloc: Global, line: &str, may_write: bool, words: &str) {
    let mut text = Vec::new(alloc);
    text.extend_from_slice(line.as_bytes()).expect(rt, "room");
    text.push(b'\n').expect(rt, "room");
    let asked = asked_by(rt, alloc, text.as_slice(), may_write);
    same_in(rt, line, asked.as_slice(), words.as_bytes());
}

/// Rows of requests that any desk accepts.
const READING: &[Row] = &[
    ("print ASHFELD 2024-06-10", "print ASHFELD 2024-06-10"),
    ("  print  ELM   1960-01-01 ", "print ELM     1960-01-01"),
    ("print A-1 2059-12-31", "print A-1     2059-12-31"),
    (
        "permanent ASHFELD 2024-06-10",
        "permanent ASHFELD 2024-06-10",
    ),
    (" permanent ELM 1960-01-01", "permanent ELM     1960-01-01"),
    ("detail ASHFELD 2024-06-10", "detail ASHFELD 2024-06-10"),
    ("detail  ELM 2059-12-31 ", "detail ELM     2059-12-31"),
    (
        "permanent-detail ASHFELD 2024-06-10",
        "permanent-detail ASHFELD 2024-06-10",
    ),
    (
        " permanent-detail ELM 1960-01-01",
        "permanent-detail ELM     1960-01-01",
    ),
    ("train C10001 2024-02-29", "train C10001 2024-02-29"),
    ("train -10001 2024-06-10", "train -10001 2024-06-10"),
    ("trains 1A10 2024-02-29", "trains 1A10 2024-02-29"),
    ("  trains   -*/~   2024-06-10 ", "trains -*/~ 2024-06-10"),
    ("files", "files"),
    (" files  ", "files"),
    ("places", "places"),
    ("  places ", "places"),
    ("known", "known"),
    (" known  ", "known"),
    ("renew", "renew"),
    ("renew ", "renew"),
];

/// Rows of requests that a desk accepts only if it may write. The name of a file is everything
/// after the verb and its spaces.
const WRITING: &[Row] = &[
    ("take F2", "take F2"),
    (" take   F2", "take F2"),
    ("take of 9 June.cif", "take of 9 June.cif"),
    ("take F2  ", "take F2  "),
    ("take stdin ", "take stdin "),
    ("take STDIN", "take STDIN"),
    ("take F2 -x", "take F2 -x"),
    ("merge S2", "merge S2"),
    ("merge  two words ", "merge two words "),
    ("horizon 2024-06-15", "horizon 2024-06-15"),
    (" horizon  2024-06-15 ", "horizon 2024-06-15"),
    ("save", "save"),
    ("  save ", "save"),
];

/// Lines that aren't requests.
const NOTHING: &[&str] = &[
    "",
    "   ",
    "help",
    "Files",
    "file",
    "filess",
    "files now",
    "place",
    "places ASHFELD",
    "Known",
    "known S",
    "renew S",
    "save S",
    "print",
    "print ASHFELD",
    "permanent",
    "permanent ASHFELD",
    "permanent ASHFELD 2024-06-10 twice",
    "permanent -SHFELD 2024-06-10",
    "permanent ASHFELD 2024-02-30",
    "detail",
    "detail ASHFELD",
    "detail ASHFELD 2024-06-10 twice",
    "detail -SHFELD 2024-06-10",
    "details ASHFELD 2024-06-10",
    "permanent-detail",
    "permanent-detail ASHFELD 2024-06",
    "permanent detail ASHFELD 2024-06-10",
    "permanent-details ASHFELD 2024-06-10",
    "print 2024-06-10",
    "print 2024-06-10 ASHFELD",
    "print ASHFELD 2024-06-10 twice",
    "print ASHFELDS 2024-06-10",
    "print -SHFELD 2024-06-10",
    "print ASHFELD 2024-6-10",
    "print ASHFELD 240610",
    "print ASHFELD 2024-02-30",
    "print ASHFELD 2023-02-29",
    "print ASHFELD 1959-12-31",
    "print ASHFELD 2060-01-01",
    "train C10001",
    "train C1000 2024-06-10",
    "train C100011 2024-06-10",
    "train C10001 2024-13-01",
    "train C10001 2024-06-10 twice",
    "trains 1A10",
    "trains 1A1 2024-06-10",
    "trains 1A100 2024-06-10",
    "trains 1A10 2024-13-01",
    "trains 1A10 2024-06-10 twice",
    "trains 1 10 2024-06-10",
    "take",
    "take  ",
    "take stdin",
    "take -F2",
    "merge",
    "merge stdin",
    "merge --write",
    "horizon",
    "horizon 2024-06-31",
    "horizon 2024-06-15 now",
    "--write",
    "print\u{7e}ASHFELD 2024-06-10",
];

/// Asserts that the line of each row is the row's request.
fn ask(rt: &impl Abort, alloc: Global, rows: &[Row], may_write: bool) {
    for (line, words) in rows {
        asks(rt, alloc, line, may_write, words);
    }
}

/// Asserts that these lines aren't requests.
fn ask_nothing(rt: &impl Abort, alloc: Global, lines: &[&str]) {
    for line in lines {
        asks(rt, alloc, line, false, "");
        asks(rt, alloc, line, true, "");
    }
}

#[test]
fn requests_of_every_desk(rt: HostRuntime) {
    ask(&rt, rt.alloc(), READING, false);
    ask(&rt, rt.alloc(), READING, true);
}

#[test]
fn requests_of_a_desk_that_writes(rt: HostRuntime) {
    ask(&rt, rt.alloc(), WRITING, true);
    for (line, _) in WRITING {
        asks(&rt, rt.alloc(), line, false, "");
    }
}

#[test]
fn lines_that_ask_for_nothing(rt: HostRuntime) {
    ask_nothing(&rt, rt.alloc(), NOTHING);
}
