//! Helpers for tests with offices that read from sources and write to sinks in memory.

use crate::compare::{same, same_in};
use cif_line::{Bytes, Day, Kept, Tiploc};
use docker_office::{LedgerOffice, Office, OfficeFault, PlaceOffice};
use std::alloc::Global;
use std::process::Abort;
use test_records::dockers::Lines;
use test_records::files::File;
use test_records::states::Parts;
use test_records::text;

/// The greatest length in bytes that a text may have in the worked examples.
const ROOM: usize = 1000;

/// Returns these lines as one text, each with a line feed.
pub(crate) fn text_of(rt: &impl Abort, alloc: Global, lines: &[&[u8]]) -> Vec<u8> {
    text(alloc, lines, b"\n").expect(rt, "room")
}

/// Returns the text of these parts.
pub(crate) fn text_of_parts(rt: &impl Abort, alloc: Global, parts: &[&[u8]]) -> Vec<u8> {
    text(alloc, parts, b"").expect(rt, "room")
}

/// Has an office take a file.
pub(crate) fn take(rt: &impl Abort, alloc: Global, office: &mut Office, file: File) {
    let text = text_of(rt, alloc, file);
    let mut source = Bytes::new(text.as_slice(), 100);
    office.take(&mut source, 1000).expect(rt, "a file");
}

/// Returns an office that has taken these files in this order.
pub(crate) fn office_of(rt: &impl Abort, alloc: Global, files: &[File]) -> Office {
    let mut office = Office::new(alloc);
    for file in files {
        take(rt, alloc, &mut office, file);
    }
    office
}

/// Has an office receive the state of another office, which has taken this file.
fn receive_of(rt: &impl Abort, alloc: Global, office: &mut Office, file: File) {
    let mut other = Office::new(alloc);
    take(rt, alloc, &mut other, file);
    let text = sent(rt, alloc, &other);
    let mut source = Bytes::new(text.bytes(), 7);
    office.receive(&mut source, 1000).expect(rt, "a state");
}

/// Returns an office that has received the states of other offices. Each of the other offices has
/// taken one of these files.
pub(crate) fn merged(rt: &impl Abort, alloc: Global, files: &[File]) -> Office {
    let mut office = Office::new(alloc);
    for file in files {
        receive_of(rt, alloc, &mut office, file);
    }
    office
}

/// Returns the text that an office sends.
pub(crate) fn sent(rt: &impl Abort, alloc: Global, office: &Office) -> Kept {
    let mut kept = Kept::new(alloc, ROOM).expect(rt, "room");
    office.send(&mut kept).expect(rt, "the state");
    kept
}

/// Returns an office for one timing point and one day. The office has read the state of another
/// office.
pub(crate) fn at_place(
    rt: &impl Abort,
    alloc: Global,
    office: &Office,
    place: Tiploc,
    day: Day,
) -> PlaceOffice {
    let text = sent(rt, alloc, office);
    let mut source = Bytes::new(text.bytes(), 7);
    PlaceOffice::read(alloc, place, day, &mut source, 1000).expect(rt, "a state")
}

/// Returns an office that has read only the ledger of another office.
pub(crate) fn ledger_of(rt: &impl Abort, alloc: Global, office: &Office) -> LedgerOffice {
    let text = sent(rt, alloc, office);
    let mut source = Bytes::new(text.bytes(), 7);
    LedgerOffice::read(alloc, &mut source, 1000).expect(rt, "a state")
}

/// Asserts that the state of an office has this text.
pub(crate) fn has_text(rt: &impl Abort, alloc: Global, office: &Office, text: &[u8]) {
    let own = sent(rt, alloc, office);
    same(rt, own.bytes(), text);
}

/// Asserts that the text of an office's state consists of these parts.
pub(crate) fn has(rt: &impl Abort, alloc: Global, office: &Office, parts: Parts) {
    let text = text_of_parts(rt, alloc, parts);
    has_text(rt, alloc, office, text.as_slice());
}

/// Returns the timing point with this code.
pub(crate) fn place_of(rt: &impl Abort, code: &str) -> Tiploc {
    Tiploc::from_text(code).expect(rt, "a TIPLOC")
}

/// Returns the day with this date.
pub(crate) fn day_of(rt: &impl Abort, date: &str) -> Day {
    Day::from_iso(date).expect(rt, "a day")
}

/// Asserts that an office prints this docker for a place and a day. Also asserts that an office for
/// only this place and day prints the same docker.
pub(crate) fn prints(
    rt: &impl Abort,
    alloc: Global,
    office: &Office,
    place: &str,
    date: &str,
    docker: Lines,
) {
    let place = place_of(rt, place);
    let day = day_of(rt, date);
    let mut kept = Kept::new(alloc, ROOM).expect(rt, "room");
    let answer = office.print(&place, day, &mut kept);
    same_in(rt, date, answer, Ok(()));
    let wanted = text_of(rt, alloc, docker);
    same_in(rt, date, kept.bytes(), wanted.as_slice());
    let office = at_place(rt, alloc, office, place, day);
    prints_there(rt, alloc, &office, date, docker);
}

/// Asserts that an office for one place and one day prints this docker after it has taken this
/// file.
pub(crate) fn prints_of_file(
    rt: &impl Abort,
    alloc: Global,
    file: File,
    place: &str,
    date: &str,
    docker: Lines,
) {
    let text = text_of(rt, alloc, file);
    let mut source = Bytes::new(text.as_slice(), 100);
    let place = place_of(rt, place);
    let office = PlaceOffice::take(alloc, place, day_of(rt, date), &mut source, 1000);
    let office = office.expect(rt, "a file");
    prints_there(rt, alloc, &office, date, docker);
}

/// Asserts that an office for one place and for the day with this date prints this docker.
fn prints_there(rt: &impl Abort, alloc: Global, office: &PlaceOffice, date: &str, docker: Lines) {
    let mut kept = Kept::new(alloc, ROOM).expect(rt, "room");
    let answer = office.print(&mut kept);
    same_in(rt, date, answer, Ok(()));
    let wanted = text_of(rt, alloc, docker);
    same_in(rt, date, kept.bytes(), wanted.as_slice());
}

/// Asserts that an office refuses to print the docker of Ashfeld for the day with this date. Also
/// asserts that an office for only this place and day refuses to print this docker.
pub(crate) fn refuses_day(rt: &impl Abort, alloc: Global, office: &Office, date: &str) {
    let place = place_of(rt, "ASHFELD");
    let day = day_of(rt, date);
    let mut kept = Kept::new(alloc, ROOM).expect(rt, "room");
    let answer = office.print(&place, day, &mut kept);
    same_in(rt, date, answer, Err(OfficeFault::Lapsed));
    let answer = at_place(rt, alloc, office, place, day).print(&mut kept);
    same_in(rt, date, answer, Err(OfficeFault::Lapsed));
    same_in(rt, date, kept.bytes().is_empty(), true);
}
