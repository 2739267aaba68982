//! Indexes of rows: which schedules call at a place and which associations are there, also after a
//! lapse and after a join.

use super::compare::same;
use cif_file::{AssocKey, Body, Key, Lines, ScheduleKey};
use cif_line::{Day, Line, Stp, Tiploc, Uid};
use docker_join::{Entry, FileStamp, Merge, Op, Stamp, Table};
use state_index::{Index, Posting};
use std::alloc::Global;
use std::process::Abort;
use test_records::AA_NO_END;

/// A schedule that calls twice at Ashfeld, once at Brayton and once at Colwell. Denham has only a
/// change en route, so the train doesn't call there.
const ROUND: &[&[u8; 80]] = &[
    b"BSNC100012406109999991111100                                                    ",
    b"LOASHFELD  1200                                                                 ",
    b"LIBRAYTON  1210                                                                 ",
    b"CRDENHAM                                                                        ",
    b"LIASHFELD 21220                                                                 ",
    b"LTCOLWELL  1230                                                                 ",
];

/// A schedule from Brayton to Ashfeld that ends on 1 January 1960.
const SHORT: &[&[u8; 80]] = &[
    b"BSNC200012406106001011111100                                                    ",
    b"LOBRAYTON  1300                                                                 ",
    b"LTASHFELD  1310                                                                 ",
];

/// The TIPLOC with this code.
fn tiploc(rt: &impl Abort, code: &str) -> Tiploc {
    Tiploc::from_text(code).expect(rt, "a TIPLOC")
}

/// The UID with this text.
fn uid(rt: &impl Abort, text: &[u8; 6]) -> Uid {
    Uid::from_field(text).expect(rt, "a UID")
}

/// A file stamp with this date of extract.
fn file(rt: &impl Abort, day: u16) -> FileStamp {
    FileStamp {
        day: Day::from_number(day).expect(rt, "a day"),
        minute: 1260,
        reference: *b"DFROC1A",
    }
}

/// The op that puts the association in this record.
fn link(rt: &impl Abort, record: &[u8]) -> Op {
    Op::Put(Body::Assoc(Line::new(record).expect(rt, "a line")))
}

/// The op that puts a schedule with these records.
fn put(rt: &impl Abort, alloc: Global, records: &[&[u8; 80]]) -> Op {
    let mut lines = Vec::new(alloc);
    for record in records {
        let line = Line::new(*record).expect(rt, "a line");
        lines.push(line).expect(rt, "memory");
    }
    Op::Put(Body::Schedule(Lines::of(lines)))
}

/// The key of a schedule of this UID.
fn schedule(rt: &impl Abort, text: &[u8; 6]) -> Key {
    Key::Schedule(ScheduleKey {
        uid: uid(rt, text),
        runs_from: Day::from_number(23536).expect(rt, "a day"),
        stp: Stp::Permanent,
    })
}

/// The key of an association at Colwell.
fn association(rt: &impl Abort) -> Key {
    Key::Assoc(AssocKey {
        base: uid(rt, b"C10001"),
        associated: uid(rt, b"C20001"),
        start: Day::from_number(23536).expect(rt, "a day"),
        location: tiploc(rt, "COLWELL"),
        suffix: b' ',
        stp: Stp::Permanent,
    })
}

/// The table `table` with one more row. The row's entry comes from a file with this date of
/// extract.
fn and(
    rt: &impl Abort,
    alloc: Global,
    table: Table<Entry>,
    key: Key,
    day: u16,
    op: Op,
) -> Table<Entry> {
    let stamp = Stamp {
        file: file(rt, day),
        number: 2,
    };
    let mut rows = Vec::new(alloc);
    rows.push((key, Entry { stamp, op })).expect(rt, "memory");
    table
        .join(alloc, Table::from_rows(rows))
        .expect(rt, "memory")
}

/// A table with an association, a round trip, a short trip and a deleted schedule.
fn timetable(rt: &impl Abort, alloc: Global) -> Table<Entry> {
    let all = Table::new(alloc);
    let all = and(rt, alloc, all, association(rt), 23536, link(rt, AA_NO_END));
    let round = put(rt, alloc, ROUND);
    let all = and(rt, alloc, all, schedule(rt, b"C10001"), 23536, round);
    let short = put(rt, alloc, SHORT);
    let all = and(rt, alloc, all, schedule(rt, b"C20001"), 23536, short);
    and(rt, alloc, all, schedule(rt, b"C30001"), 23536, Op::Deleted)
}

/// A table from a file that is later than the files of `timetable`. The file puts another short
/// trip, and deletes the round trip.
fn update(rt: &impl Abort, alloc: Global) -> Table<Entry> {
    let short = put(rt, alloc, SHORT);
    let all = Table::new(alloc);
    let all = and(rt, alloc, all, schedule(rt, b"A00001"), 23537, short);
    and(rt, alloc, all, schedule(rt, b"C10001"), 23537, Op::Deleted)
}

/// Makes the index of a table's rows.
fn indexed(rt: &impl Abort, alloc: Global, table: &Table<Entry>) -> Index {
    Index::of(alloc, table.as_slice()).expect(rt, "memory")
}

/// Asserts that a posting has this place and this row.
fn posting_is(rt: &impl Abort, index: &Index, posting: &Posting, code: &str, at: u32) {
    let place = index
        .places
        .get(posting.place as usize)
        .expect(rt, "a place");
    same(rt, place, tiploc(rt, code).bytes());
    same(rt, posting.at, at);
}

/// Asserts that postings have these places and these rows, in this order.
fn postings_are(rt: &impl Abort, index: &Index, postings: &[Posting], wanted: &[(&str, u32)]) {
    same(rt, postings.len(), wanted.len());
    for (posting, (code, at)) in postings.iter().zip(wanted) {
        posting_is(rt, index, posting, code, *at);
    }
}

/// Asserts that an index has these calls, each given as a place and a row. Also asserts that the
/// index has only one posting of an association, with the place Colwell and the first row.
fn index_is(rt: &impl Abort, index: &Index, calls: &[(&str, u32)]) {
    postings_are(rt, index, index.calls.as_slice(), calls);
    postings_are(rt, index, index.links.as_slice(), &[("COLWELL", 0)]);
}

#[test]
fn places_of_a_timetable(rt: HostRuntime) {
    let table = timetable(&rt, rt.alloc());
    let index = indexed(&rt, rt.alloc(), &table);
    let calls = [
        ("ASHFELD", 1),
        ("ASHFELD", 2),
        ("BRAYTON", 1),
        ("BRAYTON", 2),
        ("COLWELL", 1),
    ];
    index_is(&rt, &index, &calls);
}

#[test]
fn a_lapse_takes_postings_out(rt: HostRuntime) {
    let mut table = timetable(&rt, rt.alloc());
    table.lapse(1);
    let index = indexed(&rt, rt.alloc(), &table);
    let calls = [("ASHFELD", 1), ("BRAYTON", 1), ("COLWELL", 1)];
    index_is(&rt, &index, &calls);
}

#[test]
fn a_join_has_both(rt: HostRuntime) {
    let alloc = rt.alloc();
    let table = timetable(&rt, alloc).join(alloc, update(&rt, alloc));
    let index = indexed(&rt, alloc, &table.expect(&rt, "memory"));
    let calls = [
        ("ASHFELD", 1),
        ("ASHFELD", 3),
        ("BRAYTON", 1),
        ("BRAYTON", 3),
    ];
    index_is(&rt, &index, &calls);
}
