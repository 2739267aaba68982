//! Tests of the view and the leftmost bad field of each kind of record.
use super::compare::{prints, same};
use cif_line::{
    Assoc, Basic, Call, ChangeEnRoute, Days, Extract, FieldFault, Header, Kind, Line, Origin, Stp,
    Terminus, Time, Tiploc, TiplocRecord, Transaction, Until, assoc, basic, call, change, header,
    kind, origin, terminus, tiploc,
};
use std::process::Abort;
use test_records::{BODY_OF_TI, BS, CR_5E51, HD, LI_0000, LI_0010, LO, LT, TA, TI};

// The line with this text.
fn line(rt: &impl Abort, text: &[u8]) -> Line {
    Line::new(text).expect(rt, "a line")
}

// The line with this text at its start, this byte in column 80, and spaces between them.
fn record(rt: &impl Abort, text: &[u8], last: u8) -> Line {
    let mut bytes = [b' '; 80];
    let n = text.len().min(79);
    bytes[..n].copy_from_slice(&text[..n]);
    bytes[79] = last;
    Line::new(&bytes).expect(rt, "a line")
}

fn header_of<'a>(rt: &impl Abort, line: &'a Line) -> Header<'a> {
    match kind(line) {
        Some(Kind::Header) => header(line).expect(rt, "a header"),
        _ => panic!(rt; "a header"),
    }
}

fn tiploc_of<'a>(rt: &impl Abort, line: &'a Line) -> TiplocRecord<'a> {
    match kind(line) {
        Some(Kind::TiplocInsert) => tiploc(line).expect(rt, "a TIPLOC record"),
        Some(Kind::TiplocAmend) => tiploc(line).expect(rt, "a TIPLOC record"),
        Some(Kind::TiplocDelete) => tiploc(line).expect(rt, "a TIPLOC record"),
        _ => panic!(rt; "a TIPLOC record"),
    }
}

fn assoc_of<'a>(rt: &impl Abort, line: &'a Line) -> Assoc<'a> {
    match kind(line) {
        Some(Kind::Association) => assoc(line).expect(rt, "an association"),
        _ => panic!(rt; "an association"),
    }
}

fn call_of<'a>(rt: &impl Abort, line: &'a Line) -> Call<'a> {
    match kind(line) {
        Some(Kind::IntermediateLocation) => call(line).expect(rt, "an intermediate location"),
        _ => panic!(rt; "an intermediate location"),
    }
}

fn change_of<'a>(rt: &impl Abort, line: &'a Line) -> ChangeEnRoute<'a> {
    match kind(line) {
        Some(Kind::ChangeEnRoute) => change(line).expect(rt, "a change en route"),
        _ => panic!(rt; "a change en route"),
    }
}

fn basic_of<'a>(rt: &impl Abort, line: &'a Line) -> Basic<'a> {
    match kind(line) {
        Some(Kind::BasicSchedule) => basic(line).expect(rt, "a basic schedule"),
        _ => panic!(rt; "a basic schedule"),
    }
}

fn origin_of<'a>(rt: &impl Abort, line: &'a Line) -> Origin<'a> {
    match kind(line) {
        Some(Kind::OriginLocation) => origin(line).expect(rt, "an origin"),
        _ => panic!(rt; "an origin"),
    }
}

fn terminus_of<'a>(rt: &impl Abort, line: &'a Line) -> Terminus<'a> {
    match kind(line) {
        Some(Kind::TerminatingLocation) => terminus(line).expect(rt, "a terminus"),
        _ => panic!(rt; "a terminus"),
    }
}

// Asserts which field is the leftmost bad field of a line. The line has this text at its start,
// this byte in column 80, and spaces between them.
fn bad_field_is(rt: &impl Abort, text: &[u8], last: u8, wanted: Option<u8>) {
    let line = record(rt, text, last);
    let fault = match kind(&line) {
        Some(Kind::Header) => header(&line).err(),
        Some(Kind::TiplocInsert) => tiploc(&line).err(),
        Some(Kind::TiplocAmend) => tiploc(&line).err(),
        Some(Kind::TiplocDelete) => tiploc(&line).err(),
        Some(Kind::Association) => assoc(&line).err(),
        Some(Kind::BasicSchedule) => basic(&line).err(),
        Some(Kind::OriginLocation) => origin(&line).err(),
        Some(Kind::IntermediateLocation) => call(&line).err(),
        Some(Kind::TerminatingLocation) => terminus(&line).err(),
        Some(Kind::ChangeEnRoute) => change(&line).err(),
        _ => None,
    };
    same(rt, fault, wanted.map(FieldFault));
}

// The start of a line, the byte in column 80, and the leftmost bad field.
type BadField = (&'static [u8], u8, Option<u8>);

fn bad_fields_are(rt: &impl Abort, rows: &[BadField]) {
    for (text, last, wanted) in rows {
        bad_field_is(rt, text, *last, *wanted);
    }
}

fn half_minutes_are(rt: &impl Abort, time: Option<Time>, wanted: Option<u16>) {
    let half_minutes = match time {
        Some(time) => Some(time.half_minutes()),
        None => None,
    };
    same(rt, half_minutes, wanted);
}

#[test]
fn a_header(rt: HostRuntime) {
    let line = line(&rt, HD);
    let head = header_of(&rt, &line);
    same(&rt, head.day().number(), 23536);
    same(&rt, head.minute(), 1260);
    same(&rt, head.reference(), b"DFROC1A");
    same(&rt, head.last_reference(), b"DFROC1Z");
    same(&rt, head.extract(), Extract::Update);
}

#[test]
fn a_basic_schedule(rt: HostRuntime) {
    let line = line(&rt, BS);
    let schedule = basic_of(&rt, &line);
    same(&rt, schedule.transaction(), Transaction::New);
    same(&rt, schedule.uid().bytes(), b"C10001");
    same(&rt, schedule.runs_from().number(), 23537);
    same(&rt, schedule.runs_to(), Until::from_field(b"240614"));
    same(
        &rt,
        schedule.runs_to().expect(&rt, "an end").number(),
        23541,
    );
    same(&rt, schedule.days(), Days::from_field(b"1111100"));
    same(&rt, schedule.identity(), b"1A10");
    same(&rt, schedule.stp(), Stp::Permanent);
}

#[test]
fn a_deletion_of_a_schedule(rt: HostRuntime) {
    let line = record(&rt, b"BSDC10001240610", b'C');
    let schedule = basic_of(&rt, &line);
    same(&rt, schedule.transaction(), Transaction::Delete);
    same(&rt, schedule.runs_to(), None);
    same(&rt, schedule.days(), None);
    same(&rt, schedule.stp(), Stp::Cancellation);
}

#[test]
fn an_origin(rt: HostRuntime) {
    let line = line(&rt, LO);
    let from = origin_of(&rt, &line);
    same(&rt, from.tiploc().bytes(), b"ASHFELD");
    same(&rt, from.suffix(), b' ');
    same(&rt, from.departure().text(), *b"0900 ");
    half_minutes_are(&rt, from.public_departure(), Some(1080));
    same(&rt, from.platform(), b"1  ");
    same(&rt, from.track(), b"SL ");
}

#[test]
fn origins_without_a_public_time(rt: HostRuntime) {
    for text in [b"LOASHFELD20900H0000", b"LOASHFELD20900H    "] {
        let line = record(&rt, text, b' ');
        let from = origin_of(&rt, &line);
        same(&rt, from.suffix(), b'2');
        same(&rt, from.departure().half_minutes(), 1081);
        same(&rt, from.public_departure(), None);
    }
}

#[test]
fn a_terminus(rt: HostRuntime) {
    let line = line(&rt, LT);
    let to = terminus_of(&rt, &line);
    same(&rt, to.tiploc().bytes(), b"BRAYTON");
    same(&rt, to.suffix(), b' ');
    same(&rt, to.arrival().text(), *b"0930 ");
    half_minutes_are(&rt, to.public_arrival(), Some(1144));
    same(&rt, to.platform(), b"2  ");
    same(&rt, to.path(), b"FL ");
}

#[test]
fn a_timing_point(rt: HostRuntime) {
    let line = line(&rt, TI);
    let point = tiploc_of(&rt, &line);
    same(&rt, point.code().bytes(), b"ASHFELD");
    same(&rt, point.description(), b"ASHFIELD CENTRAL          ");
    same(&rt, point.details(), &BODY_OF_TI);
    same(&rt, point.new_code(), None);
}

#[test]
fn a_timing_point_renamed(rt: HostRuntime) {
    let line = line(&rt, TA);
    let point = tiploc_of(&rt, &line);
    same(&rt, point.code().bytes(), b"ASHFELD");
    same(&rt, point.new_code(), Tiploc::from_text("ASHFLDN"));
    let line = record(&rt, b"TAASHFELD         ASHFIELD NEW", b' ');
    same(&rt, tiploc_of(&rt, &line).new_code(), None);
    let line = record(
        &rt,
        b"TIASHFELD         ASHFIELD NEW                                          ASHFLDN",
        b' ',
    );
    same(&rt, tiploc_of(&rt, &line).new_code(), None);
}

#[test]
fn an_association(rt: HostRuntime) {
    let line = record(
        &rt,
        b"AANC30001C300022406102406141000000VVSCOLWELL23TP",
        b'P',
    );
    let joined = assoc_of(&rt, &line);
    same(&rt, joined.transaction(), Transaction::New);
    same(&rt, joined.base().bytes(), b"C30001");
    same(&rt, joined.associated().bytes(), b"C30002");
    same(&rt, joined.start().number(), 23537);
    same(&rt, joined.end().expect(&rt, "an end").number(), 23541);
    same(&rt, joined.days(), Days::from_field(b"1000000"));
    same(&rt, joined.category(), b"VV");
    same(&rt, joined.date_indicator(), b'S');
    same(&rt, joined.location().bytes(), b"COLWELL");
    same(&rt, joined.base_suffix(), b'2');
    same(&rt, joined.associated_suffix(), b'3');
    same(&rt, joined.stp(), Stp::Permanent);
}

#[test]
fn a_deletion_of_an_association(rt: HostRuntime) {
    let line = record(
        &rt,
        b"AADC30001C30002240610                COLWELL2 TP",
        b'C',
    );
    let joined = assoc_of(&rt, &line);
    same(&rt, joined.transaction(), Transaction::Delete);
    same(&rt, joined.end(), None);
    same(&rt, joined.days(), None);
    same(&rt, joined.stp(), Stp::Cancellation);
    let kept = line.as_new();
    same(&rt, kept.bytes()[2], b'N');
    same(&rt, kept.bytes()[3], b'C');
}

#[test]
fn a_call(rt: HostRuntime) {
    let line = line(&rt, LI_0000);
    let at = call_of(&rt, &line);
    same(&rt, at.tiploc().bytes(), b"COLWELL");
    same(&rt, at.suffix(), b' ');
    half_minutes_are(&rt, at.arrival(), Some(1));
    half_minutes_are(&rt, at.departure(), Some(1));
    same(&rt, at.pass(), None);
    same(&rt, at.public_arrival(), None);
    half_minutes_are(&rt, at.public_departure(), Some(2));
    same(&rt, at.platform(), b"2  ");
    same(&rt, at.track(), b"SL ");
    same(&rt, at.path(), b"FL ");
}

#[test]
fn calls_of_which_parts_are_blank(rt: HostRuntime) {
    let line = line(&rt, LI_0010);
    let passed = call_of(&rt, &line);
    same(&rt, passed.arrival(), None);
    same(&rt, passed.departure(), None);
    half_minutes_are(&rt, passed.pass(), Some(20));
    same(&rt, passed.public_arrival(), None);
    same(&rt, passed.public_departure(), None);
    let line = record(&rt, b"LICOLWELL21040 1042      1041    4", b' ');
    let second = call_of(&rt, &line);
    same(&rt, second.suffix(), b'2');
    half_minutes_are(&rt, second.arrival(), Some(1280));
    half_minutes_are(&rt, second.departure(), Some(1284));
    half_minutes_are(&rt, second.public_arrival(), Some(1282));
    same(&rt, second.public_departure(), None);
    same(&rt, second.platform(), b"4  ");
    same(&rt, second.track(), b"   ");
}

#[test]
fn times_of_calls_as_numbers(rt: HostRuntime) {
    let line = line(&rt, LI_0000);
    let at = call_of(&rt, &line);
    same(&rt, at.arrival_number(), 1);
    same(&rt, at.departure_number(), 1);
    same(&rt, at.pass_number() < 2880, false);
    let line = record(&rt, b"LICOLWELL1          2359H", b' ');
    let passed = call_of(&rt, &line);
    same(&rt, passed.arrival_number() < 2880, false);
    same(&rt, passed.departure_number() < 2880, false);
    same(&rt, passed.pass_number(), 2879);
}

#[test]
fn a_change_en_route(rt: HostRuntime) {
    let line = line(&rt, CR_5E51);
    same(&rt, change_of(&rt, &line).identity(), b"5E51");
    let line = record(&rt, b"CR        ", b' ');
    same(&rt, change_of(&rt, &line).identity(), b"    ");
}

const OF_TIMING_POINTS: &[BadField] = &[
    (b"TI SHFELD         A", b' ', Some(3)),
    (
        b"TA SHFELD         A                                                      SHFLDN",
        b' ',
        Some(3),
    ),
    (
        b"TAASHFELD         A                                                      SHFLDN",
        b' ',
        Some(73),
    ),
    (
        b"TAASHFELD         A                                                           N",
        b' ',
        Some(73),
    ),
    (
        b"TIASHFELD         A                                                      SHFLDN",
        b' ',
        None,
    ),
    (b"TD SHFELD", b' ', Some(3)),
    (b"TDASHFELD", b' ', None),
];

#[test]
fn leftmost_bad_fields_of_timing_points(rt: HostRuntime) {
    bad_fields_are(&rt, OF_TIMING_POINTS);
}

const OF_ASSOCIATIONS: &[BadField] = &[
    (
        b"AAXC30001C300022302299999981000002VVS OLWELL2 TP",
        b'X',
        Some(3),
    ),
    (
        b"AANC30001C300022302299999981000002VVS OLWELL2 TP",
        b'X',
        Some(16),
    ),
    (
        b"AANC30001C300022406109999981000002VVS OLWELL2 TP",
        b'X',
        Some(22),
    ),
    (
        b"AANC30001C300022406102406101000002VVS OLWELL2 TP",
        b'X',
        Some(28),
    ),
    (
        b"AANC30001C300022406102406101000000VVS OLWELL2 TP",
        b'X',
        Some(38),
    ),
    (
        b"AANC30001C300022406102406101000000VVSCOLWELL2 TP",
        b'X',
        Some(80),
    ),
    (
        b"AANC30001C300022406102406101000000VVSCOLWELL2 TP",
        b'N',
        None,
    ),
    (
        b"AANC30001C300022406109999991000000VVSCOLWELL2 TP",
        b'P',
        None,
    ),
    (
        b"AADC30001C300022302292406101000000VVS OLWELL2 TP",
        b'X',
        Some(16),
    ),
    (
        b"AADC30001C30002240610             VVS OLWELL2 TP",
        b'X',
        Some(38),
    ),
    (
        b"AADC30001C30002240610             VVSCOLWELL2 TP",
        b'X',
        Some(80),
    ),
    (
        b"AADC30001C300022406109999981000002VVSCOLWELL2 TP",
        b'O',
        None,
    ),
    (
        b"AARC30001C300022406109999981000000VVSCOLWELL2 TP",
        b'X',
        Some(22),
    ),
];

#[test]
fn leftmost_bad_fields_of_associations(rt: HostRuntime) {
    bad_fields_are(&rt, OF_ASSOCIATIONS);
}

const OF_CALLS: &[BadField] = &[
    (b"LI OLWELL 2400 1060 1010h240010 23", b' ', Some(3)),
    (b"LICOLWELL 2400 1060 1010h240010 23", b' ', Some(11)),
    (b"LICOLWELL 1010 1060 1010h240010 23", b' ', Some(16)),
    (b"LICOLWELL 1010 1012 1010h240010 23", b' ', Some(21)),
    (b"LICOLWELL 1010 1012      240010 23", b' ', Some(26)),
    (b"LICOLWELL 1010 1012      101010 23", b' ', Some(30)),
    (b"LICOLWELL 1010 1012      101010123", b' ', None),
    (b"LICOLWELL                        3", b' ', None),
    (b"LICOLWELL     H1012      101010123", b' ', Some(11)),
    (b"LICOLWELL 1010 1012       01010123", b' ', Some(26)),
];

#[test]
fn leftmost_bad_fields_of_calls(rt: HostRuntime) {
    bad_fields_are(&rt, OF_CALLS);
}

const OF_OTHER_RECORDS: &[BadField] = &[
    (
        b"HDTPS.UDFROC1.PD2406090906242100DFROC1ADFROC1ZXA",
        b' ',
        Some(47),
    ),
    (
        b"HDTPS.UDFROC1.PD2406090906242460DFROC1ADFROC1ZXA",
        b' ',
        Some(29),
    ),
    (
        b"HDTPS.UDFROC1.PD2406093106242460DFROC1ADFROC1ZXA",
        b' ',
        Some(23),
    ),
    (b"BSNC100012302292406141111100 POO1A10", b'P', Some(10)),
    (b"BSXC100012302292406141111100 POO1A10", b'P', Some(3)),
    (b"BSNC10001240610      1111100 POO1A10", b'P', Some(16)),
    (b"BSNC100012406109999991111120 POO1A10", b'P', Some(22)),
    (b"BSNC100012406109999991111100 POO1A10", b'X', Some(80)),
    (b"BSNC100012406109999991111100 POO1A10", b'O', None),
    (b"LO ASHFEL 2400 09001  SL", b' ', Some(3)),
    (b"LOASHFELD 2400 09001  SL", b' ', Some(11)),
    (b"LOASHFELD      09001  SL", b' ', Some(11)),
    (b"LOASHFELD 0900 9   1  SL", b' ', Some(16)),
    (b"LTBRAYTON 0930H24002  FL", b' ', Some(16)),
];

#[test]
fn leftmost_bad_fields(rt: HostRuntime) {
    bad_fields_are(&rt, OF_OTHER_RECORDS);
}

#[test]
fn a_fault_in_words(rt: HostRuntime) {
    prints(&rt, rt.alloc(), FieldFault(47), "Field 47");
}
