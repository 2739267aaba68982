use super::compare::{prints, same};
use cif_line::{Day, Days, Until};
use std::process::Abort;

fn number_is(rt: &impl Abort, day: Option<Day>, wanted: Option<u16>) {
    let number = match day {
        Some(day) => Some(day.number()),
        None => None,
    };
    same(rt, number, wanted);
}

fn yymmdd_is(rt: &impl Abort, field: &[u8; 6], wanted: Option<u16>) {
    number_is(rt, Day::from_yymmdd(field), wanted);
}

#[test]
fn fields_with_the_year_first(rt: HostRuntime) {
    yymmdd_is(&rt, b"591231", Some(36524));
    yymmdd_is(&rt, b"600101", Some(0));
    yymmdd_is(&rt, b"000229", Some(14669));
    yymmdd_is(&rt, b"230229", None);
    yymmdd_is(&rt, b"240605", Some(23532));
    yymmdd_is(&rt, b"24061 ", None);
    yymmdd_is(&rt, b"999999", None);
}

#[test]
fn fields_with_the_day_first(rt: HostRuntime) {
    number_is(&rt, Day::from_ddmmyy(b"090624"), Some(23536));
    number_is(&rt, Day::from_ddmmyy(b"310459"), None);
}

fn iso_is(rt: &impl Abort, text: &str, wanted: Option<u16>) {
    number_is(rt, Day::from_iso(text), wanted);
}

#[test]
fn iso_texts(rt: HostRuntime) {
    iso_is(&rt, "2024-06-10", Some(23537));
    iso_is(&rt, "2024-06-05", Some(23532));
    iso_is(&rt, "1960-01-01", Some(0));
    iso_is(&rt, "2059-12-31", Some(36524));
    iso_is(&rt, "2024-02-30", None);
    iso_is(&rt, "2024-6-10", None);
    iso_is(&rt, "1959-12-31", None);
    iso_is(&rt, "2060-01-01", None);
    iso_is(&rt, "+024-06-10", None);
    iso_is(&rt, "", None);
    iso_is(&rt, "２024-06-", None);
}

fn text_is(rt: &impl Abort, day: Day, wanted: &[u8]) {
    same(rt, day.iso().as_slice(), wanted);
}

fn moved_is(rt: &impl Abort, day: Day, days: i32, wanted: Option<Day>) {
    same(rt, day.plus(days), wanted);
}

#[test]
fn days_by_number(rt: HostRuntime) {
    let first = Day::from_number(0).expect(&rt, "the first day");
    let last = Day::from_number(36524).expect(&rt, "the last day");
    same(&rt, Day::from_number(36525), None);
    same(&rt, first < last, true);
    same(&rt, first.weekday(), 4);
    text_is(&rt, first, b"1960-01-01");
    text_is(&rt, last, b"2059-12-31");
    moved_is(&rt, first, -1, None);
    moved_is(&rt, last, 1, None);
    moved_is(&rt, first, 36524, Some(last));
    moved_is(&rt, last, -36524, Some(first));
    moved_is(&rt, first, i32::MAX, None);
    let monday = Day::from_iso("2024-06-10").expect(&rt, "a Monday");
    same(&rt, monday.weekday(), 0);
    prints(&rt, rt.alloc(), monday, "2024-06-10");
}

#[test]
fn end_dates(rt: HostRuntime) {
    let never = Until::from_field(b"999999").expect(&rt, "no end");
    let last = Until::from_field(b"591231").expect(&rt, "the last day");
    same(&rt, never.number(), 65535);
    same(&rt, last.number(), 36524);
    same(&rt, last < never, true);
    same(&rt, Until::from_field(b"230229"), None);
    same(&rt, Until::from_field(b"999998"), None);
}

#[test]
fn weekdays(rt: HostRuntime) {
    let days = Days::from_field(b"1000001").expect(&rt, "two weekdays");
    same(&rt, days.on(0), true);
    same(&rt, days.on(1), false);
    same(&rt, days.on(6), true);
    same(&rt, Days::from_field(b"1000002"), None);
}
