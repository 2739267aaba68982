use super::compare::same;
use cif_line::Time;
use std::process::Abort;

fn half_minutes_are(rt: &impl Abort, field: &[u8; 5], wanted: Option<u16>) {
    let read = match Time::from_field(field) {
        Some(time) => Some(time.half_minutes()),
        None => None,
    };
    same(rt, read, wanted);
}

#[test]
fn fields(rt: HostRuntime) {
    half_minutes_are(&rt, b"0000 ", Some(0));
    half_minutes_are(&rt, b"0000H", Some(1));
    half_minutes_are(&rt, b"0900 ", Some(1080));
    half_minutes_are(&rt, b"2359H", Some(2879));
    half_minutes_are(&rt, b"2400 ", None);
    half_minutes_are(&rt, b"0960 ", None);
    half_minutes_are(&rt, b"0900h", None);
    half_minutes_are(&rt, b" 900 ", None);
    half_minutes_are(&rt, b"     ", None);
}

fn goes_round(rt: &impl Abort, text: &[u8; 5]) {
    let time = Time::from_field(text).expect(rt, "a time");
    same(rt, time.text(), *text);
}

#[test]
fn texts(rt: HostRuntime) {
    goes_round(&rt, b"0000 ");
    goes_round(&rt, b"0000H");
    goes_round(&rt, b"0907 ");
    goes_round(&rt, b"2359H");
}
