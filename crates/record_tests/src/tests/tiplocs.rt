use super::compare::same;
use cif_line::Tiploc;
use std::process::Abort;

fn names(rt: &impl Abort, text: &str, wanted: &[u8; 7]) {
    let tiploc = Tiploc::from_text(text).expect(rt, "a TIPLOC");
    same(rt, tiploc.bytes(), wanted);
    same(rt, Tiploc::from_field(wanted), Some(tiploc));
}

#[test]
fn texts(rt: HostRuntime) {
    names(&rt, "ASHFELD", b"ASHFELD");
    names(&rt, "ELM", b"ELM    ");
    names(&rt, "ashfeld", b"ashfeld");
    names(&rt, "A", b"A      ");
}

fn names_nothing(rt: &impl Abort, text: &str) {
    same(rt, Tiploc::from_text(text), None);
}

#[test]
fn texts_of_no_tiploc(rt: HostRuntime) {
    names_nothing(&rt, "");
    names_nothing(&rt, " ");
    names_nothing(&rt, "ASHFIELD");
    names_nothing(&rt, "ASH ELD");
    names_nothing(&rt, " ELM");
    names_nothing(&rt, "ELM ");
    names_nothing(&rt, "ÉLM");
    names_nothing(&rt, "EL\tM");
}

#[test]
fn fields(rt: HostRuntime) {
    let tiploc = Tiploc::from_field(b"ASH ELD").expect(&rt, "a TIPLOC");
    same(&rt, tiploc.bytes(), b"ASH ELD");
    same(&rt, Tiploc::from_field(b" ASHFEL"), None);
}
