use super::compare::same;
use cif_line::{Kind, Line, kind};
use std::process::Abort;

fn kind_is(rt: &impl Abort, identity: &[u8; 2], wanted: Option<Kind>) {
    let mut bytes = [b' '; 80];
    bytes[0] = identity[0];
    bytes[1] = identity[1];
    let line = Line::new(&bytes).expect(rt, "a line");
    same(rt, kind(&line), wanted);
}

#[test]
fn identities(rt: HostRuntime) {
    kind_is(&rt, b"HD", Some(Kind::Header));
    kind_is(&rt, b"TI", Some(Kind::TiplocInsert));
    kind_is(&rt, b"TA", Some(Kind::TiplocAmend));
    kind_is(&rt, b"TD", Some(Kind::TiplocDelete));
    kind_is(&rt, b"AA", Some(Kind::Association));
    kind_is(&rt, b"BS", Some(Kind::BasicSchedule));
    kind_is(&rt, b"BX", Some(Kind::ExtraDetails));
    kind_is(&rt, b"LO", Some(Kind::OriginLocation));
    kind_is(&rt, b"LI", Some(Kind::IntermediateLocation));
    kind_is(&rt, b"LT", Some(Kind::TerminatingLocation));
    kind_is(&rt, b"CR", Some(Kind::ChangeEnRoute));
    kind_is(&rt, b"ZZ", Some(Kind::Trailer));
    kind_is(&rt, b"LN", None);
    kind_is(&rt, b"hd", None);
}
