//! The record identity, in columns 1 and 2 of a record.
ghost use Rattle.std.specs.Prelude.{◌≡◌, ◌↔◌, IsTrue, option_map};
ghost use Rattle.docker_model.specs.records.Record.{tiploc_amend, HasKind, kind_of};
ghost use Rattle.cif_line.specs.Kind.{meaning};

use crate::kind_of_record::Kind;
use crate::line::Line;

/// The kind of a record, by its identity in columns 1 and 2. Returns `None` if no kind has that
/// identity, for example `LN`.
///
/// Most records of an extract are intermediate locations, so this kind is looked up first, by a
/// test that the processor predicts. A jump into a table of kinds takes as long as several such
/// tests.
pub fn kind(line: &Line) -> Option<Kind>
    ensures { option_map meaning result ≡ kind_of line.now }
{
    match line.field(1) {
        b"LI" => Some(Kind::IntermediateLocation),
        _ => any_kind(line),
    }
}

/// The kind of any record, or `None` if no kind has its identity.
#[cold]
#[inline(never)]
fn any_kind(line: &Line) -> Option<Kind>
    ensures { option_map meaning result ≡ kind_of line.now }
{
    match line.field(1) {
        b"LI" => Some(Kind::IntermediateLocation),
        b"LO" => Some(Kind::OriginLocation),
        b"LT" => Some(Kind::TerminatingLocation),
        b"BS" => Some(Kind::BasicSchedule),
        b"BX" => Some(Kind::ExtraDetails),
        b"CR" => Some(Kind::ChangeEnRoute),
        b"AA" => Some(Kind::Association),
        b"TI" => Some(Kind::TiplocInsert),
        b"TA" => Some(Kind::TiplocAmend),
        b"TD" => Some(Kind::TiplocDelete),
        b"HD" => Some(Kind::Header),
        b"ZZ" => Some(Kind::Trailer),
        _ => None,
    }
}

/// Whether the record is a TIPLOC amendment (TA).
pub(crate) fn is_amendment(line: &Line) -> bool
    ensures { IsTrue result ↔ HasKind tiploc_amend line.now }
{
    matches!(kind(line), Some(Kind::TiplocAmend))
}
