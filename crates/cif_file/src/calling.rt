//! Tests whether a schedule calls at a place.
ghost use Rattle.std.specs.Prelude.{◌≡◌, ◌&&◌};
ghost use Rattle.docker_model.specs.file.Journey.{calls_at};
ghost use Rattle.docker_model.specs.records.Record.{kind_of, columns, is_location};
ghost use Rattle.std.specs.Str.{bytes_eq};

use cif_line::{Kind, Line, Tiploc, kind};

/// Whether a schedule with these lines calls at a place, which means that an LO, LI or LT record
/// has the place's TIPLOC.
pub fn calls_at(place: &Tiploc, lines: &[Line]) -> bool
    ensures { result ≡ calls_at place.now lines.now }
{
    lines.iter().any(|line| is_call_line(place, line))
}

/// Whether a line is a location record (LO, LI or LT) with the TIPLOC of a place.
fn is_call_line(place: &Tiploc, line: &Line) -> bool
    ensures { result
        ≡ (is_location (kind_of line.now) && bytes_eq (columns 3 9 line.now) place.now) }
{
    // The TIPLOC is compared first, since few lines have it. The kind is looked up only for lines
    // that have this TIPLOC.
    if line.bytes()[2..9] != place.bytes()[..] {
        return false;
    }
    matches!(
        kind(line),
        Some(Kind::OriginLocation | Kind::IntermediateLocation | Kind::TerminatingLocation)
    )
}
