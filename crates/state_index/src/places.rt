//! Location records and their TIPLOCs.
ghost use Rattle.std.specs.Prelude.{◌≡◌};
ghost use Rattle.docker_model.specs.records.Record.{kind_of, columns, is_location};

use cif_line::{Kind, Line, kind};

/// Whether a line is a location record: an origin (LO), an intermediate location (LI) or a terminus
/// (LT).
pub(crate) fn is_location(line: &Line) -> bool
    ensures { result ≡ is_location (kind_of line.now) }
{
    matches!(
        kind(line),
        Some(Kind::OriginLocation | Kind::IntermediateLocation | Kind::TerminatingLocation)
    )
}

/// The TIPLOC in columns 3 to 9 of a location record.
pub(crate) fn tiploc_in(line: &Line) -> [u8; 7]
    ensures { result ≡ columns 3 9 line.now }
{
    match line.bytes()[2..9].first_chunk() {
        Some(field) => *field,
        None => unreachable!(),
    }
}
