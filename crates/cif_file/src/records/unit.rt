//! Records that come after the header or after a whole unit. Each is read without being copied.
ghost use Rattle.std.specs.Prelude.{◌≡◌, true, is_some, Some, IsErr, IfOk, IfErr};
ghost use Rattle.docker_model.specs.records.Record.{HasKind, IsRecord, kind_of};
ghost use Rattle.docker_model.specs.records.Field.{HasGoodFields};
ghost use Rattle.cif_laws.specs.FileStage.{unit_by_kind, between_units};
ghost use Rattle.cif_laws.specs.RecordCause.{place_cause};
ghost use Rattle.cif_line.specs.Kind.{meaning};
ghost use Rattle.cif_change.specs.Cause.{cause_meant};
ghost use Rattle.cif_file.specs.UnitRead.{IsUnitOf};

use crate::keeper::single::Single;
use cif_change::FileCause;
use cif_line::{Basic, Kind, Line, assoc, basic, tiploc};

/// A record that begins a unit, or the trailer. Its checked fields are good.
#[derive(Debug, Drop)]
pub(crate) enum Unit<'a> {
    /// A record that is a unit by itself.
    Single(Single<'a>),
    /// The basic schedule, with which a schedule begins.
    Schedule(Basic<'a>),
    /// The trailer, with which the file ends.
    Trailer,
}

/// Reads a record as the beginning of a unit, or as the trailer. Returns the cause `Place` if no
/// unit begins with a record of this kind and it isn't the trailer. Otherwise, if a field is bad,
/// returns the cause `Field` with the column of the leftmost bad field.
pub(crate) fn unit_of(kind: Kind, line: &Line) -> Result<Unit<'_>, FileCause>
    requires record { IsRecord line.now }
    requires kind { HasKind (meaning kind) line.now }
    ensures ok { IfOk result (IsUnitOf line.now) }
    ensures err { IfErr result (λ cause.
        cause_meant cause ≡ Some (place_cause between_units line.now)) }
    ensures bad { IsErr result →
        ¬ ((is_some (unit_by_kind (kind_of line.now) line.now) ≡ true) × HasGoodFields line.now) }
{
    match kind {
        Kind::TiplocInsert => Ok(Unit::Single(Single::TiplocInsert(tiploc(line)?))),
        Kind::TiplocAmend => Ok(Unit::Single(Single::TiplocAmend(tiploc(line)?))),
        Kind::TiplocDelete => Ok(Unit::Single(Single::TiplocDelete(tiploc(line)?))),
        Kind::Association => Ok(Unit::Single(Single::Association(assoc(line)?))),
        Kind::BasicSchedule => Ok(Unit::Schedule(basic(line)?)),
        Kind::Trailer => Ok(Unit::Trailer),
        _ => Err(FileCause::Place),
    }
}
