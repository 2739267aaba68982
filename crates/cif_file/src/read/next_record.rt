//! Converts the bytes of a line to the next record of a file.
ghost use Rattle.std.specs.Prelude.{◌≡◌, ◌<◌, ◌↔◌, IsErr, IfOk, IfErr, IsTrue, OnOk, Some};
ghost use Rattle.docker_model.specs.records.Record.{HasKind, IsRecord, trailer};
ghost use Rattle.cif_laws.specs.FileStage.{Place};
ghost use Rattle.cif_laws.specs.RecordCause.{length_cause};
ghost use Rattle.cif_change.specs.Cause.{cause_meant};
ghost use Rattle.cif_file.specs.RecordsRead.{TakesNext};
ghost use Rattle.cif_file.specs.ParserRead.{RefusesWithin};

use crate::keeper::ChangeKeeper;
use crate::records::front::Front;
use cif_change::FileCause;
use cif_line::{Kind, Line, LineFault, kind};

/// Makes a line from these bytes. The cause is `Length` if there aren't 80 bytes, and `Byte` if one
/// of them isn't printable.
pub(crate) fn line_of(bytes: &[u8]) -> Result<Line, FileCause>
    ensures ok { IfOk result (λ line. (line ≡ bytes.now) × IsRecord bytes.now) }
    ensures err { (place : Place) →
        IfErr result (λ cause. cause_meant cause ≡ Some (length_cause place bytes.now)) }
    ensures bad { IsErr result → ¬ IsRecord bytes.now }
{
    match Line::new(bytes) {
        Ok(line) => Ok(line),
        Err(LineFault::Length) => Err(FileCause::Length),
        Err(LineFault::Byte(column)) => Err(FileCause::Byte(column)),
    }
}

/// Whether this record, given without its line end, is the trailer of a file.
pub(crate) fn is_trailer(bytes: &[u8]) -> bool
    ensures { IsRecord bytes.now → IsTrue result ↔ HasKind trailer bytes.now }
{
    let Some(line) = Line::of(bytes) else {
        return false;
    };
    match kind(&line) {
        Some(Kind::Trailer) => true,
        _ => false,
    }
}

/// Takes the next line, given its number, which must be within the limit on records.
pub(crate) fn take_within<K: ChangeKeeper>(
    front: &mut Front<K>,
    number: u32,
    line: &Line,
) -> Result<(), FileCause>
    ensures read { OnOk result (TakesNext K.keeps front.old number line.now front.new) }
    ensures err { IfErr result (RefusesWithin K.keeps K.wants front.old line.now) }
{
    if front.is_ended() {
        return Err(FileCause::After);
    }
    front.take(number, line)
}
