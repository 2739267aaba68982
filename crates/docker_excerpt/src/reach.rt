//! Whether an event of a schedule may be on the day of a docker.
ghost use Rattle.std.specs.Prelude.{◌≡◌, ◌↔◌, ◌-◌, ◌&&◌, ◌||◌, false, IsNone, IsTrue, IfSome};
ghost use Rattle.docker_model.specs.records.Record.{HasKind, basic_schedule};
ghost use Rattle.docker_model.specs.records.Field.{HasGoodFields, is_deletion};
ghost use Rattle.docker_model.specs.file.Journey.{calls_at};
ghost use Rattle.docker_model.specs.file.File.{first_record};
ghost use Rattle.docker_model.specs.docker.Choice.{schedule_runs};
ghost use Rattle.docker_laws.specs.NearDay.{may_reach};
ghost use Rattle.docker_excerpt.specs.Midnights.{IsPutSchedule};

use crate::midnights::passes_midnight;
use crate::start_days::runs_on;
use cif_file::calls_at;
use cif_line::{Basic, Day, Kind, Line, Tiploc, basic, kind};

/// Whether a schedule with these lines calls at the place, and an event of it may be on the day.
/// The result has no meaning for a deletion.
pub(crate) fn may_call_on(place: &Tiploc, day: Day, lines: &[Line]) -> bool
    ensures { IsPutSchedule lines.now
        → result ≡ (calls_at place.now lines.now && may_reach day lines.now) }
{
    if !calls_at(place, lines) {
        return false;
    }
    may_reach(day, lines)
}

/// Whether an event of a schedule with these lines may be on the day. The result has no meaning for
/// a deletion.
pub(crate) fn may_reach(day: Day, lines: &[Line]) -> bool
    ensures { IsPutSchedule lines.now → result ≡ may_reach day lines.now }
{
    let Some(view) = basic_of(lines) else {
        return true;
    };
    let day = day.number();
    if runs_on(&view, day) {
        return true;
    }
    if !runs_before(&view, day) {
        return false;
    }
    passes_midnight(lines)
}

/// Whether a basic schedule runs on one of the two days before the day. The result has no meaning
/// for a deletion.
fn runs_before(basic: &Basic<'_>, day: u16) -> bool
    ensures { is_deletion basic.now ≡ false → result
        ≡ (schedule_runs basic.now (day - 1) || schedule_runs basic.now (day - 2)) }
{
    if runs_on(basic, day.saturating_sub(1)) {
        return true;
    }
    runs_on(basic, day.saturating_sub(2))
}

/// The first line as a basic schedule. Returns `None` if it isn't one, or has a bad field.
fn basic_of(lines: &[Line]) -> Option<Basic<'_>>
    ensures none { IsNone result → HasKind basic_schedule (first_record lines.now)
        → ¬ HasGoodFields (first_record lines.now) }
    ensures some { IfSome result (λ view. view ≡ first_record lines.now) }
{
    let Some(first) = lines.first() else {
        return None;
    };
    if !is_basic(first) {
        return None;
    }
    match basic(first) {
        Ok(view) => Some(view),
        Err(_) => None,
    }
}

/// Whether a line is a basic schedule.
fn is_basic(line: &Line) -> bool
    ensures { IsTrue result ↔ HasKind basic_schedule line.now }
{
    matches!(kind(line), Some(Kind::BasicSchedule))
}
