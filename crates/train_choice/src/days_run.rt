//! The days on which a schedule or an association runs.
ghost use Rattle.std.specs.Prelude.{◌≡◌, ◌⊎◌, ◌<◌, ◌≤◌, true, false};
ghost use Rattle.docker_model.specs.records.Record.{HasKind, association, basic_schedule, columns};
ghost use Rattle.docker_model.specs.records.Field.{HasGoodFields, is_deletion};
ghost use Rattle.docker_model.specs.records.Date.{is_end_date, is_days};
ghost use Rattle.cif_line.specs.FieldRead.{field_at};
ghost use Rattle.docker_model.specs.docker.Choice.{runs, schedule_runs, association_runs};
ghost use Rattle.train_choice.specs.Runs.{runs_until};

use cif_line::{Day, Kind, Line, kind};

/// Whether a basic schedule (BS) or an association (AA) runs on a day. The day must be in the
/// period from the record's first date to its last date, and the weekday of the day must be among
/// the record's days run.
pub fn runs(line: &Line, day: Day) -> bool
    requires kind { HasKind basic_schedule line.now ⊎ HasKind association line.now }
    requires good { HasGoodFields line.now }
    requires no_deletion { is_deletion line.now ≡ false }
    ensures { result ≡ runs line.now day }
{
    match kind(line) {
        Some(Kind::BasicSchedule) => schedule_runs(line, day),
        Some(Kind::Association) => association_runs(line, day),
        _ => unreachable!(),
    }
}

/// Whether a basic schedule runs on a day.
#[tactic(auto, using(crate::proofs::RunFields::schedule_fields))]
fn schedule_runs(line: &Line, day: Day) -> bool
    requires kind { HasKind basic_schedule line.now }
    requires good { HasGoodFields line.now }
    requires no_deletion { is_deletion line.now ≡ false }
    ensures { result ≡ schedule_runs line.now day }
{
    (line.day(10).number() <= day.number()) & schedule_runs_on(line, day)
}

/// Whether a basic schedule runs on a day that isn't before its first date. The first date isn't
/// read.
#[tactic(auto, using(crate::proofs::RunFields::schedule_fields))]
pub(crate) fn schedule_runs_on(line: &Line, day: Day) -> bool
    requires kind { HasKind basic_schedule line.now }
    requires good { HasGoodFields line.now }
    requires no_deletion { is_deletion line.now ≡ false }
    ensures { result ≡ runs_until (columns 16 21 line.now) (columns 22 28 line.now) day }
{
    runs_until(line, 16, 22, day)
}

/// Whether an association runs on a start day of its base train.
#[tactic(auto, using(crate::proofs::RunFields::association_fields))]
pub(crate) fn association_runs(line: &Line, day: Day) -> bool
    requires kind { HasKind association line.now }
    requires good { HasGoodFields line.now }
    requires no_deletion { is_deletion line.now ≡ false }
    ensures { result ≡ association_runs line.now day }
{
    (line.day(16).number() <= day.number()) & runs_until(line, 22, 28, day)
}

/// Whether the day isn't after the line's last date, and its weekday is one of the line's weekdays.
/// `last` is the first column of the last date, and `days` the first column of the weekdays.
fn runs_until(line: &Line, last: usize, days: usize, day: Day) -> bool
    requires last_from { 0 < last }
    requires last_within { last ≤ 75 }
    requires days_from { 0 < days }
    requires days_within { days ≤ 74 }
    requires last_good { is_end_date (field_at last 6 line.now) ≡ true }
    requires days_good { is_days (field_at days 7 line.now) ≡ true }
    requires no_deletion { is_deletion line.now ≡ false }
    ensures { result ≡ runs_until (field_at last 6 line.now) (field_at days 7 line.now) day }
{
    match line.days_unless_deleted(days) {
        Some(days) => {
            if !days.on(day.weekday()) {
                return false;
            }
        }
        None => unreachable!(),
    }
    match line.end_unless_deleted(last) {
        Some(last) => day.number() <= last.number(),
        None => unreachable!(),
    }
}
