//! Tests whether a schedule may count in a docker of a given day: whether it runs on a start day
//! near this day.
ghost use Rattle.std.specs.Prelude.{◌≡◌, ◌&&◌, nat_le, false};
ghost use Rattle.docker_model.specs.records.Record.{HasKind, basic_schedule};
ghost use Rattle.docker_model.specs.records.Field.{HasGoodFields, is_deletion};
ghost use Rattle.docker_model.specs.records.Date.{runs_on_weekday, weekday_of};
ghost use Rattle.docker_model.specs.docker.Choice.{schedule_runs};
ghost use Rattle.docker_laws.specs.NearDay.{near_starts, runs_near};

use cif_line::{Basic, Day, Line};

/// Whether a basic schedule runs on a start day near `day`: from three days before `day` to one day
/// after `day`.
#[tactic(auto, using(crate::proofs::ScheduleFields::schedule_fields))]
pub(crate) fn runs_near(line: &Line, day: Day) -> bool
    requires kind { HasKind basic_schedule line.now }
    requires good { HasGoodFields line.now }
    requires no_deletion { is_deletion line.now ≡ false }
    ensures { result ≡ runs_near day line.now }
{
    let first = line.day(10).number();
    let last = match line.end_unless_deleted(16) {
        Some(last) => last.number(),
        None => unreachable!(),
    };
    let flags: &[u8; 7] = line.field(22);
    let starts = near_starts(day);
    starts
        .iter()
        .any(|start| runs_within(first, last, flags, *start))
}

/// The start days near a day, as day numbers: the day after it, the day itself, and the three days
/// before it.
fn near_starts(day: Day) -> [u16; 5]
    ensures { result ≡ near_starts day }
{
    let day = day.number();
    [
        day + 1,
        day,
        day.saturating_sub(1),
        day.saturating_sub(2),
        day.saturating_sub(3),
    ]
}

/// Whether a schedule with these first and last days and these flags runs on a start day. It does
/// if the start day is from the first day to the last day, and the flag of its weekday is `1`.
fn runs_within(first: u16, last: u16, flags: &[u8; 7], start: u16) -> bool
    ensures { result ≡ (nat_le first start && nat_le start last
        && runs_on_weekday flags.now (weekday_of start)) }
{
    (first <= start) && (start <= last) && flags[((start as u32 + 4) % 7) as usize] == b'1'
}

/// Whether a basic schedule runs on a start day, given as a day number. The result has no meaning
/// for a deletion, whose days aren't checked.
pub(crate) fn runs_on(basic: &Basic<'_>, start: u16) -> bool
    ensures { is_deletion basic.now ≡ false → result ≡ schedule_runs basic.now start }
{
    let line = basic.line();
    if line.is_deletion() {
        return false;
    }
    line_runs_on(line, start)
}

/// Whether the basic schedule in this line runs on a start day, given as a day number.
#[tactic(auto, using(crate::proofs::ScheduleFields::schedule_fields))]
fn line_runs_on(line: &Line, start: u16) -> bool
    requires kind { HasKind basic_schedule line.now }
    requires good { HasGoodFields line.now }
    requires no_deletion { is_deletion line.now ≡ false }
    ensures { result ≡ schedule_runs line.now start }
{
    let first = line.day(10).number();
    let last = match line.end_unless_deleted(16) {
        Some(last) => last.number(),
        None => unreachable!(),
    };
    runs_within(first, last, line.field(22), start)
}

/// Whether a basic schedule runs on a start day near a day. The result has no meaning for a
/// deletion, whose days aren't checked.
pub(crate) fn runs_near_unless_deleted(basic: &Basic<'_>, day: Day) -> bool
    ensures { is_deletion basic.now ≡ false → result ≡ runs_near day basic.now }
{
    let line = basic.line();
    if line.is_deletion() {
        return false;
    }
    runs_near(line, day)
}
