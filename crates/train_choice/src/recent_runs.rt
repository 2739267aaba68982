//! On which of three days a schedule runs. The three days are a given day and the two days before
//! it. A train that starts on one of these three days may still be under way on the given day.
ghost use Rattle.std.specs.Prelude.{◌≡◌, ◌≤◌, ◌||◌, ◌-◌, false};
ghost use Rattle.std.specs.Option.{SomeIff};
ghost use Rattle.docker_model.specs.records.Record.{HasKind, basic_schedule, columns};
ghost use Rattle.docker_model.specs.records.Field.{HasGoodFields, is_deletion};
ghost use Rattle.train_choice.specs.RecentRuns.{AreRecentRuns, begun_back, lasts_back, runs_back_by_fields, marked_back};

use cif_line::{Day, Days, Line};

/// On which of three days a schedule runs. The three days are a given day and the two days before
/// it.
#[derive(Clone, Copy, Debug)]
pub struct RecentRuns {
    /// Whether the schedule runs on the given day.
    pub today: bool,
    /// Whether the schedule runs on the day before the given day.
    pub day_before: bool,
    /// Whether the schedule runs two days before the given day.
    pub two_before: bool,
}

impl RecentRuns {
    /// The value for a schedule that runs neither on the given day nor on one of the two days
    /// before it.
    pub(crate) fn never() -> RecentRuns
        ensures { AreRecentRuns (λ back. false) result }
    {
        RecentRuns {
            today: false,
            day_before: false,
            two_before: false,
        }
    }

    /// Whether the schedule runs on the given day or on one of the two days before it.
    pub fn is_some(&self) -> bool
        ensures { result ≡ (self.now.today || self.now.day_before || self.now.two_before) }
    {
        self.today | self.day_before | self.two_before
    }
}

/// The day `back` days before `day`. Returns `None` if there is no such day, because days are
/// numbered from 0.
pub fn day_back(day: Day, back: u16) -> Option<Day>
    ensures { SomeIff result (back ≤ day) (day - back) }
{
    let number = day.number().checked_sub(back)?;
    Day::from_number(number)
}

/// On which of three days a schedule that begins on `first` runs. The three days are `day` and the
/// two days before it. The days-run field and the last date are read from `line`, which is the
/// basic schedule. The last date is read only if the result depends on it.
#[tactic(auto, using(crate::proofs::RunFields::schedule_fields))]
pub(crate) fn recent_runs_of(line: &Line, first: Day, day: Day) -> RecentRuns
    requires kind { HasKind basic_schedule line.now }
    requires good { HasGoodFields line.now }
    requires no_deletion { is_deletion line.now ≡ false }
    ensures { AreRecentRuns (runs_back_by_fields line.now first day) result }
{
    let days = match line.days_unless_deleted(22) {
        Some(days) => days,
        None => unreachable!(),
    };
    let begun = RecentRuns {
        today: begun_back(&days, first, day, 0),
        day_before: begun_back(&days, first, day, 1),
        two_before: begun_back(&days, first, day, 2),
    };
    if !begun.is_some() {
        return begun;
    }
    match line.end_unless_deleted(16) {
        Some(last) => RecentRuns {
            today: begun.today & lasts_back(last.number(), day, 0),
            day_before: begun.day_before & lasts_back(last.number(), day, 1),
            two_before: begun.two_before & lasts_back(last.number(), day, 2),
        },
        None => unreachable!(),
    }
}

/// Whether the day `back` days before `day` exists, isn't before the first date, and falls on a
/// weekday that is among the days run.
fn begun_back(days: &Days, first: Day, day: Day, back: u16) -> bool
    ensures { result ≡ begun_back days.now first day back }
{
    match day_back(day, back) {
        Some(start) => (first.number() <= start.number()) & days.on(start.weekday()),
        None => false,
    }
}

/// Whether the day `back` days before `day` isn't after the last date.
fn lasts_back(last: u16, day: Day, back: u16) -> bool
    ensures { result ≡ lasts_back last day back }
{
    day.number().saturating_sub(back) <= last
}

/// Whether the weekday of at least one of three days is among the days run of a basic schedule. The
/// three days are `day` and the two days before it.
pub(crate) fn runs_on_recent_weekday(line: &Line, day: Day) -> bool
    ensures { result ≡ (marked_back (columns 22 28 line.now) day 0
        || marked_back (columns 22 28 line.now) day 1 || marked_back (columns 22 28 line.now) day 2) }
{
    runs_on_weekday_back(line, day, 0)
        | runs_on_weekday_back(line, day, 1)
        | runs_on_weekday_back(line, day, 2)
}

/// Whether the weekday of the day `back` days before `day` is among the days run of a basic
/// schedule. Returns false if there is no such day.
fn runs_on_weekday_back(line: &Line, day: Day, back: u16) -> bool
    ensures { result ≡ marked_back (columns 22 28 line.now) day back }
{
    match day_back(day, back) {
        Some(start) => {
            let flags: &[u8; 7] = line.field(22);
            flags[start.weekday() as usize] == b'1'
        }
        None => false,
    }
}
