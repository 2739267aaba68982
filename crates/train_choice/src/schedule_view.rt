//! A live schedule.
ghost use Rattle.std.specs.Prelude.{◌≡◌, ◌≤◌, ◌<◌, ◌^◌, ℕ, All, false, length, nat_lt};
ghost use Rattle.docker_model.specs.records.Record.{basic_schedule, HasKind, columns};
ghost use Rattle.docker_model.specs.records.Field.{HasGoodFields, is_deletion};
ghost use Rattle.docker_model.specs.file.File.{first_record};
ghost use Rattle.docker_model.specs.state.State.{IsScheduleOf};
ghost use Rattle.docker_model.specs.docker.Choice.{Train, schedule_runs};
ghost use Rattle.docker_model.specs.docker.Event.{falls_to};
ghost use Rattle.cif_change.specs.Meaning.{schedule_key_meant};
ghost use Rattle.train_choice.specs.RecentRuns.{AreRecentRuns, may_run_recently, runs_back};
ghost use Rattle.train_choice.specs.Occurrences.{occurrences};
ghost use Rattle.train_choice.specs.UpTo.{occurrences_to, up_to_last};

use crate::days_run::schedule_runs_on;
use crate::events::Events;
use crate::ranked::Ranked;
use crate::recent_runs::{RecentRuns, recent_runs_of, runs_on_recent_weekday};
use crate::up_to::up_to_last;
use cif_change::{Lines, ScheduleKey};
use cif_line::{Day, Line, Stp, Tiploc};
use std::marker::Model;

/// A live schedule: its key and its lines.
#[derive(Debug, Drop)]
pub struct ScheduleView<'a> {
    key: &'a ScheduleKey,
    lines: &'a Lines,
}

impl<'a> Model for ScheduleView<'a> {
    ghost Value = { Train };

    ghost view = { λ view. record {
      key = schedule_key_meant view.key.now;
      lines = view.lines.now;
    } };

    ghost invariant = { λ view. IsScheduleOf (schedule_key_meant view.key.now) view.lines.now };
}

#[tactic(auto, using(crate::proofs::KeptLines::kept_lines))]
impl<'a> ScheduleView<'a> {
    /// The schedule with this key and these lines. The lines have to fit the key.
    pub(crate) fn of(key: &'a ScheduleKey, lines: &'a Lines) -> ScheduleView<'a>
        requires { IsScheduleOf (schedule_key_meant key.now) lines.now }
        ensures { result ≡ record {
          key = schedule_key_meant key.entry.now;
          lines = lines.entry.now;
        } }
    {
        ScheduleView { key, lines }
    }

    /// Another view of the same schedule.
    pub(crate) fn again(&self) -> ScheduleView<'a>
        ensures { result ≡ self.now }
    {
        ScheduleView::of(self.key, self.lines)
    }

    /// The key: the UID, the runs-from date and the STP indicator.
    pub fn key(&self) -> &'a ScheduleKey
        ensures { schedule_key_meant result.now ≡ self.now.key }
    {
        self.key
    }

    /// The lines. The first is the basic schedule (BS), with the transaction `N`.
    pub fn lines(&self) -> &'a [Line]
        ensures lines { result.now ≡ self.now.lines }
        ensures kept { IsScheduleOf self.now.key self.now.lines }
        ensures good { All HasGoodFields self.now.lines }
        ensures few { length self.now.lines < 2 ^ 32 }
    {
        self.lines.as_slice()
    }

    /// The first line, which is the basic schedule.
    fn first(&self) -> &'a Line
        ensures line { result.now ≡ first_record self.now.lines }
        ensures kind { HasKind basic_schedule result.now }
        ensures good { HasGoodFields result.now }
        ensures no_deletion { is_deletion result.now ≡ false }
    {
        match self.lines.as_slice().first() {
            Some(line) => line,
            None => unreachable!(),
        }
    }

    /// Whether the schedule runs on a day. The call doesn't read the lines if the day is before the
    /// runs-from date in the key.
    pub fn runs_on(&self, day: Day) -> bool
        ensures { result ≡ schedule_runs (first_record self.now.lines) day }
    {
        (self.key.runs_from.number() <= day.number()) && schedule_runs_on(self.first(), day)
    }

    /// On which of three days the schedule runs. The three days are `day` and the two days before
    /// it. The call doesn't read the lines if `day` is before the runs-from date in the key.
    pub fn recent_runs(&self, day: Day) -> RecentRuns
        ensures { AreRecentRuns (runs_back self.now.lines day) result }
    {
        if begins_after(self.key, day) {
            return RecentRuns::never();
        }
        recent_runs_of(self.first(), self.key.runs_from, day)
    }

    /// Whether the schedule may run on a day or on one of the two days before it. That is so if its
    /// runs-from date isn't after the day, and at least one of the three weekdays is among its days
    /// run. The call reads only the key and three flags, so it costs less than `recent_runs`.
    pub fn may_run_recently(&self, day: Day) -> bool
        ensures { result ≡ may_run_recently self.now.key self.now.lines day }
    {
        !begins_after(self.key, day) && runs_on_recent_weekday(self.first(), day)
    }

    /// The train identity in the basic schedule.
    pub fn identity(&self) -> &'a [u8; 4]
        ensures { result.now ≡ columns 33 36 (first_record self.now.lines) }
    {
        self.first().field(33)
    }

    /// The events of the schedule, in order.
    pub fn events(&self) -> Events<'a>
        ensures events { result ≡ occurrences self.now.lines }
        ensures few { (number : ℕ) → falls_to self.now.lines number ≤ 2 }
    {
        Events::of(self.first(), self.identity(), self.lines.as_slice())
    }

    /// The events up to the last line at a place, in order.
    pub fn events_to(&self, place: &Tiploc) -> Events<'a>
        ensures { result ≡ occurrences_to place.now self.now.lines }
    {
        Events::of(self.first(), self.identity(), self.lines_to(place))
    }

    /// The lines of the schedule, up to and including the last line at a place.
    pub(crate) fn lines_to(&self, place: &Tiploc) -> &'a [Line]
        ensures lines { result.now ≡ up_to_last place.now self.now.lines }
        ensures good { All HasGoodFields result.now }
        ensures few { length result.now < 2 ^ 32 }
    {
        up_to_last(self.lines.as_slice(), place)
    }
}

impl<'a> Ranked for ScheduleView<'a> {
    ghost rank = { λ train. (train.key.indicator, train.key.runs_from) };

    fn rank(&self) -> (Stp, Day) {
        (self.key.stp, self.key.runs_from)
    }
}

/// Whether a schedule begins after a day.
fn begins_after(key: &ScheduleKey, day: Day) -> bool
    ensures { result ≡ nat_lt day (schedule_key_meant key.now).runs_from }
{
    day.number() < key.runs_from.number()
}
