//! Chooses the schedule according to which a train runs on a day.
ghost use Rattle.std.specs.Prelude.{◌≡◌, true, List, None, Some};
ghost use Rattle.std.specs.Ordering.{on};
ghost use Rattle.cif_change.specs.Meaning.{key_meant, body_meant};
ghost use Rattle.docker_model.specs.state.State.{IsBodyOf, live_table};
ghost use Rattle.docker_model.specs.file.File.{first_record};
ghost use Rattle.docker_model.specs.docker.Choice.{schedule_choice_cmp, schedule_runs, Train, IsChosenOn};
ghost use Rattle.docker_laws.specs.Best.{with_one_more};
ghost use Rattle.docker_laws.specs.ChoiceWalk.{next_chosen};
ghost use Rattle.docker_model.specs.state.Row.{Row, AreRowsOf};
ghost use Rattle.docker_laws.specs.LiveRows.{is_running, train_in, unless_cancelled};
ghost use Rattle.cif_line.specs.Letter.{stp_letter};
ghost use Rattle.train_choice.specs.Along.{chosen_along, AreGoodRows, IsLiveTrain};
ghost use Rattle.train_choice.specs.Ranked.{is_cancellation};
ghost use Rattle.docker_state.specs.Timetables.{live_in};

use crate::ranked::is_better;
use crate::rows::schedule_of;
use crate::schedule_view::ScheduleView;
use crate::uid_search::UidSearch;
use crate::walks::schedules_of;
use cif_change::{Body, Key};
use cif_line::{Day, Stp, Uid};
use docker_state::{State, Timetable, UidSchedules};

/// The schedule chosen for a UID on a day: among the UID's live schedules that run on the day, the
/// one whose STP indicator is first in the alphabet. If several have this indicator, the one with
/// the latest first date is chosen. The chosen schedule may be a cancellation. Returns `None` if no
/// schedule runs.
pub fn chosen<'a>(state: &'a State, uid: &Uid, day: Day) -> Option<ScheduleView<'a>>
    ensures { IsChosenOn (live_table state.now) uid.now day result }
{
    chosen_in(&Timetable::of(state), uid, day)
}

/// Like `chosen`, but chooses among the schedules that count in a timetable.
fn chosen_in<'a>(timetable: &Timetable<'a>, uid: &Uid, day: Day) -> Option<ScheduleView<'a>>
    ensures { IsChosenOn (live_in timetable.now) uid.now day result }
{
    let from = UidSearch::without_hint(timetable);
    best_of(None, schedules_of(&from, uid), uid, day)
}

/// The train of a UID that starts on a day: the schedule chosen in a timetable, unless the chosen
/// schedule is a cancellation. Returns `None` if the train doesn't run.
pub fn train_on<'a>(timetable: &Timetable<'a>, uid: &Uid, day: Day) -> Option<ScheduleView<'a>>
    ensures { (rows : List Row) → AreRowsOf (live_in timetable.now) rows
        → result ≡ train_in rows uid.now day }
{
    unless_cancelled(chosen_in(timetable, uid, day))
}

/// Returns the schedule that was found, unless it is a cancellation.
fn unless_cancelled(found: Option<ScheduleView<'_>>) -> Option<ScheduleView<'_>>
    ensures { result ≡ unless_cancelled found.entry }
{
    let view = found?;
    if is_cancellation(view.key().stp) {
        None
    } else {
        Some(view)
    }
}

/// Whether the STP indicator is `C`, for a cancellation.
pub fn is_cancellation(stp: Stp) -> bool
    ensures { result ≡ is_cancellation (stp_letter stp) }
{
    stp == Stp::Cancellation
}

/// Like `train_on`, but for the UID of a schedule that is known to run on the day. The walk over
/// the UID's schedules starts with that schedule as the best so far.
pub(crate) fn train_from<'a>(
    from: &UidSearch<'a>,
    train: &ScheduleView<'a>,
    day: Day,
) -> Option<ScheduleView<'a>>
    requires live { IsLiveTrain (live_in from.now) train.now }
    requires runs { schedule_runs (first_record train.now.lines) day ≡ true }
    ensures { (rows : List Row) → AreRowsOf (live_in from.now) rows
        → result ≡ train_in rows train.now.key.uid day }
{
    let uid = &train.key().uid;
    unless_cancelled(best_of(Some(train.again()), schedules_of(from, uid), uid, day))
}

/// Returns the best schedule of a UID on a day among `so_far` and the schedules in these rows.
fn best_of<'a>(
    so_far: Option<ScheduleView<'a>>,
    rows: UidSchedules<'a>,
    uid: &Uid,
    day: Day,
) -> Option<ScheduleView<'a>>
    requires { AreGoodRows rows }
    ensures { result ≡ chosen_along uid.now day so_far.entry rows.entry }
{
    let mut found = so_far;
    for (key, body) in rows {
        found = with_row(found, key, body, uid, day);
    }
    found
}

/// Returns the best schedule among `found` and the schedule in one row.
fn with_row<'a>(
    found: Option<ScheduleView<'a>>,
    key: &'a Key,
    body: &'a Body,
    uid: &Uid,
    day: Day,
) -> Option<ScheduleView<'a>>
    requires { IsBodyOf (key_meant key.now) (body_meant body.now) }
    ensures { result ≡ next_chosen uid.now day found.entry (key_meant key.entry.now)
        (body_meant body.entry.now) }
{
    match schedule_of(key, body) {
        Some(view) => with_one(found, view, uid, day),
        None => found,
    }
}

/// Returns the better of `found` and one more schedule. If the new schedule wouldn't be better than
/// `found`, the call doesn't check whether it runs.
fn with_one<'a>(
    found: Option<ScheduleView<'a>>,
    view: ScheduleView<'a>,
    uid: &Uid,
    day: Day,
) -> Option<ScheduleView<'a>>
    ensures { result ≡ with_one_more (on (λ (train : Train). train.key) schedule_choice_cmp)
        (is_running uid.now day) found.entry view.entry }
{
    if is_better(&view, found.as_ref()) && is_running(&view, uid, day) {
        Some(view)
    } else {
        found
    }
}

/// Whether the schedule has this UID and runs on the day.
fn is_running(view: &ScheduleView<'_>, uid: &Uid, day: Day) -> bool
    ensures { result ≡ is_running uid.now day view.now }
{
    (view.key().uid == *uid) & view.runs_on(day)
}
