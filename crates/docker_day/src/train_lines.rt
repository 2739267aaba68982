//! The docker lines of a train's events.
ghost use Rattle.std.specs.Prelude.{◌≡◌, ◌≤◌, ◌&&◌, ◌++◌, [], OnOk, IfSome, IsNone, codes};
ghost use Rattle.docker_model.specs.docker.DockerLine.{ends, tiploc_of_first};
ghost use Rattle.docker_laws.specs.Gathering.{event_lines};
ghost use Rattle.docker_day.specs.Details.{detail_meant};
ghost use Rattle.train_choice.specs.Occurrences.{occurrences};
ghost use Rattle.train_choice.specs.EventWalk.{occurrence_meant};
ghost use Rattle.docker_day.specs.Lines.{Adds, is_here, is_today, lines_there, runs_recently, is_under_way, schedule_piece};
ghost use Rattle.train_choice.specs.Along.{IsLiveTrain};
ghost use Rattle.train_choice.specs.UpTo.{occurrences_to};
ghost use Rattle.docker_state.specs.Timetables.{live_in};

use crate::detail::Detail;
use crate::docker_line::DockerLine;
use crate::location::tiploc_in;
use crate::starts::{is_here, is_today};
use crate::visit::Visit;
use cif_line::{Day, Memory, Tiploc};
use train_choice::{Occurrence, ScheduleView, ends_of, passes_midnight};

/// Appends the docker lines of a schedule for a visit to `lines`, if a train runs according to the
/// schedule on the start day. `row` is the index of the schedule's row. Returns `Memory` if there
/// is no room for the lines.
pub(crate) fn add_schedule<'a>(
    lines: &mut Vec<DockerLine<'a>>,
    visit: &mut Visit<'a>,
    row: usize,
    train: &ScheduleView<'a>,
) -> Result<(), Memory>
    requires live { IsLiveTrain (live_in visit.old.timetable) train.now }
    ensures same { visit.new ≡ visit.old }
    ensures added { OnOk result (Adds (live_in visit.old.timetable)
        (λ trains links. schedule_piece trains visit.old.place visit.old.day train.now.key
        train.now.lines visit.old.start)
        lines.old.items lines.new.items) }
{
    // The schedule's days are checked first, because the choice among its UID's schedules needs a
    // search.
    if !train.runs_on(visit.start()) {
        return Ok(());
    }
    if visit.runs_by(row, train) {
        add_events(lines, train, visit.place(), visit.day(), visit.start())
    } else {
        Ok(())
    }
}

/// Whether a schedule runs on a day or on one of the two days before it.
pub(crate) fn runs_recently(train: &ScheduleView<'_>, day: Day) -> bool
    ensures { result ≡ runs_recently train.now.lines day }
{
    train.recent_runs(day).is_some()
}

/// Whether the train of a schedule may be at a place on this day, having started on an earlier day.
/// That is so if the schedule runs on one of the two days before this day, and its train passes
/// midnight before its last event at the place.
pub(crate) fn is_under_way(train: &ScheduleView<'_>, place: &Tiploc, day: Day) -> bool
    ensures { result ≡ is_under_way place.now train.now.lines day }
{
    let recent = train.recent_runs(day);
    if !(recent.day_before | recent.two_before) {
        return false;
    }
    passes_midnight(train, place)
}

/// Appends to `lines` the docker lines of a train's events at a place on a day. `start` is the day
/// on which the train starts.
fn add_events<'a>(
    lines: &mut Vec<DockerLine<'a>>,
    train: &ScheduleView<'a>,
    place: &Tiploc,
    day: Day,
    start: Day,
) -> Result<(), Memory>
    requires past { start ≤ day }
    ensures { OnOk result (lines.new.items
        ≡ lines.old.items ++ event_lines place.now day start train.now.key train.now.lines) }
{
    match detail_of(train) {
        Some(detail) => add_there(lines, train, &detail, place, day, start),
        None => Ok(()),
    }
}

/// Like `add_events`, for a train whose origin and destination are in `detail`.
fn add_there<'a>(
    lines: &mut Vec<DockerLine<'a>>,
    train: &ScheduleView<'a>,
    detail: &Detail,
    place: &Tiploc,
    day: Day,
    start: Day,
) -> Result<(), Memory>
    requires past { start ≤ day }
    ensures { OnOk result (lines.new.items ≡ lines.old.items
        ++ lines_there place.now day start train.now.key (detail_meant detail.now)
        (occurrences_to place.now train.now.lines)) }
{
    for event in train.events_to(place) {
        if is_there(&event, place, day, start) {
            lines.push(DockerLine::of_event(train, start, event, *detail))?;
        }
    }
    Ok(())
}

/// Whether an event of a train that starts on `start` is at the place on the day.
fn is_there(event: &Occurrence<'_>, place: &Tiploc, day: Day, start: Day) -> bool
    requires past { start ≤ day }
    ensures { result ≡ (is_here place.now (occurrence_meant event.now)
        && is_today day start (occurrence_meant event.now)) }
{
    is_here(event, place) & is_today(event, day, start)
}

/// The origin and the destination of a train. Returns `None` if its schedule has no journey.
fn detail_of(train: &ScheduleView<'_>) -> Option<Detail>
    ensures ends { IfSome result (λ detail. detail_meant detail
        ≡ ends (tiploc_of_first (codes "LO") train.now.lines)
        (tiploc_of_first (codes "LT") train.now.lines)) }
    ensures none { IsNone result → occurrences train.now.lines ≡ [] }
{
    let (origin, terminus) = ends_of(train)?;
    Some(Detail::Ends {
        origin: *tiploc_in(origin),
        destination: *tiploc_in(terminus),
    })
}
