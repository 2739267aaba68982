//! The docker lines of one row of a state.
ghost use Rattle.std.specs.Prelude.{◌≡◌, OnOk};
ghost use Rattle.train_choice.specs.Along.{IsLiveLink};
ghost use Rattle.docker_day.specs.Lines.{Adds, link_here};
ghost use Rattle.docker_day.specs.RowViews.{IsLiveView, row_runs_recently, row_under_way, view_lines};
ghost use Rattle.docker_day.specs.Visits.{AddsAt, AddsIf, IsLiveAt};
ghost use Rattle.docker_state.specs.Timetables.{live_in};

use crate::docker_line::DockerLine;
use crate::link_lines::link_line;
use crate::row_view::RowView;
use crate::train_lines::{add_schedule, is_under_way, runs_recently};
use crate::visit::Visit;
use crate::visits::Visits;
use cif_line::{Day, Memory, Tiploc};
use train_choice::LinkView;

/// Appends the docker lines of a row to `lines`, for each start day whose trains may be at the
/// place on the day. `row` is the row's index. Returns `Memory` if there is no room for the lines.
pub(crate) fn add_row<'a>(
    lines: &mut Vec<DockerLine<'a>>,
    visits: &mut Visits<'a>,
    row: usize,
    view: &RowView<'a>,
) -> Result<(), Memory>
    requires { IsLiveView (live_in visits.old.timetable) view.now }
    ensures same { visits.new ≡ visits.old }
    ensures added { OnOk result (Adds (live_in visits.old.timetable)
        (λ trains links. view_lines trains links visits.old.place visits.old.day view.now)
        lines.old.items lines.new.items) }
{
    if !row_runs_recently(view, visits.day()) {
        return Ok(());
    }
    add_piece(lines, &mut visits.today, row, view)?;
    if !is_row_under_way(view, visits.place(), visits.day()) {
        return Ok(());
    }
    add_back(lines, &mut visits.day_before, row, view)?;
    add_back(lines, &mut visits.two_before, row, view)
}

/// Whether a row may have lines on a day. A schedule has no lines if it runs neither on that day
/// nor on one of the two days before it. The call reads the fields of the schedule once for all
/// three days.
fn row_runs_recently(view: &RowView<'_>, day: Day) -> bool
    ensures { result ≡ row_runs_recently view.now day }
{
    match view {
        RowView::Train(train) => runs_recently(train, day),
        RowView::Link(_) | RowView::Other => true,
    }
}

/// Whether a row may have lines at a place on a day for a train that started before that day. A
/// schedule has no such lines unless its train may be under way.
fn is_row_under_way(view: &RowView<'_>, place: &Tiploc, day: Day) -> bool
    ensures { result ≡ row_under_way place.now view.now day }
{
    match view {
        RowView::Train(train) => is_under_way(train, place, day),
        RowView::Link(_) | RowView::Other => true,
    }
}

/// Appends the lines of a row for a visit to `lines`. Appends nothing if there is no visit, because
/// the visit's start day would be before day 0.
fn add_back<'a>(
    lines: &mut Vec<DockerLine<'a>>,
    visit: &mut Option<Visit<'a>>,
    row: usize,
    view: &RowView<'a>,
) -> Result<(), Memory>
    requires { IsLiveAt visit.old view.now }
    ensures same { visit.new ≡ visit.old }
    ensures added { OnOk result (AddsIf visit.old view.now lines.old.items lines.new.items) }
{
    match visit {
        Some(visit) => add_piece(lines, visit, row, view),
        None => Ok(()),
    }
}

/// Appends the lines of a row for one visit to `lines`.
fn add_piece<'a>(
    lines: &mut Vec<DockerLine<'a>>,
    visit: &mut Visit<'a>,
    row: usize,
    view: &RowView<'a>,
) -> Result<(), Memory>
    requires { IsLiveView (live_in visit.old.timetable) view.now }
    ensures same { visit.new ≡ visit.old }
    ensures added { OnOk result (AddsAt visit.old view.now lines.old.items lines.new.items) }
{
    match view {
        RowView::Train(train) => add_schedule(lines, visit, row, train),
        RowView::Link(link) => add_link(lines, visit, link),
        RowView::Other => Ok(()),
    }
}

/// Appends the line of an association for a visit to `lines`, if the association is at the place.
fn add_link<'a>(
    lines: &mut Vec<DockerLine<'a>>,
    visit: &mut Visit<'a>,
    link: &LinkView<'a>,
) -> Result<(), Memory>
    requires live { IsLiveLink (live_in visit.old.timetable) link.now }
    ensures same { visit.new ≡ visit.old }
    ensures added { OnOk result (Adds (live_in visit.old.timetable)
        (λ trains links. link_here trains links visit.old.place visit.old.day link.now
        visit.old.start)
        lines.old.items lines.new.items) }
{
    if link.key().location != *visit.place() {
        return Ok(());
    }
    if let Some(line) = link_line(visit, link)? {
        lines.push(line)?;
    }
    Ok(())
}
