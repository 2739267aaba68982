//! Gathers the docker lines from the rows of a walk, a portion of sixteen rows at a time.
ghost use Rattle.std.specs.Prelude.{◌≡◌, ◌<◌, ◌⊎◌, [], true, false, length, IsNone, IsSome, OnOk, Some};
ghost use Rattle.arrayvec.specs.ArrayVec.{array_vec_len};
ghost use Rattle.docker_laws.specs.Gathering.{gathered};
ghost use Rattle.train_choice.specs.Along.{AreGoodRows, AreLive};
ghost use Rattle.docker_day.specs.Lines.{Adds};
ghost use Rattle.docker_day.specs.RowViews.{AreLiveViews, lines_of, row_may_run, views_in};
ghost use Rattle.docker_day.specs.Portions.{AreLeft, AreOpened, ArePassedOver};
ghost use Rattle.docker_state.specs.Timetables.{live_in};

use crate::docker_line::DockerLine;
use crate::gathering::add_row;
use crate::row_view::RowView;
use crate::visits::Visits;
use arrayvec::ArrayVec;
use cif_line::{Day, Memory};
use docker_state::TimetableRows;

/// The number of rows that are read before any of their docker lines is appended to the list.
/// Reading several rows at once makes their cache misses overlap.
const PORTION: usize = 16;

/// Rows of a walk that have been read, each with its index in the state.
type Portion<'a> = ArrayVec<(usize, RowView<'a>), PORTION>;

/// Appends the docker lines of all rows of a walk to `lines`. Returns `Memory` if there is no room
/// for the lines.
pub(crate) fn add_rows<'a>(
    lines: &mut Vec<DockerLine<'a>>,
    visits: &mut Visits<'a>,
    mut rows: TimetableRows<'a>,
) -> Result<(), Memory>
    requires good { AreGoodRows rows }
    requires live { AreLive (live_in visits.old.timetable) rows }
    ensures same { visits.new ≡ visits.old }
    ensures added { OnOk result
        (Adds (live_in visits.old.timetable)
        (λ trains links. gathered trains links visits.old.place visits.old.day rows.entry)
        lines.old.items lines.new.items) }
{
    let mut portion = Portion::new();
    'portions: loop {
        let may_run = open_portion(&mut portion, &mut rows, visits.day());
        if portion.is_empty() {
            return Ok(());
        }
        if may_run {
            add_portion(lines, visits, portion.as_slice())?;
        }
    }
}

/// Refills the portion with the next rows of the walk, and returns whether any of these rows may
/// have lines on the day. The call reads every row, so that the cache misses overlap. At the end of
/// the walk the portion is empty.
fn open_portion<'a>(portion: &mut Portion<'a>, rows: &mut TimetableRows<'a>, day: Day) -> bool
    requires { AreGoodRows rows.old }
    ensures left { AreLeft rows.old rows.new }
    ensures opened { AreOpened rows.old rows.new [] portion.new.items }
    ensures end { portion.new.items ≡ [] → rows.old ≡ [] }
    ensures passed { result ≡ false → ArePassedOver day rows.old rows.new }
{
    portion.clear();
    let mut some = false;
    while let Some(may_run) = open_next(portion, rows, day) {
        some |= may_run;
    }
    some
}

/// Adds the next row of the walk to the portion, and returns whether the row may have lines on the
/// day. Returns `None` if the portion is full or the walk has ended.
fn open_next<'a>(portion: &mut Portion<'a>, rows: &mut TimetableRows<'a>, day: Day) -> Option<bool>
    requires { AreGoodRows rows.old }
    ensures none { IsNone result → (array_vec_len portion.new ≡ PORTION) ⊎ (rows.new ≡ []) }
    ensures left { AreLeft rows.old rows.new }
    ensures fewer { IsSome result → length rows.new < length rows.old }
    ensures opened { AreOpened rows.old rows.new portion.old.items portion.new.items }
    ensures passed { ¬ (result ≡ Some true) → ArePassedOver day rows.old rows.new }
{
    if portion.is_full() {
        return None;
    }
    let (row, key, body) = rows.next()?;
    let view = RowView::of(key, body);
    let may_run = may_row_run(&view, day);
    portion.push((row, view));
    Some(may_run)
}

/// Whether a row may have lines on a day. The result is false only for two kinds of schedules. One
/// kind begins after the day. The other kind has the flag `0` for the weekdays of the day and of
/// the two days before it.
fn may_row_run(view: &RowView<'_>, day: Day) -> bool
    ensures { result ≡ row_may_run view.now day }
{
    match view {
        RowView::Train(train) => train.may_run_recently(day),
        RowView::Link(_) | RowView::Other => true,
    }
}

/// Appends the docker lines of a portion's rows to `lines`.
fn add_portion<'a>(
    lines: &mut Vec<DockerLine<'a>>,
    visits: &mut Visits<'a>,
    rows: &[(usize, RowView<'a>)],
) -> Result<(), Memory>
    requires { AreLiveViews (live_in visits.old.timetable) (views_in rows.now) }
    ensures same { visits.new ≡ visits.old }
    ensures added { OnOk result
        (Adds (live_in visits.old.timetable)
        (λ trains links. lines_of trains links visits.old.place visits.old.day
        (views_in rows.now))
        lines.old.items lines.new.items) }
{
    for (row, view) in rows {
        add_row(lines, visits, *row, view)?;
    }
    Ok(())
}
