//! Makes a docker.
ghost use Rattle.std.specs.Prelude.{◌≡◌, ◌+◌, ◌-◌, ◌<◌, ◌≤◌, ◌↔◌, IsTrue, IfOk, OnOk, Err};
ghost use Rattle.std.specs.List.Sorted.{IsSorted, IsPermutation};
ghost use Rattle.docker_model.specs.docker.DockerLine.{docker_line_cmp};
ghost use Rattle.docker_model.specs.records.Record.{columns};
ghost use Rattle.docker_model.specs.file.Change.{tiploc_key};
ghost use Rattle.docker_model.specs.state.State.{live_table};
ghost use Rattle.docker_model.specs.docker.Permanent.{permanent_table};
ghost use Rattle.state_laws.specs.CountedRows.{IsOfGoodRows};
ghost use Rattle.docker_model.specs.state.Lapse.{IsDayRefused};
ghost use Rattle.docker_model.specs.docker.DockerText.{description_in};
ghost use Rattle.docker_day.specs.Dockers.{HasGathered, IsDockerOf};
ghost use Rattle.docker_state.specs.Timetables.{live_in};

use crate::docker_line::DockerLine;
use crate::docker_list::Docker;
use crate::fault::DockerFault;
use crate::portions::add_rows;
use crate::visits::Visits;
use cif_change::Body;
use cif_line::{Day, Memory, Tiploc};
use docker_state::{State, Timetable};
use std::alloc::Global;
use train_choice::{associations_at, schedules_at};

/// Makes the docker of a timing point and a day. The docker has a line for each event of a train,
/// and for each association, at this timing point on this day. Returns `Lapsed` if and only if the
/// state has a horizon and the day is earlier than three days after the horizon. On such a day, the
/// docker could lack the lines of lapsed entries. Returns `Memory` if there is no room for the
/// lines, or for the trains that are looked up for them.
pub fn docker<'a>(
    alloc: Global,
    state: &'a State,
    tiploc: &Tiploc,
    day: Day,
) -> Result<Docker<'a>, DockerFault>
    ensures ok { IfOk result (IsDockerOf (live_table state.now) tiploc.now day) }
    ensures lapsed { (result ≡ Err DockerFault.Lapsed) ↔ IsDayRefused state.now.horizon day }
{
    docker_in(alloc, &Timetable::of(state), tiploc, day)
}

/// Like `docker`, without the short-term plan: only schedules and associations with the STP
/// indicator `P` count. If a short-term entry cancels or changes a train, the docker has the train
/// as permanently planned. If a short-term entry adds a train, the docker doesn't have the train.
/// The call refuses the same days as `docker`.
pub fn permanent_docker<'a>(
    alloc: Global,
    state: &'a State,
    tiploc: &Tiploc,
    day: Day,
) -> Result<Docker<'a>, DockerFault>
    ensures ok { IfOk result (IsDockerOf (permanent_table (live_table state.now)) tiploc.now day) }
    ensures lapsed { (result ≡ Err DockerFault.Lapsed) ↔ IsDayRefused state.now.horizon day }
{
    docker_in(alloc, &Timetable::permanent(state), tiploc, day)
}

/// Like `docker`, for the entries that count in a timetable.
pub fn docker_in<'a>(
    alloc: Global,
    timetable: &Timetable<'a>,
    tiploc: &Tiploc,
    day: Day,
) -> Result<Docker<'a>, DockerFault>
    ensures ok { IfOk result (IsDockerOf (live_in timetable.now) tiploc.now day) }
    ensures lapsed { (result ≡ Err DockerFault.Lapsed)
        ↔ IsDayRefused timetable.now.state.horizon day }
{
    if is_refused(timetable.horizon(), day) {
        return Err(DockerFault::Lapsed);
    }
    let mut lines = Vec::new(alloc);
    match add_all(alloc, &mut lines, timetable, tiploc, day) {
        Ok(()) => {
            let description = description(timetable, tiploc);
            Ok(Docker::of(*tiploc, day, description, in_order(lines)))
        }
        Err(_) => Err(DockerFault::Memory),
    }
}

/// Appends the docker lines of the associations at a place, and of the schedules that call at the
/// place, to `lines`.
fn add_all<'a>(
    alloc: Global,
    lines: &mut Vec<DockerLine<'a>>,
    timetable: &Timetable<'a>,
    place: &Tiploc,
    day: Day,
) -> Result<(), Memory>
    ensures { OnOk result
        (HasGathered (live_in timetable.now) place.now day lines.old.items lines.new.items) }
{
    let mut visits = Visits::at(alloc, timetable, place, day)?;
    add_rows(lines, &mut visits, associations_at(timetable, place))?;
    add_rows(lines, &mut visits, schedules_at(timetable, place))
}

/// Sorts the lines into the order of a docker.
fn in_order(mut lines: Vec<DockerLine<'_>>) -> Vec<DockerLine<'_>>
    ensures same { IsPermutation lines.entry.items result.items }
    ensures sorted { IsSorted docker_line_cmp result.items }
{
    lines.sort_unstable();
    lines
}

/// Whether there is a horizon and the day is earlier than three days after the horizon.
fn is_refused(horizon: u16, day: Day) -> bool
    requires day { horizon ≤ 36524 }
    ensures { IsTrue result ↔ IsDayRefused horizon day }
{
    (horizon > 0) & (day.number() < horizon + 3)
}

/// The description of a timing point: 26 bytes, which are spaces if the timetable has no live row
/// for the timing point.
fn description<'a>(timetable: &Timetable<'a>, tiploc: &Tiploc) -> &'a [u8; 26]
    ensures text { result.now ≡ description_in (live_in timetable.now (tiploc_key tiploc.now)) }
    ensures good { IsOfGoodRows (live_in timetable.now) }
{
    match timetable.tiploc(tiploc) {
        Some(Body::Tiploc(bytes)) => description_of(bytes),
        _ => b"                          ",
    }
}

/// The description in a TIPLOC's body. The body is columns 10 to 72 of the TIPLOC record, and the
/// description is columns 19 to 44 of this record.
fn description_of(bytes: &[u8; 63]) -> &[u8; 26]
    ensures { result.now ≡ columns 10 35 bytes.now }
{
    columns_of(bytes, 10)
}

/// The `N` bytes of a TIPLOC's body that begin at column `first`. Columns of the body are counted
/// from 1.
fn columns_of<const N: usize>(bytes: &[u8; 63], first: usize) -> &[u8; N]
    requires from { 0 < first }
    requires within { first - 1 + N ≤ 63 }
    ensures { result.now ≡ columns first (first - 1 + N) bytes.now }
{
    match bytes[first - 1..first - 1 + N].first_chunk() {
        Some(part) => part,
        None => unreachable!(),
    }
}
