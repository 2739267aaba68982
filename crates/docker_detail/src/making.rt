//! Makes a detailed docker.
ghost use Rattle.std.specs.Prelude.{◌≡◌, ◌↔◌, List, ℕ, IfOk, Err};
ghost use Rattle.docker_model.specs.state.State.{live_table};
ghost use Rattle.docker_model.specs.state.Lapse.{IsDayRefused};
ghost use Rattle.docker_model.specs.docker.Permanent.{permanent_table};
ghost use Rattle.docker_state.specs.Timetables.{live_in};
ghost use Rattle.docker_day.specs.Dockers.{IsDockerOf};
ghost use Rattle.docker_detail.specs.DetailedValue.{IsDetailedOf};

use crate::detailed_list::DetailedDocker;
use crate::origins::with_origins;
use cif_line::{Day, Memory, Tiploc};
use docker_day::{Docker, DockerFault, State, docker, permanent_docker};
use docker_state::Timetable;
use std::alloc::Global;

/// Makes the detailed docker of a timing point and a day: the lines of its docker, in the same
/// order, each with the records that it was made from. Returns `Lapsed` on the days on which no
/// docker is made, and `Memory` if there is no room for the lines, or for what is looked up for
/// them.
pub fn detailed_docker<'a>(
    alloc: Global,
    state: &'a State,
    tiploc: &Tiploc,
    day: Day,
) -> Result<DetailedDocker<'a>, DockerFault>
    ensures ok { IfOk result (IsDetailedOf (live_table state.now) tiploc.now day) }
    ensures lapsed { (result ≡ Err DockerFault.Lapsed) ↔ IsDayRefused state.now.horizon day }
{
    match docker(alloc, state, tiploc, day) {
        Ok(docker) => detail(alloc, &Timetable::of(state), docker),
        Err(fault) => Err(fault),
    }
}

/// Like `detailed_docker`, without the short-term plan, as `permanent_docker` is.
pub fn permanent_detailed_docker<'a>(
    alloc: Global,
    state: &'a State,
    tiploc: &Tiploc,
    day: Day,
) -> Result<DetailedDocker<'a>, DockerFault>
    ensures ok { IfOk result
        (IsDetailedOf (permanent_table (live_table state.now)) tiploc.now day) }
    ensures lapsed { (result ≡ Err DockerFault.Lapsed) ↔ IsDayRefused state.now.horizon day }
{
    match permanent_docker(alloc, state, tiploc, day) {
        Ok(docker) => detail(alloc, &Timetable::permanent(state), docker),
        Err(fault) => Err(fault),
    }
}

/// The detailed docker of a docker that was made from this timetable.
fn detail<'a>(
    alloc: Global,
    timetable: &Timetable<'a>,
    docker: Docker<'a>,
) -> Result<DetailedDocker<'a>, DockerFault>
    ensures ok { IfOk result (λ detailed. (place : List ℕ) (day : ℕ)
        → IsDockerOf (live_in timetable.now) place day docker.entry
        → IsDetailedOf (live_in timetable.now) place day detailed) }
    ensures memory { ¬ (result ≡ Err DockerFault.Lapsed) }
{
    match with_lines(alloc, timetable, docker) {
        Ok(detailed) => Ok(detailed),
        Err(_) => Err(DockerFault::Memory),
    }
}

/// Like `detail`, with out of memory as its only error.
fn with_lines<'a>(
    alloc: Global,
    timetable: &Timetable<'a>,
    docker: Docker<'a>,
) -> Result<DetailedDocker<'a>, Memory>
    ensures { IfOk result (λ detailed. (place : List ℕ) (day : ℕ)
        → IsDockerOf (live_in timetable.now) place day docker.entry
        → IsDetailedOf (live_in timetable.now) place day detailed) }
{
    let place = docker.place();
    // This call is made only for its contract, which says that the timetable has rows.
    let _body = timetable.tiploc(&place);
    let (day, description) = (docker.day(), docker.description());
    let lines = with_origins(alloc, timetable, &place, docker.into_lines())?;
    Ok(DetailedDocker::of(place, day, description, lines))
}
