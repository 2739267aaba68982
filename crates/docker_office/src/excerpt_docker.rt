//! Makes the docker of an excerpt.
ghost use Rattle.std.specs.Prelude.{◌≡◌, ◌↔◌, IfOk, Err};
ghost use Rattle.docker_model.specs.state.Lapse.{IsDayRefused};
ghost use Rattle.docker_model.specs.state.State.{live_table};
ghost use Rattle.docker_day.specs.Dockers.{IsDockerOf};

use docker_bytes::Excerpt;
use docker_day::{Docker, DockerFault, docker_in};
use std::alloc::Global;

/// Makes the docker of the excerpt's place and day. Returns `Lapsed` if the state has a horizon and
/// the day is earlier than three days after the horizon, because lapsed entries may be missing.
/// Returns `Memory` if there is no room for the docker.
pub(crate) fn docker_of(alloc: Global, excerpt: &Excerpt) -> Result<Docker<'_>, DockerFault>
    ensures ok { IfOk result
        (IsDockerOf (live_table excerpt.now.state) excerpt.now.place excerpt.now.day) }
    ensures lapsed { (result ≡ Err DockerFault.Lapsed)
        ↔ IsDayRefused excerpt.now.state.horizon excerpt.now.day }
{
    docker_in(alloc, &excerpt.timetable(), excerpt.place(), excerpt.day())
}
