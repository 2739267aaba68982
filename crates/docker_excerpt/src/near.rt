//! Whether an entry may count in the dockers of a day.
ghost use Rattle.std.specs.Prelude.{◌≡◌};
ghost use Rattle.docker_model.specs.state.State.{IsOpOf};
ghost use Rattle.docker_laws.specs.NearDay.{may_count};
ghost use Rattle.cif_change.specs.Meaning.{key_meant};
ghost use Rattle.docker_join.specs.Meaning.{op_meant};

use crate::start_days::runs_near;
use cif_change::{Body, Key};
use cif_line::Day;
use state_text::Op;

/// Whether an entry may count in the dockers of a day. The result is false only for a live schedule
/// that doesn't run on any start day from three days before the day to the day after.
#[tactic(auto, using(crate::proofs::NearFields::kept_schedule))]
pub(crate) fn may_count(day: Day, key: &Key, op: &Op) -> bool
    requires { IsOpOf (key_meant key.now) (op_meant op.now) }
    ensures { result ≡ may_count day (op_meant op.now) }
{
    match op {
        Op::Put(Body::Schedule(lines)) => match lines.as_slice().first() {
            Some(line) => runs_near(line, day),
            None => unreachable!(),
        },
        _ => true,
    }
}
