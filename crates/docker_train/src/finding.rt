//! Finds the schedule that is chosen for a UID on a day.
ghost use Rattle.std.specs.Prelude.{◌≡◌, ◌<◌, ◌↔◌, IfOk, IfErr, Err};
ghost use Rattle.docker_model.specs.state.State.{live_table};
ghost use Rattle.train_choice.specs.Along.{IsLiveTrain};
ghost use Rattle.docker_train.specs.Answer.{IsAnswerOf};
ghost use Rattle.docker_model.specs.lists.TrainText.{IsStampOf};

use crate::chosen_train::ChosenTrain;
use crate::stamped::Stamped;
use cif_line::{Day, Uid};
use docker_day::{DockerFault, Key, State};
use train_choice::{ScheduleView, chosen};

/// Finds the schedule chosen for a UID on a day, with the stamp of the change that the schedule
/// comes from. Returns `Lapsed` if the day is before the horizon, because schedules that ran on the
/// day may have lapsed. The call allocates nothing, so it never returns `Memory`. The call reads
/// only the rows of the UID, and finds these rows by binary search.
pub fn find_train<'a>(state: &'a State, uid: &Uid, day: Day) -> Result<ChosenTrain<'a>, DockerFault>
    ensures ok { IfOk result (IsAnswerOf state.now uid.now day) }
    ensures lapsed { (result ≡ Err DockerFault.Lapsed) ↔ (day < state.now.horizon) }
    ensures only { IfErr result (λ fault. fault ≡ DockerFault.Lapsed) }
{
    if day.number() < state.horizon() {
        return Err(DockerFault::Lapsed);
    }
    match chosen(state, uid, day) {
        Some(schedule) => Ok(ChosenTrain::of(*uid, day, Some(stamped(state, schedule)))),
        None => Ok(ChosenTrain::of(*uid, day, None)),
    }
}

/// A live schedule with the stamp of its entry in the state.
fn stamped<'a>(state: &'a State, schedule: ScheduleView<'a>) -> Stamped<'a>
    requires { IsLiveTrain (live_table state.now) schedule }
    ensures schedule { result.schedule ≡ schedule.entry }
    ensures stamp { IsStampOf state.now schedule.entry result.stamp }
{
    match state.get(&Key::Schedule(*schedule.key())) {
        Some(entry) => Stamped::of(schedule, &entry.stamp),
        None => unreachable!(),
    }
}
