//! The rows of a timetable from which a docker is made.
ghost use Rattle.std.specs.Prelude.{◌≡◌};
ghost use Rattle.docker_model.specs.docker.Choice.{Group};
ghost use Rattle.state_laws.specs.Index.{AreCalling, AreLinked};
ghost use Rattle.docker_laws.specs.LiveRows.{HasSchedulesOf, HasAssociationsOf};
ghost use Rattle.train_choice.specs.Along.{AreGoodRows, AreLive};
ghost use Rattle.docker_state.specs.Timetables.{live_in};

use crate::uid_search::UidSearch;
use cif_line::{Tiploc, Uid};
use docker_state::{Timetable, TimetableRows, UidSchedules};

/// The rows of the schedules of a UID, found by this search.
pub(crate) fn schedules_of<'a>(from: &UidSearch<'a>, uid: &Uid) -> UidSchedules<'a>
    ensures has { HasSchedulesOf (live_in from.now) uid.now result }
    ensures good { AreGoodRows result }
{
    from.of_uid(uid)
}

/// The rows of the associations at a place.
pub fn associations_at<'a>(timetable: &Timetable<'a>, place: &Tiploc) -> TimetableRows<'a>
    ensures linked { AreLinked (live_in timetable.now) place.now result }
    ensures has { (group : Group) → group.location ≡ place.now
        → HasAssociationsOf (live_in timetable.now) group result }
    ensures good { AreGoodRows result }
    ensures live { AreLive (live_in timetable.now) result }
{
    timetable.linked(place)
}

/// The rows of the schedules that call at a place.
pub fn schedules_at<'a>(timetable: &Timetable<'a>, place: &Tiploc) -> TimetableRows<'a>
    ensures calling { AreCalling (live_in timetable.now) place.now result }
    ensures good { AreGoodRows result }
    ensures live { AreLive (live_in timetable.now) result }
{
    timetable.calling(place)
}
