//! A schedule with its stamp. The stamp identifies the extract that the schedule came from.
ghost use Rattle.std.specs.Prelude.{◌≡◌, ◌<◌};
ghost use Rattle.docker_model.specs.lists.TrainText as text;
ghost use Rattle.docker_join.specs.Meaning.{stamp_meant};

use docker_join::Stamp;
use std::marker::Model;
use train_choice::ScheduleView;

/// A live schedule, with the stamp of the change that it comes from.
#[derive(Debug, Drop)]
pub(crate) struct Stamped<'a> {
    schedule: ScheduleView<'a>,
    stamp: &'a Stamp,
}

impl<'a> Model for Stamped<'a> {
    ghost Value = { text.Stamped };

    ghost view = { λ stamped. record {
      schedule = stamped.schedule;
      stamp = stamp_meant stamped.stamp.now;
    } };

    ghost invariant = { λ stamped. stamped.stamp.now.file.minute < 1440 };
}

impl<'a> Stamped<'a> {
    /// The schedule with its stamp.
    pub(crate) fn of(schedule: ScheduleView<'a>, stamp: &'a Stamp) -> Stamped<'a>
        requires { stamp.now.file.minute < 1440 }
        ensures { result ≡ record {
          schedule = schedule.entry;
          stamp = stamp_meant stamp.entry.now;
        } }
    {
        Stamped { schedule, stamp }
    }

    /// The schedule: its key and its lines.
    pub(crate) fn schedule(&self) -> &ScheduleView<'a>
        ensures { result.now ≡ self.now.schedule }
    {
        &self.schedule
    }

    /// The stamp of the change that the schedule comes from. The stamp has the date, time and
    /// reference of the schedule's extract, and the number of the schedule's record in this
    /// extract.
    pub(crate) fn stamp(&self) -> &'a Stamp
        ensures stamp { stamp_meant result.now ≡ self.now.stamp }
        ensures minute { result.now.file.minute < 1440 }
    {
        self.stamp
    }
}
