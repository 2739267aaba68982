//! The schedule that is chosen for a UID on a day.
ghost use Rattle.std.specs.Prelude.{◌≡◌};
ghost use Rattle.std.specs.Option.{option_copied, option_map};
ghost use Rattle.docker_join.specs.Meaning.{stamp_meant};
ghost use Rattle.docker_model.specs.lists.TrainText.{found_lines};
ghost use Rattle.docker_model.specs.lists.TrainText as text;
ghost use Rattle.docker_train.specs.Answer as answer;

use crate::stamped::Stamped;
use cif_line::{Day, Line, Uid};
use docker_join::Stamp;
use std::marker::Model;
use train_choice::ScheduleView;

/// A UID, a day, and the schedule that is chosen for them, or `None` if no schedule runs.
#[derive(Debug, Drop)]
pub struct ChosenTrain<'a> {
    uid: Uid,
    day: Day,
    found: Option<Stamped<'a>>,
}

impl<'a> Model for ChosenTrain<'a> {
    ghost Value = { answer.Answer };

    ghost view = { λ train. record {
      uid = train.uid;
      day = train.day;
      found = train.found;
    } };
}

impl<'a> ChosenTrain<'a> {
    /// The UID and the day, with the schedule found for them.
    pub(crate) fn of(uid: Uid, day: Day, found: Option<Stamped<'a>>) -> ChosenTrain<'a>
        ensures { result ≡ record { uid = uid; day = day; found = found.entry } }
    {
        ChosenTrain { uid, day, found }
    }

    /// The UID.
    pub fn uid(&self) -> Uid
        ensures { result ≡ self.now.uid }
    {
        self.uid
    }

    /// The day.
    pub fn day(&self) -> Day
        ensures { result ≡ self.now.day }
    {
        self.day
    }

    /// The chosen schedule, with its key and its lines, or `None` if no schedule runs. The schedule
    /// may be a cancellation.
    pub fn schedule(&self) -> Option<&ScheduleView<'a>>
        ensures { option_copied result
            ≡ option_map (λ (it : text.Stamped). it.schedule) self.now.found }
    {
        match &self.found {
            Some(stamped) => Some(stamped.schedule()),
            None => None,
        }
    }

    /// The stamp of the chosen schedule, or `None` if no schedule runs. The stamp has the date,
    /// time and reference of the schedule's extract, and the number of the schedule's record in
    /// this extract.
    pub fn stamp(&self) -> Option<&'a Stamp>
        ensures { option_map stamp_meant (option_copied result)
            ≡ option_map (λ (it : text.Stamped). it.stamp) self.now.found }
    {
        match &self.found {
            Some(stamped) => Some(stamped.stamp()),
            None => None,
        }
    }

    /// The chosen schedule with its stamp, or `None` if no schedule runs.
    pub(crate) fn found(&self) -> Option<&Stamped<'a>>
        ensures { option_copied result ≡ self.now.found }
    {
        self.found.as_ref()
    }

    /// The lines of the chosen schedule. There are none if no schedule runs.
    pub(crate) fn lines(&self) -> &[Line]
        ensures { result.now ≡ found_lines self.now.found }
    {
        match &self.found {
            Some(stamped) => stamped.schedule().lines(),
            None => &[],
        }
    }
}
