//! The trains that start on a day. The train that was looked up last is remembered.
ghost use Rattle.std.specs.Prelude.{◌≡◌, true, List, IfSome};
ghost use Rattle.docker_model.specs.file.File.{first_record};
ghost use Rattle.docker_model.specs.state.Row.{Row, AreRowsOf};
ghost use Rattle.docker_model.specs.docker.Choice.{schedule_runs};
ghost use Rattle.docker_laws.specs.Gathering.{runs_by};
ghost use Rattle.docker_laws.specs.LiveRows.{train_in};
ghost use Rattle.train_choice.specs.Along.{IsLiveTrain};
ghost use Rattle.train_choice.specs.Known.{StartDay, IsKnownTrain};
ghost use Rattle.cif_change.specs.Meaning.{schedule_key_meant};
ghost use Rattle.docker_state.specs.Timetables.{live_in};

use crate::choice::train_from;
use crate::schedule_view::ScheduleView;
use crate::uid_search::UidSearch;
use crate::uid_train::UidTrain;
use cif_change::ScheduleKey;
use cif_line::Day;
use docker_state::Timetable;
use std::marker::Model;

/// The trains that start on a day. The train of the UID that was looked up last is remembered. In a
/// walk over a state's rows, all schedules of a UID are consecutive, so each UID is searched for
/// only once.
#[derive(Debug, Drop)]
pub struct DayTrains<'a> {
    timetable: Timetable<'a>,
    day: Day,
    last: Option<UidTrain<'a>>,
}

impl<'a> Model for DayTrains<'a> {
    ghost Value = { StartDay };

    ghost view = { λ trains. record {
      timetable = trains.timetable;
      day = trains.day;
    } };

    ghost invariant = { λ trains.
        IsKnownTrain (live_in trains.timetable) trains.day trains.last };
}

impl<'a> DayTrains<'a> {
    /// The trains that start on a day in a timetable. No train has been looked up yet.
    pub fn of(timetable: &Timetable<'a>, day: Day) -> DayTrains<'a>
        ensures { result ≡ record { timetable = timetable.entry.now; day = day } }
    {
        DayTrains {
            timetable: timetable.again(),
            day,
            last: None,
        }
    }

    /// Whether a train runs according to this schedule. It does if the schedule is the one chosen
    /// for its UID on the start day, and isn't a cancellation. The schedule has to run on the day.
    /// `row` is a hint: the row at which the search for the UID's schedules begins. A wrong hint
    /// makes the search longer, and leaves the result unchanged.
    pub fn runs_by(&mut self, row: usize, train: &ScheduleView<'a>) -> bool
        requires live { IsLiveTrain (live_in self.old.timetable) train.now }
        requires runs { schedule_runs (first_record train.now.lines) self.old.day ≡ true }
        ensures same { self.new ≡ self.old }
        ensures answer { (rows : List Row) → AreRowsOf (live_in self.old.timetable) rows
            → result ≡ runs_by (train_in rows train.now.key.uid self.old.day) train.now.key }
    {
        match self.known(train.key()) {
            Some(answer) => answer,
            None => self.look_up(row, train),
        }
    }

    /// Whether the train that was looked up last runs according to the schedule with this key.
    /// Returns `None` if no train has been looked up, or if that train has another UID.
    fn known(&self, key: &ScheduleKey) -> Option<bool>
        ensures { IfSome result (λ answer. (rows : List Row)
            → AreRowsOf (live_in self.now.timetable) rows
            → answer ≡ runs_by (train_in rows key.now.uid self.now.day)
            (schedule_key_meant key.now)) }
    {
        match &self.last {
            Some(last) => last.asked(key),
            None => None,
        }
    }

    /// Like `runs_by`, but always searches the schedules of the UID. Remembers the train that was
    /// found.
    fn look_up(&mut self, row: usize, train: &ScheduleView<'a>) -> bool
        requires live { IsLiveTrain (live_in self.old.timetable) train.now }
        requires runs { schedule_runs (first_record train.now.lines) self.old.day ≡ true }
        ensures same { self.new ≡ self.old }
        ensures answer { (rows : List Row) → AreRowsOf (live_in self.old.timetable) rows
            → result ≡ runs_by (train_in rows train.now.key.uid self.old.day) train.now.key }
    {
        let key = train.key();
        let found = UidTrain {
            uid: key.uid,
            train: train_from(&UidSearch::at_row(&self.timetable, row), train, self.day),
        };
        let answer = found.runs_by(key);
        self.last = Some(found);
        answer
    }
}
