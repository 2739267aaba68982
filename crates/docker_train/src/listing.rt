//! The trains that have a train identity and start on a day.
ghost use Rattle.std.specs.Prelude.{◌≡◌, List, false};
ghost use Rattle.docker_model.specs.records.Record.{kind_of};
ghost use Rattle.docker_model.specs.state.Row.{Row, AreRowsOf};
ghost use Rattle.docker_state.specs.Timetables.{live_in};
ghost use Rattle.train_choice.specs.Along.{IsLiveTrain};
ghost use Rattle.docker_model.specs.lists.TrainsText.{gives_identity, is_identified};
ghost use Rattle.docker_train.specs.TrainRows.{is_listed};
ghost use Rattle.docker_train.specs.TrainRows as rows;

use cif_line::{Day, Kind, Line, kind};
use docker_state::{State, Timetable};
use std::marker::Model;
use train_choice::{DayTrains, ScheduleView};

/// The trains of a state that have a train identity and start on a day.
#[derive(Debug, Drop)]
pub(crate) struct Listing<'a> {
    trains: DayTrains<'a>,
    identity: [u8; 4],
    day: Day,
}

impl<'a> Model for Listing<'a> {
    ghost Value = { rows.Listing };

    ghost view = { λ listing. record {
      timetable = listing.trains.timetable;
      identity = listing.identity;
      day = listing.day;
    } };

    ghost invariant = { λ listing. listing.trains.day ≡ listing.day };
}

impl<'a> Listing<'a> {
    /// The trains of a state that have this identity and start on this day.
    pub(crate) fn of(state: &'a State, identity: &[u8; 4], day: Day) -> Listing<'a>
        ensures { result ≡ record {
          timetable = record { state = state.entry.now; permanent = false };
          identity = identity.now;
          day = day;
        } }
    {
        Listing {
            trains: DayTrains::of(&Timetable::of(state), day),
            identity: *identity,
            day,
        }
    }

    /// The start day.
    pub(crate) fn day(&self) -> Day
        ensures { result ≡ self.now.day }
    {
        self.day
    }

    /// Whether a train has the identity, starts on the day and runs according to this schedule. The
    /// schedules of a UID are searched only if one of them runs on the day and has the identity. In
    /// a walk over a state's rows, they are then searched only once.
    pub(crate) fn has(&mut self, train: &ScheduleView<'a>) -> bool
        requires { IsLiveTrain (live_in self.old.timetable) train.now }
        ensures same { self.new ≡ self.old }
        ensures answer { (rows : List Row) → AreRowsOf (live_in self.old.timetable) rows
            → result ≡ is_listed rows self.old.identity self.old.day train.now }
    {
        if !train.runs_on(self.day) {
            return false;
        }
        if !is_identified(train.lines(), &self.identity) {
            return false;
        }
        self.trains.runs_by(0, train)
    }
}

/// Whether at least one record of a schedule gives its train this identity.
fn is_identified(lines: &[Line], identity: &[u8; 4]) -> bool
    ensures { result ≡ is_identified identity.now lines.now }
{
    lines.iter().any(|line| gives_identity(line, identity))
}

/// Whether a record gives its train this identity. Only a basic schedule (BS) and a change en route
/// (CR) have a train identity.
fn gives_identity(line: &Line, identity: &[u8; 4]) -> bool
    ensures { result ≡ gives_identity identity.now (kind_of line.now) line.now }
{
    match kind(line) {
        Some(Kind::BasicSchedule) => line.field(33) == identity,
        Some(Kind::ChangeEnRoute) => line.field(13) == identity,
        _ => false,
    }
}
