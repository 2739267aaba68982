//! A visit: the trains of one start day that may be at a place on a day, with the data that is
//! looked up for them.
ghost use Rattle.std.specs.Prelude.{◌≡◌, ◌≤◌, true, List, IfOk};
ghost use Rattle.docker_model.specs.file.File.{first_record};
ghost use Rattle.docker_model.specs.state.Row.{Row, AreRowsOf};
ghost use Rattle.docker_model.specs.docker.Choice.{group_of, schedule_runs};
ghost use Rattle.docker_laws.specs.Gathering.{counts_as, identity_of, runs_by};
ghost use Rattle.docker_laws.specs.LiveRows.{train_in, link_in};
ghost use Rattle.train_choice.specs.Along.{IsLiveTrain};
ghost use Rattle.cif_change.specs.Meaning.{association_key_meant};
ghost use Rattle.docker_day.specs.Bases.{first_call, meant_if};
ghost use Rattle.docker_day.specs.Visits as visits;
ghost use Rattle.docker_day.specs.Visits.{IsOnePlace};
ghost use Rattle.docker_state.specs.Timetables.{live_in};

use crate::bases::Bases;
use cif_change::AssocKey;
use cif_line::{Day, Memory, Tiploc, Uid};
use docker_state::Timetable;
use std::alloc::Global;
use std::marker::Model;
use train_choice::{DayLinks, DayTrains, Identities, Occurrence, ScheduleView};

/// A visit: the trains that start on one day, and may be at a place on that day or a later day.
/// Whatever is looked up for these trains is remembered: the trains and associations chosen on the
/// start day, the calls of base trains, and the identities of associated trains. So each row is
/// read only once, even if many rows need it.
#[derive(Debug, Drop)]
pub(crate) struct Visit<'a> {
    place: Tiploc,
    day: Day,
    start: Day,
    trains: DayTrains<'a>,
    links: DayLinks<'a>,
    bases: Bases<'a>,
    identities: Identities<'a>,
}

impl<'a> Model for Visit<'a> {
    ghost Value = { visits.Visit };

    ghost view = { λ visit. record {
      timetable = visit.identities;
      place = visit.place;
      day = visit.day;
      start = visit.start;
    } };

    ghost invariant = { λ visit. IsOnePlace visit.identities visit.place visit.day visit.start
        visit.trains visit.links visit.bases };
}

impl<'a> Visit<'a> {
    /// The visit for the trains that start on `start`. Returns `Memory` if there is no room for the
    /// associations chosen on that day.
    pub(crate) fn of(
        alloc: Global,
        timetable: &Timetable<'a>,
        place: &Tiploc,
        day: Day,
        start: Day,
    ) -> Result<Visit<'a>, Memory>
        requires past { start ≤ day }
        ensures { IfOk result (λ visit. visit ≡ record {
          timetable = timetable.entry.now;
          place = place.now;
          day = day;
          start = start;
        }) }
    {
        Ok(Visit {
            place: *place,
            day,
            start,
            trains: DayTrains::of(timetable, start),
            links: DayLinks::at(alloc, timetable, place, start)?,
            bases: Bases::at(alloc, timetable, place, start),
            identities: Identities::of(alloc, timetable),
        })
    }

    /// The place.
    pub(crate) fn place(&self) -> &Tiploc
        ensures { result.now ≡ self.now.place }
    {
        &self.place
    }

    /// The day of the docker.
    pub(crate) fn day(&self) -> Day
        ensures { result ≡ self.now.day }
    {
        self.day
    }

    /// The day on which the trains start.
    pub(crate) fn start(&self) -> Day
        ensures start { result ≡ self.now.start }
        ensures past { self.now.start ≤ self.now.day }
    {
        self.start
    }

    /// Whether a train runs according to this schedule. It does if the schedule is the one chosen
    /// for its UID on the start day, and isn't a cancellation. The schedule has to run on that day.
    /// `row` is the index of its row.
    pub(crate) fn runs_by(&mut self, row: usize, train: &ScheduleView<'a>) -> bool
        requires live { IsLiveTrain (live_in self.old.timetable) train.now }
        requires runs { schedule_runs (first_record train.now.lines) self.old.start ≡ true }
        ensures same { self.new ≡ self.old }
        ensures answer { (rows : List Row) → AreRowsOf (live_in self.old.timetable) rows
            → result ≡ runs_by (train_in rows train.now.key.uid self.old.start) train.now.key }
    {
        self.trains.runs_by(row, train)
    }

    /// Whether this association at the place is the association chosen in its group on the start
    /// day.
    pub(crate) fn counts(&self, key: &AssocKey) -> bool
        requires { key.now.location ≡ self.now.place }
        ensures { (rows : List Row) → AreRowsOf (live_in self.now.timetable) rows → result
            ≡ counts_as (link_in rows (group_of (association_key_meant key.now)) self.now.start)
            (association_key_meant key.now) }
    {
        self.links.counts(key)
    }

    /// The first event of a train's call with this suffix at the place. Returns `None` if the train
    /// has no call with this suffix, or if the train doesn't run on the start day. Returns `Memory`
    /// if there is no room for the train's calls.
    pub(crate) fn first_call(
        &mut self,
        uid: &Uid,
        suffix: u8,
    ) -> Result<Option<Occurrence<'a>>, Memory>
        ensures same { self.new ≡ self.old }
        ensures event { IfOk result (λ event. (rows : List Row)
            → AreRowsOf (live_in self.old.timetable) rows → meant_if event
            ≡ first_call (train_in rows uid.now self.old.start) self.old.place suffix) }
    {
        self.bases.first_call(uid, suffix)
    }

    /// The identity of the train of a UID that starts on a day. Returns four question marks if that
    /// train doesn't run, and `Memory` if there is no room to store the identity.
    pub(crate) fn identity(&mut self, uid: &Uid, day: Day) -> Result<[u8; 4], Memory>
        ensures same { self.new ≡ self.old }
        ensures identity { IfOk result (λ identity. (rows : List Row)
            → AreRowsOf (live_in self.old.timetable) rows
            → identity ≡ identity_of (train_in rows uid.now day)) }
    {
        self.identities.identity(uid, day)
    }
}
