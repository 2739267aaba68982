//! The calls that base trains make at a place. The calls of the base train that was looked up last
//! are remembered.
ghost use Rattle.std.specs.Prelude.{◌≡◌, ℕ, List, IfOk, IfSome};
ghost use Rattle.std.specs.BTreeMap.{get};
ghost use Rattle.std.specs.Ordering.{nat_cmp};
ghost use Rattle.docker_model.specs.state.Row.{Row, AreRowsOf};
ghost use Rattle.docker_laws.specs.LiveRows.{train_in};
ghost use Rattle.docker_day.specs.Bases.{AreKnownCalls, first_call, meant_if};
ghost use Rattle.docker_state.specs.Timetables.{live_in};
ghost use Rattle.train_choice.specs.Known.{PlaceDay};

use crate::base_calls::{BaseCalls, first_calls};
use crate::first_event::FirstEvent;
use cif_line::{Day, Memory, Tiploc, Uid};
use docker_state::Timetable;
use std::alloc::Global;
use std::collections::BTreeMap;
use std::marker::Model;
use train_choice::{Occurrence, train_on};

/// The calls that the base trains of one start day make at a place. The calls of the train that was
/// looked up last are remembered. In a walk over a state's rows, all associations of a base train
/// are consecutive, so each base train's lines are read only once.
#[derive(Debug, Drop)]
pub(crate) struct Bases<'a> {
    alloc: Global,
    timetable: Timetable<'a>,
    place: Tiploc,
    day: Day,
    last: Option<BaseCalls<'a>>,
}

impl<'a> Model for Bases<'a> {
    ghost Value = { PlaceDay };

    ghost view = { λ bases. record {
      timetable = bases.timetable;
      place = bases.place;
      day = bases.day;
    } };

    ghost invariant = { λ bases.
        AreKnownCalls (live_in bases.timetable) bases.place bases.day bases.last };
}

impl<'a> Bases<'a> {
    /// The calls that the trains of one start day make at a place. No train has been looked up yet.
    pub(crate) fn at(
        alloc: Global,
        timetable: &Timetable<'a>,
        place: &Tiploc,
        day: Day,
    ) -> Bases<'a>
        ensures { result ≡ record {
          timetable = timetable.entry.now;
          place = place.now;
          day = day;
        } }
    {
        Bases {
            alloc,
            timetable: timetable.again(),
            place: *place,
            day,
            last: None,
        }
    }

    /// The first event of a train's call with this suffix at the place. Returns `None` if the train
    /// has no call with this suffix, or if the train doesn't run. Returns `Memory` if there is no
    /// room for the train's calls.
    pub(crate) fn first_call(
        &mut self,
        uid: &Uid,
        suffix: u8,
    ) -> Result<Option<Occurrence<'a>>, Memory>
        ensures same { self.new ≡ self.old }
        ensures event { IfOk result (λ event. (rows : List Row)
            → AreRowsOf (live_in self.old.timetable) rows → meant_if event
            ≡ first_call (train_in rows uid.now self.old.day) self.old.place suffix) }
    {
        match self.known(uid, suffix) {
            Some(event) => Ok(event),
            None => self.look_up(uid, suffix),
        }
    }

    /// The first event of the call, if this train was looked up last. The outer `None` means that
    /// no train or another train was looked up last. The inner `None` means that the train has no
    /// call with this suffix.
    fn known(&self, uid: &Uid, suffix: u8) -> Option<Option<Occurrence<'a>>>
        ensures { IfSome result (λ event. (rows : List Row)
            → AreRowsOf (live_in self.now.timetable) rows → meant_if event
            ≡ first_call (train_in rows uid.now self.now.day) self.now.place suffix) }
    {
        match &self.last {
            Some(last) => last.asked(uid, suffix),
            None => None,
        }
    }

    /// Like `first_call`, but always walks over the train's lines. Remembers the train's calls.
    fn look_up(&mut self, uid: &Uid, suffix: u8) -> Result<Option<Occurrence<'a>>, Memory>
        ensures same { self.new ≡ self.old }
        ensures event { IfOk result (λ event. (rows : List Row)
            → AreRowsOf (live_in self.old.timetable) rows → meant_if event
            ≡ first_call (train_in rows uid.now self.old.day) self.old.place suffix) }
    {
        let calls = calls_of(self.alloc, &self.timetable, uid, &self.place, self.day)?;
        let last = BaseCalls { uid: *uid, calls };
        let event = last.first(suffix);
        self.last = Some(last);
        Ok(event)
    }
}

/// Looks up the train of a UID that starts on a day, and returns its calls at a place, each with
/// its first event.
fn calls_of<'a>(
    alloc: Global,
    timetable: &Timetable<'a>,
    uid: &Uid,
    place: &Tiploc,
    day: Day,
) -> Result<BTreeMap<u8, FirstEvent<'a>>, Memory>
    ensures { IfOk result (λ calls. (suffix : ℕ) (rows : List Row)
        → AreRowsOf (live_in timetable.now) rows
        → get nat_cmp calls suffix
        ≡ first_call (train_in rows uid.now day) place.now suffix) }
{
    match train_on(timetable, uid, day) {
        Some(train) => first_calls(alloc, train.events(), place),
        None => Ok(BTreeMap::new(alloc)),
    }
}
