//! The visits for a place and a day: one visit for each start day of the trains that may be at the
//! place on that day.
ghost use Rattle.std.specs.Prelude.{◌≡◌, IfOk};
ghost use Rattle.train_choice.specs.Known.{PlaceDay};
ghost use Rattle.docker_day.specs.Visits.{AreVisits, visit_back};

use crate::visit::Visit;
use cif_line::{Day, Memory, Tiploc};
use docker_state::Timetable;
use std::alloc::Global;
use std::marker::Model;
use train_choice::day_back;

/// The visits for a place and a day. One visit is for the trains that start on that day. The other
/// visits are for the trains that start one and two days before it, if these days exist.
#[derive(Debug, Drop)]
pub(crate) struct Visits<'a> {
    pub(crate) today: Visit<'a>,
    pub(crate) day_before: Option<Visit<'a>>,
    pub(crate) two_before: Option<Visit<'a>>,
}

impl<'a> Model for Visits<'a> {
    ghost Value = { PlaceDay };

    ghost view = { λ visits. record {
      timetable = visits.today.timetable;
      place = visits.today.place;
      day = visits.today.day;
    } };

    ghost invariant = { λ visits. AreVisits
        (record {
          timetable = visits.today.timetable;
          place = visits.today.place;
          day = visits.today.day;
        })
        visits.today visits.day_before visits.two_before };
}

impl<'a> Visits<'a> {
    /// The visits for a place and a day. Returns `Memory` if there is no room for the associations
    /// chosen on the start days.
    pub(crate) fn at(
        alloc: Global,
        timetable: &Timetable<'a>,
        place: &Tiploc,
        day: Day,
    ) -> Result<Visits<'a>, Memory>
        ensures { IfOk result (λ visits. visits
            ≡ record { timetable = timetable.entry.now; place = place.now; day = day }) }
    {
        Ok(Visits {
            today: Visit::of(alloc, timetable, place, day, day)?,
            day_before: visit_back(alloc, timetable, place, day, 1)?,
            two_before: visit_back(alloc, timetable, place, day, 2)?,
        })
    }

    /// The place.
    pub(crate) fn place(&self) -> &Tiploc
        ensures { result.now ≡ self.now.place }
    {
        self.today.place()
    }

    /// The day of the docker.
    pub(crate) fn day(&self) -> Day
        ensures { result ≡ self.now.day }
    {
        self.today.day()
    }
}

/// The visit for the trains that start `back` days before the day. Returns `None` if the start day
/// would be before day 0, and `Memory` if there is no room for the associations chosen on that
/// start day.
fn visit_back<'a>(
    alloc: Global,
    timetable: &Timetable<'a>,
    place: &Tiploc,
    day: Day,
    back: u16,
) -> Result<Option<Visit<'a>>, Memory>
    ensures { IfOk result (λ visit. visit ≡ visit_back
        (record { timetable = timetable.entry.now; place = place.now; day = day }) back) }
{
    match day_back(day, back) {
        Some(start) => Ok(Some(Visit::of(alloc, timetable, place, day, start)?)),
        None => Ok(None),
    }
}
