//! The records of the associations that are chosen at a place. The associations that were looked up
//! last are remembered.
ghost use Rattle.std.specs.Prelude.{◌≡◌, ℕ, List, IfOk, IfSome};
ghost use Rattle.std.specs.Option.{option_copied};
ghost use Rattle.docker_model.specs.state.Row.{Row, AreRowsOf};
ghost use Rattle.docker_model.specs.docker.DockerLine.{partner};
ghost use Rattle.docker_laws.specs.LiveRows.{link_in};
ghost use Rattle.docker_state.specs.Timetables.{live_in};
ghost use Rattle.docker_detail.specs.Finding.{association_by};
ghost use Rattle.docker_detail.specs.Known.{AtPlace, MayBeKnownLinks};

use cif_line::{Day, Line, Memory, Tiploc, Uid};
use docker_day::{Detail, DockerLine};
use docker_state::Timetable;
use std::alloc::Global;
use std::marker::Model;
use train_choice::DayLinks;

/// The associations that are chosen at a place on a start day of their base trains.
#[derive(Debug, Drop)]
pub(crate) struct KnownLinks<'a> {
    day: Day,
    links: DayLinks<'a>,
}

/// The records of the associations that are chosen at a place. The associations of the start day
/// that was looked up last are remembered. So if the associations of each start day are asked for
/// one after the other, the associations at the place are read only once for each start day.
#[derive(Debug, Drop)]
pub(crate) struct LinkRecords<'a> {
    alloc: Global,
    timetable: Timetable<'a>,
    place: Tiploc,
    known: Option<KnownLinks<'a>>,
}

impl<'a> Model for LinkRecords<'a> {
    ghost Value = { AtPlace };

    ghost view = { λ records. record {
      timetable = records.timetable;
      place = records.place;
    } };

    ghost invariant = { λ records.
        MayBeKnownLinks records.timetable records.place records.known };
}

impl<'a> LinkRecords<'a> {
    /// The records of the associations that are chosen at a place. No association has been looked
    /// up yet.
    pub(crate) fn at(alloc: Global, timetable: &Timetable<'a>, place: &Tiploc) -> LinkRecords<'a>
        ensures { result ≡ record { timetable = timetable.entry.now; place = place.now } }
    {
        LinkRecords {
            alloc,
            timetable: timetable.again(),
            place: *place,
            known: None,
        }
    }

    /// The record of the association that belongs to a docker line. Returns `None` for the line of an
    /// event, and `Memory` if there is no room for the chosen associations.
    pub(crate) fn of_line(&mut self, line: &DockerLine<'_>) -> Result<Option<&'a Line>, Memory>
        ensures same { self.new ≡ self.old }
        ensures record { IfOk result (λ found. (rows : List Row)
            → AreRowsOf (live_in self.old.timetable) rows → option_copied found
            ≡ association_by (link_in rows) line.now.uid line.now.suffix line.now.start
            self.old.place line.now.detail) }
    {
        match line.detail() {
            Detail::Ends { .. } => Ok(None),
            Detail::Partner { uid, .. } => {
                self.of_pair(&line.uid(), &uid, line.suffix(), line.start())
            }
        }
    }

    /// The record of the association that is chosen for two trains and a suffix on a start day of
    /// the base train.
    fn of_pair(
        &mut self,
        base: &Uid,
        associated: &Uid,
        suffix: u8,
        start: Day,
    ) -> Result<Option<&'a Line>, Memory>
        ensures same { self.new ≡ self.old }
        ensures record { IfOk result (λ found. (rows : List Row)
            → AreRowsOf (live_in self.old.timetable) rows → (identity : List ℕ)
            → option_copied found ≡ association_by (link_in rows) base.now suffix start
            self.old.place (partner associated.now identity)) }
    {
        match self.known_pair(base, associated, suffix, start) {
            Some(record) => Ok(record),
            None => self.look_up(base, associated, suffix, start),
        }
    }

    /// The record of the association, if the associations of this start day were looked up last.
    fn known_pair(
        &self,
        base: &Uid,
        associated: &Uid,
        suffix: u8,
        start: Day,
    ) -> Option<Option<&'a Line>>
        ensures { IfSome result (λ found. (rows : List Row)
            → AreRowsOf (live_in self.now.timetable) rows → (identity : List ℕ)
            → option_copied found ≡ association_by (link_in rows) base.now suffix start
            self.now.place (partner associated.now identity)) }
    {
        match &self.known {
            Some(known) => known.asked(base, associated, suffix, start),
            None => None,
        }
    }

    /// Like `of_pair`, but always looks up the associations of the start day. Remembers them.
    fn look_up(
        &mut self,
        base: &Uid,
        associated: &Uid,
        suffix: u8,
        start: Day,
    ) -> Result<Option<&'a Line>, Memory>
        ensures same { self.new ≡ self.old }
        ensures record { IfOk result (λ found. (rows : List Row)
            → AreRowsOf (live_in self.old.timetable) rows → (identity : List ℕ)
            → option_copied found ≡ association_by (link_in rows) base.now suffix start
            self.old.place (partner associated.now identity)) }
    {
        let links = DayLinks::at(self.alloc, &self.timetable, &self.place, start)?;
        let record = links.record(base, associated, suffix);
        self.known = Some(KnownLinks { day: start, links });
        Ok(record)
    }
}

impl<'a> KnownLinks<'a> {
    /// The record of the association that is chosen for two trains and a suffix. The outer `None`
    /// means that these are the associations of another start day.
    fn asked(
        &self,
        base: &Uid,
        associated: &Uid,
        suffix: u8,
        start: Day,
    ) -> Option<Option<&'a Line>>
        ensures { IfSome result (λ found. self.now.day ≡ start × ((rows : List Row)
            → AreRowsOf (live_in self.now.links.timetable) rows → (identity : List ℕ)
            → option_copied found ≡ association_by (link_in rows) base.now suffix
            self.now.links.day self.now.links.place (partner associated.now identity))) }
    {
        if self.day == start {
            Some(self.links.record(base, associated, suffix))
        } else {
            None
        }
    }
}
