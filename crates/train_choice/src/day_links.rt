//! The associations that are chosen at a place on a start day.
ghost use Rattle.std.specs.Prelude.{◌≡◌, List, None, IfOk, OnOk, option_map};
ghost use Rattle.std.specs.BTreeMap.{get};
ghost use Rattle.std.specs.Option.{option_copied};
ghost use Rattle.cif_change.specs.Meaning.{key_meant, body_meant, association_key_meant};
ghost use Rattle.docker_model.specs.docker.Choice.{Group, group_of};
ghost use Rattle.docker_laws.specs.ChoiceWalk.{next_link};
ghost use Rattle.docker_laws.specs.Gathering.{counts_as};
ghost use Rattle.docker_laws.specs.LiveRows.{Link, link_in};
ghost use Rattle.docker_model.specs.state.Row.{Row, AreRowsOf};
ghost use Rattle.docker_model.specs.state.State.{IsBodyOf};
ghost use Rattle.train_choice.specs.Along.{link_along, AreGoodRows};
ghost use Rattle.train_choice.specs.Known.{group_cmp, HasOneMore, PlaceDay, AreDayLinks};
ghost use Rattle.docker_state.specs.Timetables.{live_in};

use crate::link_group::LinkGroup;
use crate::link_view::LinkView;
use crate::ranked::is_better;
use crate::rows::association_of;
use crate::walks::associations_at;
use cif_change::{AssocKey, Body, Key};
use cif_line::{Day, Line, Memory, Tiploc, Uid};
use docker_state::{Timetable, TimetableRows};
use std::alloc::Global;
use std::collections::BTreeMap;
use std::marker::Model;

/// The associations chosen at a place on a start day of their base trains, one for each group. Of a
/// group's associations that run on the day, the one whose STP indicator is first in the alphabet
/// is chosen. If several have this indicator, the one with the latest first date is chosen. All
/// chosen associations are found in one walk over the associations at the place.
#[derive(Debug, Drop)]
pub struct DayLinks<'a> {
    timetable: Timetable<'a>,
    place: Tiploc,
    day: Day,
    best: BTreeMap<LinkGroup, LinkView<'a>>,
}

impl<'a> Model for DayLinks<'a> {
    ghost Value = { PlaceDay };

    ghost view = { λ links. record {
      timetable = links.timetable;
      place = links.place;
      day = links.day;
    } };

    ghost invariant = { λ links.
        AreDayLinks (live_in links.timetable) links.place links.day links.best };
}

impl<'a> DayLinks<'a> {
    /// Finds the associations chosen at a place on a start day. Returns `Memory` if there is no
    /// room for them.
    pub fn at(
        alloc: Global,
        timetable: &Timetable<'a>,
        place: &Tiploc,
        day: Day,
    ) -> Result<DayLinks<'a>, Memory>
        ensures { IfOk result (λ links. links
            ≡ record { timetable = timetable.entry.now; place = place.now; day = day }) }
    {
        let best = best_of(alloc, associations_at(timetable, place), day)?;
        Ok(DayLinks {
            timetable: timetable.again(),
            place: *place,
            day,
            best,
        })
    }

    /// Whether this association at the place is the association chosen in its group.
    pub fn counts(&self, key: &AssocKey) -> bool
        requires { key.now.location ≡ self.now.place }
        ensures { (rows : List Row) → AreRowsOf (live_in self.now.timetable) rows → result
            ≡ counts_as (link_in rows (group_of (association_key_meant key.now)) self.now.day)
            (association_key_meant key.now) }
    {
        match self.best.get(&LinkGroup::of(key)) {
            Some(link) => link.key().cmp(key).is_eq(),
            None => false,
        }
    }

    /// The record of the association that is chosen for a base train, an associated train and a
    /// suffix at the place. Returns `None` if no association is chosen for them.
    pub fn record(&self, base: &Uid, associated: &Uid, suffix: u8) -> Option<&'a Line>
        ensures { (rows : List Row) → AreRowsOf (live_in self.now.timetable) rows
            → option_copied result ≡ option_map (λ (link : Link). link.line) (link_in rows (record {
              base = base.now;
              associated = associated.now;
              location = self.now.place;
              suffix = suffix;
            }) self.now.day) }
    {
        let group = LinkGroup::at(base, associated, &self.place, suffix);
        match self.best.get(&group) {
            Some(link) => Some(link.line()),
            None => None,
        }
    }
}

/// Returns the best association of each group in these rows.
fn best_of<'a>(
    alloc: Global,
    rows: TimetableRows<'a>,
    day: Day,
) -> Result<BTreeMap<LinkGroup, LinkView<'a>>, Memory>
    requires { AreGoodRows rows }
    ensures { IfOk result (λ best. (group : Group) → get group_cmp best group
        ≡ link_along group day None rows.entry) }
{
    let mut best = BTreeMap::new(alloc);
    for (_, key, body) in rows {
        add_row(&mut best, key, body, day)?;
    }
    Ok(best)
}

/// Updates the best associations with one more row.
fn add_row<'a>(
    best: &mut BTreeMap<LinkGroup, LinkView<'a>>,
    key: &'a Key,
    body: &'a Body,
    day: Day,
) -> Result<(), Memory>
    requires { IsBodyOf (key_meant key.now) (body_meant body.now) }
    ensures { OnOk result ((group : Group) → get group_cmp best.new group
        ≡ next_link group day (get group_cmp best.old group) (key_meant key.entry.now)
        (body_meant body.entry.now)) }
{
    match association_of(key, body) {
        Some(link) => add(best, link, day),
        None => Ok(()),
    }
}

/// Updates the best associations with one more association.
fn add<'a>(
    best: &mut BTreeMap<LinkGroup, LinkView<'a>>,
    link: LinkView<'a>,
    day: Day,
) -> Result<(), Memory>
    ensures { OnOk result (HasOneMore day best.old link.entry best.new) }
{
    if !link.runs_on(day) {
        return Ok(());
    }
    let group = LinkGroup::of(link.key());
    if !is_better(&link, best.get(&group)) {
        return Ok(());
    }
    best.insert(group, link)?;
    Ok(())
}
