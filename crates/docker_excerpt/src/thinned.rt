//! The changes of a file that are kept for the docker of one place on one day.
ghost use Rattle.std.specs.Prelude.{◌≡◌, ℕ, [], List, true, OnOk};
ghost use Rattle.docker_model.specs.file.Change as model;
ghost use Rattle.docker_model.specs.file.Change.{delete};
ghost use Rattle.docker_laws.specs.Thinning.{may_matter, thin_act, thin_change};
ghost use Rattle.cif_change.specs.Meaning.{change_meant, key_meant};
ghost use Rattle.cif_file.specs.SingleChanges.{PutNoSchedules, PutsNoSchedule, listed};
ghost use Rattle.docker_excerpt.specs.Elsewhere.{elsewhere_meant};
ghost use Rattle.docker_excerpt.specs.ThinKept.{has_key, with_keys, KnowsMore, HasThinned, Thins, ThinsAll, ThinsOpened};

use crate::elsewhere::Elsewhere;
use crate::needs::may_matter;
use crate::reach::may_call_on;
use cif_change::{Act, Body, Change, Key, ScheduleKey};
use cif_file::{Opened, SingleChanges, body_of};
use cif_line::{Day, Line, Tiploc};
use std::alloc::{AllocError, Global};
use std::collections::BTreeSet;

/// The changes that are kept for the docker of one place on one day, and the set of the keys of
/// their schedules. A schedule without an event at the place on the day is in `elsewhere`, without a
/// body. All other changes are in `made`.
#[derive(Debug, Drop)]
pub(crate) struct Thinned {
    alloc: Global,
    pub(crate) place: Tiploc,
    pub(crate) day: Day,
    keys: BTreeSet<ScheduleKey>,
    pub(crate) made: Vec<Change>,
    pub(crate) elsewhere: Vec<Elsewhere>,
}

impl Thinned {
    /// A `Thinned` that has kept nothing yet.
    pub(crate) fn new(alloc: Global, place: Tiploc, day: Day) -> Thinned
        ensures { HasThinned place day result [] }
    {
        Thinned {
            alloc,
            place,
            day,
            keys: BTreeSet::new(alloc),
            made: Vec::new(alloc),
            elsewhere: Vec::new(alloc),
        }
    }

    /// The day of the docker.
    pub(crate) fn day(&self) -> Day
        ensures { result ≡ self.now.day }
    {
        self.day
    }

    /// Whether a change to this schedule was kept. In most extracts the changes are nearly sorted by
    /// key. So the function first compares the key with the greatest kept key, which needs no
    /// search.
    fn has_kept(&self, key: &ScheduleKey) -> bool
        ensures { result ≡ has_key self.now.keys key.now }
    {
        let Some(greatest) = self.keys.last() else {
            return false;
        };
        if greatest.cmp(key).is_lt() {
            return false;
        }
        self.keys.contains(key)
    }

    /// Adds a key to the set if it is the key of a schedule.
    fn know(&mut self, key: &Key) -> Result<(), AllocError>
        ensures known { OnOk result (KnowsMore self.old.keys (key_meant key.now) self.new.keys) }
        ensures same { self.new ≡ with_keys self.old self.new.keys }
    {
        let Key::Schedule(schedule) = key else {
            return Ok(());
        };
        match self.keys.insert(*schedule) {
            Ok(_) => Ok(()),
            Err(_) => Err(AllocError),
        }
    }

    /// Appends a change that is to be kept, and adds its key to the set if it is the key of a
    /// schedule. The change already contains only what the docker may need.
    fn keep(&mut self, change: Change) -> Result<(), AllocError>
        ensures { OnOk result ((place : List ℕ) (day : ℕ) (whole : model.Change)
            → may_matter place whole.key ≡ true
            → thin_change place day whole ≡ change_meant change
            → Thins place day self.old whole self.new) }
    {
        self.know(&change.key)?;
        self.made.push(change)?;
        Ok(())
    }

    /// Keeps a schedule without an event at the place on the day, and adds its key to the set.
    fn keep_elsewhere(&mut self, schedule: Elsewhere) -> Result<(), AllocError>
        ensures { OnOk result ((place : List ℕ) (day : ℕ) (whole : model.Change)
            → may_matter place whole.key ≡ true
            → thin_change place day whole ≡ elsewhere_meant place schedule
            → Thins place day self.old whole self.new) }
    {
        self.know(&Key::Schedule(schedule.key))?;
        self.elsewhere.push(schedule)?;
        Ok(())
    }

    /// Keeps the change of a TIPLOC or an association unaltered if the change's key may matter at
    /// the place. Drops the change otherwise.
    fn add(&mut self, change: Change) -> Result<(), AllocError>
        ensures { OnOk result (PutsNoSchedule (change_meant change)
            → (place : List ℕ) (day : ℕ) → Thins place day self.old (change_meant change) self.new) }
    {
        if !may_matter(&self.place, &change.key) {
            return Ok(());
        }
        self.keep(change)
    }

    /// Keeps or drops the one or two changes of a record that is a unit by itself.
    pub(crate) fn add_single(&mut self, changes: SingleChanges) -> Result<(), AllocError>
        requires { PutNoSchedules changes }
        ensures { OnOk result ((place : List ℕ) (day : ℕ)
            → ThinsAll place day self.old (listed changes) self.new) }
    {
        let SingleChanges { first, last } = changes;
        match first {
            None => self.add(last),
            Some(change) => {
                self.add(change)?;
                self.add(last)
            }
        }
    }

    /// Receives a change after which the docker doesn't need the schedule with this key. If an
    /// earlier change to the key was kept, a deletion is kept. Otherwise nothing is kept.
    fn delete(&mut self, number: u32, key: ScheduleKey) -> Result<(), AllocError>
        ensures { OnOk result ((place : List ℕ) (day : ℕ) (whole : model.Change)
            → whole.number ≡ number → whole.key ≡ key_meant (Key.Schedule key)
            → may_matter place whole.key ≡ true → thin_act place day whole.act ≡ delete
            → Thins place day self.old whole self.new) }
    {
        if !self.has_kept(&key) {
            return Ok(());
        }
        self.keep(Change {
            number,
            key: Key::Schedule(key),
            act: Act::Delete,
        })
    }

    /// Receives the change of a schedule with these lines. `runs_near` says whether the
    /// schedule runs near the day, and has no meaning for a deletion.
    pub(crate) fn add_opened(
        &mut self,
        opened: Opened,
        runs_near: bool,
        lines: &[Line],
    ) -> Result<(), AllocError>
        ensures { OnOk result ((place : List ℕ) (day : ℕ)
            → ThinsOpened place day self.old opened runs_near lines.now self.new) }
    {
        if opened.progress.is_deletion() | !runs_near {
            return self.delete(opened.number, opened.key);
        }
        if may_call_on(&self.place, self.day, lines) {
            let body = body_of(self.alloc, lines)?;
            return self.keep(Change {
                number: opened.number,
                key: Key::Schedule(opened.key),
                act: Act::Put(Body::Schedule(body)),
            });
        }
        let Some(basic) = lines.first() else {
            return Ok(());
        };
        self.keep_elsewhere(Elsewhere {
            number: opened.number,
            key: opened.key,
            basic: *basic,
        })
    }
}
