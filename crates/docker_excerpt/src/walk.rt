//! Walks over a state's entries and keeps the entries from which the dockers of a place are made.
ghost use Rattle.std.specs.Prelude.{◌≡◌, ◌<◌, ℕ, List, [], ◌∷◌, ◌++◌, map, true, false, vec_len, vec_capacity, if◌then◌else◌, IsOk, IsErr, IfOk};
ghost use Rattle.std.specs.List.Sorted.{IsSorted};
ghost use Rattle.docker_model.specs.state.Order.{bytes_cmp};
ghost use Rattle.docker_model.specs.state.State as states;
ghost use Rattle.docker_model.specs.state.StatePart.{IsAboveEntries};
ghost use Rattle.docker_laws.specs.ExcerptWalk.{has_uid, goes_on, excerpt_for};
ghost use Rattle.cif_change.specs.Meaning.{key_meant};
ghost use Rattle.docker_join.specs.Meaning.{entry_meant, row_meant};
ghost use Rattle.docker_excerpt.specs.Walked.{state_of_entries};
ghost use Rattle.docker_excerpt.specs.ExcerptWalk.{HasWalked};

use crate::needs::{goes_on, has_name, is_here, is_needed_with, name_in};
use cif_change::{Key, ScheduleKey};
use cif_line::{Memory, Tiploc, Uid};
use state_text::{Entry, Given};
use std::alloc::Global;

/// The entries that a walk has kept. `run` has the schedules of the current UID, which are later
/// kept or dropped as a whole.
#[derive(Debug, Drop)]
pub(crate) struct ExcerptWalk {
    place: Tiploc,
    kept: Vec<(Key, Entry)>,
    run: Vec<(Key, Entry)>,
    // whether the schedules in `run` are needed: their UID is in `names`, or one of them calls at
    // the place
    needed: bool,
    // the UIDs of the associated trains of the associations in `kept`, sorted when the walk comes
    // to the first schedule
    names: Vec<Uid>,
}

impl ExcerptWalk {
    /// A walk that hasn't passed any entries yet. The call allocates nothing.
    pub(crate) fn new(alloc: Global, place: Tiploc) -> ExcerptWalk
        ensures walked { HasWalked result [] }
        ensures place { result.place ≡ place }
    {
        ExcerptWalk {
            place,
            kept: Vec::new(alloc),
            run: Vec::new(alloc),
            needed: false,
            names: Vec::new(alloc),
        }
    }

    /// The place of the excerpt.
    pub(crate) fn place(&self) -> Tiploc
        ensures { result ≡ self.now.place }
    {
        self.place
    }

    /// Moves past the next entry, which has this key. If memory runs out, the entry is dropped and
    /// doesn't count as passed.
    pub(crate) fn entry(&mut self, given: &Given, key: Key, entry: Entry) -> Result<(), Memory>
        requires walked { HasWalked self.old given.now.entries }
        requires above { IsAboveEntries (state_of_entries given.now.entries) (key_meant key) }
        ensures ok { IsOk result → HasWalked self.new
            (given.now.entries ++ (key_meant key, entry_meant entry) ∷ []) }
        ensures err { IsErr result → HasWalked self.new given.now.entries }
        ensures place { self.new.place ≡ self.old.place }
    {
        match key {
            Key::Tiploc(_) => self.single(given, key, entry),
            Key::Assoc(_) => self.single(given, key, entry),
            Key::Schedule(schedule) => self.schedule(given, schedule, entry),
        }
    }

    /// Moves past a TIPLOC or an association. The entry is kept if it is at the place.
    fn single(&mut self, given: &Given, key: Key, entry: Entry) -> Result<(), Memory>
        requires walked { HasWalked self.old given.now.entries }
        requires above { IsAboveEntries (state_of_entries given.now.entries) (key_meant key) }
        requires alone { (uid : List ℕ) → has_uid uid (key_meant key) ≡ false }
        ensures ok { IsOk result → HasWalked self.new
            (given.now.entries ++ (key_meant key, entry_meant entry) ∷ []) }
        ensures err { IsErr result → HasWalked self.new given.now.entries }
        ensures place { self.new.place ≡ self.old.place }
    {
        if !is_here(&self.place, &key) {
            return Ok(());
        }
        self.kept.reserve(1)?;
        if let Some(name) = name_in(&key, &entry.op) {
            self.names.push(name)?;
        }
        self.kept.push_reserved((key, entry));
        Ok(())
    }

    /// Moves past a schedule, which may have the UID of the schedules in `run` or another UID.
    fn schedule(&mut self, given: &Given, key: ScheduleKey, entry: Entry) -> Result<(), Memory>
        requires { HasWalked self.old given.now.entries }
        ensures ok { IsOk result → HasWalked self.new
            (given.now.entries ++ (key_meant (Key.Schedule key), entry_meant entry) ∷ []) }
        ensures err { IsErr result → HasWalked self.new given.now.entries }
        ensures place { self.new.place ≡ self.old.place }
    {
        if goes_on(self.run.as_slice(), &key.uid) {
            self.join(given, key, entry)
        } else {
            self.begin(given, key, entry)
        }
    }

    /// Adds a schedule to `run`, which has schedules of the same UID.
    fn join(&mut self, given: &Given, key: ScheduleKey, entry: Entry) -> Result<(), Memory>
        requires walked { HasWalked self.old given.now.entries }
        requires same { goes_on (map row_meant self.old.run.items) key.uid ≡ true }
        ensures ok { IsOk result → HasWalked self.new
            (given.now.entries ++ (key_meant (Key.Schedule key), entry_meant entry) ∷ []) }
        ensures err { IsErr result → HasWalked self.new given.now.entries }
        ensures place { self.new.place ≡ self.old.place }
    {
        let needed = is_needed_with(self.needed, &self.place, &entry.op);
        self.run.push((Key::Schedule(key), entry))?;
        self.needed = needed;
        Ok(())
    }

    /// Keeps or drops the schedules in `run`, and then puts a schedule of another UID into `run`.
    fn begin(&mut self, given: &Given, key: ScheduleKey, entry: Entry) -> Result<(), Memory>
        requires walked { HasWalked self.old given.now.entries }
        requires other { goes_on (map row_meant self.old.run.items) key.uid ≡ false }
        ensures ok { IsOk result → HasWalked self.new
            (given.now.entries ++ (key_meant (Key.Schedule key), entry_meant entry) ∷ []) }
        ensures err { IsErr result → HasWalked self.new given.now.entries }
        ensures place { self.new.place ≡ self.old.place }
    {
        self.run.reserve(1)?;
        self.sort_names(given);
        let named = has_name(self.names.as_slice(), &key.uid);
        let needed = is_needed_with(named, &self.place, &entry.op);
        self.end_run()?;
        self.needed = needed;
        self.run.push_reserved((Key::Schedule(key), entry));
        Ok(())
    }

    /// Sorts the UIDs of associated trains, unless the walk has passed a schedule already.
    fn sort_names(&mut self, given: &Given)
        requires { HasWalked self.old given.now.entries }
        ensures walked { HasWalked self.new given.now.entries }
        ensures sorted { IsSorted bytes_cmp self.new.names.items }
        ensures kept { self.new.kept ≡ self.old.kept }
        ensures run { self.new.run ≡ self.old.run }
        ensures needed { self.new.needed ≡ self.old.needed }
        ensures place { self.new.place ≡ self.old.place }
    {
        if self.run.is_empty() {
            self.names.sort_unstable();
        }
    }

    /// Empties `run`: its schedules are kept if they are needed, and otherwise dropped. If memory
    /// runs out, `run` and the kept entries are unchanged.
    fn end_run(&mut self) -> Result<(), Memory>
        ensures kept { IsOk result → self.new.kept.items ≡ (if self.old.needed
            then self.old.kept.items ++ self.old.run.items else self.old.kept.items) }
        ensures run { IsOk result → (self.new.run.items ≡ []) × (vec_len self.new.run ≡ 0) }
        ensures err { IsErr result → (self.new.kept.items ≡ self.old.kept.items)
            × (self.new.run.items ≡ self.old.run.items) }
        ensures capacity { vec_capacity self.new.run ≡ vec_capacity self.old.run }
        ensures names { self.new.names ≡ self.old.names }
        ensures needed { self.new.needed ≡ self.old.needed }
        ensures place { self.new.place ≡ self.old.place }
    {
        if self.needed {
            self.kept.append(&mut self.run)?;
        } else {
            self.run.clear();
        }
        Ok(())
    }

    /// Ends the walk and returns the excerpt's entries with their keys, in the order of the keys.
    /// Returns `Memory` if there is no room for the schedules of the last UID.
    pub(crate) fn finish(self) -> Result<Vec<(Key, Entry)>, Memory>
        ensures { IfOk result (λ rows. (state : states.State) → HasWalked self state.entries
            → map row_meant rows.items ≡ (excerpt_for self.place state).entries) }
    {
        let mut walk = self;
        walk.end_run()?;
        Ok(walk.kept)
    }
}
