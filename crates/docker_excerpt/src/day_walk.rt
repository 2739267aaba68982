//! Walks over a state's entries for the docker of one place and one day. Skips the schedules that
//! can't count on that day, and shortens those that call at the place on other days only.
ghost use Rattle.std.specs.Prelude.{◌≡◌, [], ◌∷◌, ◌++◌, map, IsOk, IsErr, IfOk};
ghost use Rattle.docker_model.specs.state.State as states;
ghost use Rattle.docker_model.specs.state.State.{IsOpOf};
ghost use Rattle.docker_model.specs.state.StatePart.{IsAboveEntries};
ghost use Rattle.docker_laws.specs.Thinning.{excerpt_on};
ghost use Rattle.cif_change.specs.Meaning.{key_meant};
ghost use Rattle.docker_join.specs.Meaning.{entry_meant, row_meant};
ghost use Rattle.docker_excerpt.specs.Walked.{state_of_entries};
ghost use Rattle.docker_excerpt.specs.DayWalk.{HasPassed};

use crate::excerpt_entry::excerpt_entry;
use crate::near::may_count;
use crate::walk::ExcerptWalk;
use cif_change::Key;
use cif_line::{Day, Memory, Tiploc};
use state_text::{Entry, Given};
use std::alloc::Global;

/// A walk over those entries of a state that may count on a day.
#[derive(Drop)]
pub(crate) struct DayWalk {
    alloc: Global,
    day: Day,
    walk: ExcerptWalk,
    near: Given,
}

impl DayWalk {
    /// A walk that hasn't passed any entries yet. The call allocates nothing.
    pub(crate) fn new(alloc: Global, place: Tiploc, day: Day) -> DayWalk
        ensures passed { HasPassed result [] }
        ensures place { result.walk.place ≡ place }
        ensures day { result.day ≡ day }
    {
        DayWalk {
            alloc,
            day,
            walk: ExcerptWalk::new(alloc, place),
            near: Given::new(),
        }
    }

    /// The place of the docker.
    pub(crate) fn place(&self) -> Tiploc
        ensures { result ≡ self.now.walk.place }
    {
        self.walk.place()
    }

    /// The day of the docker.
    pub(crate) fn day(&self) -> Day
        ensures { result ≡ self.now.day }
    {
        self.day
    }

    /// Moves past the next entry, which has this key. If memory runs out, the entry is dropped and
    /// doesn't count as passed.
    pub(crate) fn entry(&mut self, given: &Given, key: Key, entry: Entry) -> Result<(), Memory>
        requires passed { HasPassed self.old given.now.entries }
        requires above { IsAboveEntries (state_of_entries given.now.entries) (key_meant key) }
        requires op { IsOpOf (key_meant key) (entry_meant entry).op }
        ensures ok { IsOk result → HasPassed self.new
            (given.now.entries ++ (key_meant key, entry_meant entry) ∷ []) }
        ensures err { IsErr result → HasPassed self.new given.now.entries }
        ensures place { self.new.walk.place ≡ self.old.walk.place }
        ensures day { self.new.day ≡ self.old.day }
    {
        if !may_count(self.day, &key, &entry.op) {
            return Ok(());
        }
        let place = self.walk.place();
        let entry = excerpt_entry(self.alloc, &place, self.day, &key, entry)?;
        let near = Given::with(&self.near, &key, &entry);
        self.walk.entry(&self.near, key, entry)?;
        self.near = near;
        Ok(())
    }

    /// Ends the walk and returns the excerpt's entries with their keys, in the order of the keys.
    /// Returns `Memory` if there is no room for the schedules of the last UID.
    pub(crate) fn finish(self) -> Result<Vec<(Key, Entry)>, Memory>
        ensures { IfOk result (λ rows. (state : states.State) → HasPassed self state.entries
            → map row_meant rows.items ≡ (excerpt_on self.walk.place self.day state).entries) }
    {
        let DayWalk { walk, .. } = self;
        walk.finish()
    }
}
