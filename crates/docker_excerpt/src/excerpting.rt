//! Makes the excerpt of a state for a place and a day while the state's parts are taken.
ghost use Rattle.std.specs.Prelude.{◌≡◌, ◌-◌, ◌^◌, ◌<◌, [], ◌∷◌, ◌++◌, length, map, IsOk, IsErr, IfOk};
ghost use Rattle.std.specs.Option.{option_copied, option_map};
ghost use Rattle.docker_model.specs.state.State.{IsLedger, IsOpOf, IsValid, AreEntries};
ghost use Rattle.docker_model.specs.state.StatePart.{IsStampHere};
ghost use Rattle.cif_change.specs.Meaning.{key_meant};
ghost use Rattle.docker_join.specs.Meaning.{entry_meant, row_meant};
ghost use Rattle.docker_state.specs.Meaning.{item_meant};
ghost use Rattle.docker_state.specs.Parts.{last_key, under};
ghost use Rattle.state_text.specs.PartsSoFar.{horizon_meant, with_item, with_row};
ghost use Rattle.docker_excerpt.specs.Values.{with_entries};
ghost use Rattle.docker_excerpt.specs.Values as values;
ghost use Rattle.docker_excerpt.specs.DayWalk.{HasPassed};

use crate::day_walk::DayWalk;
use crate::excerpt::Excerpt;
use crate::ledger::Ledger;
use cif_change::Key;
use cif_line::{Day, Memory, Tiploc};
use state_text::{Entry, LedgerItem, Parts, State};
use std::alloc::Global;
use std::fmt;
use std::marker::Model;

/// Makes the excerpt of a state for a place and a day. Its methods take the state's parts in the
/// same order as the methods of `Parts`. Only the entries from which the docker is made are kept:
/// the place's TIPLOC, the associations at the place, and schedules. All schedules of a UID are
/// kept if one of them calls at the place. They are also kept if the UID's train is the associated
/// train of a live association at the place. If a schedule doesn't run on any start day from three
/// days before the day to the day after, it is skipped: it is neither kept nor searched for calls.
#[derive(Drop)]
pub struct Excerpting {
    ledger: Ledger,
    walk: DayWalk,
}

impl Model for Excerpting {
    ghost Value = { values.Excerpting };

    ghost view = { λ it. record {
      place = it.walk.walk.place;
      day = it.walk.day;
      told = it.ledger;
    } };

    ghost invariant = { λ it. HasPassed it.walk it.ledger.entries };
}

impl fmt::Debug for Excerpting {
    fn fmt<W: fmt::Write>(&self, f: &mut fmt::Formatter<W>) -> fmt::Result {
        f.write_str("Excerpting")
    }
}

impl Excerpting {
    /// Starts an excerpt. No part of a state has been given yet. The call allocates nothing.
    pub fn new(alloc: Global, place: Tiploc, day: Day) -> Excerpting
        ensures { result ≡ record {
          place = place;
          day = day;
          told = record { horizon = 0; ledger = []; entries = [] };
        } }
    {
        Excerpting {
            ledger: Ledger::new(alloc),
            walk: DayWalk::new(alloc, place, day),
        }
    }

    /// Takes the next ledger item. If memory runs out, nothing changes and the item is dropped.
    pub fn item(&mut self, item: LedgerItem) -> Result<(), Memory>
        requires before_entries { self.old.told.entries ≡ [] }
        requires ledger { IsLedger (self.old.told.ledger ++ item_meant item ∷ []) }
        ensures ok { IsOk result
            → self.new.told ≡ with_item self.old.told (item_meant item) }
        ensures err { IsErr result → self.new.told ≡ self.old.told }
        ensures place { self.new.place ≡ self.old.place }
        ensures day { self.new.day ≡ self.old.day }
    {
        self.ledger.item(item)
    }

    /// Takes the next entry, with its key. If memory runs out, nothing changes and the entry is
    /// dropped.
    pub fn entry(&mut self, key: Key, entry: Entry) -> Result<(), Memory>
        requires few { length self.old.told.entries < 2 ^ 64 - 1 }
        requires here { IsStampHere self.old.told (key_meant key) (entry_meant entry).stamp }
        requires op { IsOpOf (key_meant key) (entry_meant entry).op }
        ensures ok { IsOk result
            → self.new.told ≡ with_row self.old.told (key_meant key, entry_meant entry) }
        ensures err { IsErr result → self.new.told ≡ self.old.told }
        ensures place { self.new.place ≡ self.old.place }
        ensures day { self.new.day ≡ self.old.day }
    {
        let given = self.ledger.with(&key, &entry);
        self.walk.entry(self.ledger.given(), key, entry)?;
        self.ledger.pass(key, given);
        Ok(())
    }

    /// The ledger items that were taken, in ascending order.
    pub fn ledger(&self) -> &[LedgerItem]
        ensures items { map item_meant result.now ≡ self.now.told.ledger }
        ensures valid { IsValid self.now.told }
    {
        self.ledger.items()
    }

    /// The number of entries that were taken, whether they were kept or not.
    pub fn len(&self) -> u64
        ensures { result ≡ length self.now.told.entries }
    {
        self.ledger.len()
    }

    /// The key of the last entry that was taken, whether the entry was kept or not. Returns `None`
    /// if no entry was taken.
    pub fn last(&self) -> Option<&Key>
        ensures { option_map key_meant (option_copied result) ≡ last_key self.now.told.entries }
    {
        self.ledger.last()
    }

    /// Makes the excerpt of the state whose parts were taken. `horizon` is the state's horizon, if
    /// it has one. If memory runs out, the kept entries are dropped.
    pub fn finish(self, horizon: Option<Day>) -> Result<Excerpt, Memory>
        requires { IsValid (under (horizon_meant horizon) self.told) }
        ensures { IfOk result (λ excerpt. excerpt ≡ record {
          place = self.place;
          day = self.day;
          state = under (horizon_meant horizon) self.told;
        }) }
    {
        let Excerpting { ledger, walk } = self;
        let place = walk.place();
        let day = walk.day();
        let rows = walk.finish()?;
        let (parts, given) = ledger.into_parts();
        let whole = with_rows(parts, rows)?;
        let state = whole.finish_unindexed();
        Ok(Excerpt::of(place, day, under_horizon(state, horizon), given))
    }
}

/// Adds these rows as entries, in their order, to a state that is being built.
fn with_rows(mut parts: Parts, rows: Vec<(Key, Entry)>) -> Result<Parts, Memory>
    requires plain { parts.horizon ≡ 0 }
    requires none { parts.entries ≡ [] }
    requires entries { AreEntries parts.ledger (map row_meant rows.items) }
    ensures { IfOk result (λ whole. whole ≡ with_entries parts (map row_meant rows.items)) }
{
    for (key, entry) in rows {
        parts.entry(key, entry)?;
    }
    Ok(parts)
}

/// Sets the horizon of a state, unless `horizon` is `None`. No entry of the state may have a body
/// that ended before this horizon.
fn under_horizon(mut state: State, horizon: Option<Day>) -> State
    requires plain { state.horizon ≡ 0 }
    requires valid { IsValid (under (horizon_meant horizon) state) }
    ensures { result ≡ under (horizon_meant horizon) state }
{
    if let Some(day) = horizon {
        state.set_horizon(day);
    }
    state
}
