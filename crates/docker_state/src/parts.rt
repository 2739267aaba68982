//! Builds a state from ledger items and entries, which are added in order.
ghost use Rattle.std.specs.Prelude.{◌≡◌, ◌++◌, [], ◌∷◌, ◌-◌, map, IsOk, IsErr, IfOk};
ghost use Rattle.std.specs.Option.{option_copied, option_map};
ghost use Rattle.docker_model.specs.state.State.{IsLedger, IsOpOf, IsValid};
ghost use Rattle.docker_model.specs.state.StatePart.{IsStampHere};
ghost use Rattle.docker_model.specs.state.State as states;
ghost use Rattle.cif_change.specs.Meaning.{key_meant};
ghost use Rattle.docker_join.specs.Meaning.{entry_meant, row_meant};
ghost use Rattle.docker_state.specs.Meaning.{item_meant, state_meant};
ghost use Rattle.docker_state.specs.Parts.{last_key, under};

use crate::item::LedgerItem;
use crate::state::State;
use cif_file::Key;
use cif_line::{Day, Memory};
use docker_join::Entry;
use std::alloc::Global;
use std::marker::Model;

/// The ledger items and the entries that have been added so far, both in ascending order. All
/// ledger items are added before the first entry. After each addition, the items and the entries
/// make a valid state.
#[derive(Debug, Drop)]
pub struct Parts {
    ledger: Vec<LedgerItem>,
    entries: Vec<(Key, Entry)>,
}

impl Model for Parts {
    ghost Value = { states.State };

    ghost view = { λ parts. state_meant 0 parts.ledger.items parts.entries.items };

    ghost invariant = { λ parts. IsValid (state_meant 0 parts.ledger.items parts.entries.items) };
}

impl Parts {
    /// Starts building a state. No ledger item and no entry has been added yet.
    pub fn new(alloc: Global) -> Parts
        ensures { result ≡ record { horizon = 0; ledger = []; entries = [] } }
    {
        Parts {
            ledger: Vec::new(alloc),
            entries: Vec::new(alloc),
        }
    }

    /// Adds the next ledger item. If memory runs out, nothing is added.
    pub fn item(&mut self, item: LedgerItem) -> Result<(), Memory>
        requires before_entries { self.old.entries ≡ [] }
        requires ledger { IsLedger (self.old.ledger ++ item_meant item ∷ []) }
        ensures ok { IsOk result → self.new
            ≡ record { horizon = 0; ledger = self.old.ledger ++ item_meant item ∷ []; entries = [] } }
        ensures err { IsErr result → self.new ≡ self.old }
    {
        self.ledger.push(item)?;
        Ok(())
    }

    /// Adds the next entry, with its key. If memory runs out, nothing is added.
    pub fn entry(&mut self, key: Key, entry: Entry) -> Result<(), Memory>
        requires here { IsStampHere self.old (key_meant key) (entry_meant entry).stamp }
        requires op { IsOpOf (key_meant key) (entry_meant entry).op }
        ensures ok { IsOk result → self.new
            ≡ record {
              horizon = 0;
              ledger = self.old.ledger;
              entries = self.old.entries ++ (key_meant key, entry_meant entry) ∷ [];
            } }
        ensures err { IsErr result → self.new ≡ self.old }
    {
        self.entries.push((key, entry))?;
        Ok(())
    }

    /// The ledger items that were added, in ascending order.
    pub fn ledger(&self) -> &[LedgerItem]
        ensures { map item_meant result.now ≡ self.now.ledger }
    {
        self.ledger.as_slice()
    }

    /// The entries that were added, each with its key, in the order of the keys.
    pub fn entries(&self) -> &[(Key, Entry)]
        ensures { map row_meant result.now ≡ self.now.entries }
    {
        self.entries.as_slice()
    }

    /// The key of the last entry that was added. Returns `None` if no entry was added.
    pub fn last(&self) -> Option<&Key>
        ensures { option_map key_meant (option_copied result) ≡ last_key self.now.entries }
    {
        match self.entries.last() {
            Some(row) => Some(&row.0),
            None => None,
        }
    }

    /// Makes the state from what was added, with an index. If memory runs out, the ledger items and
    /// entries are dropped. They are also dropped if there are more than 4,294,967,295 entries or
    /// places, which are numbered in 32 bits.
    pub fn finish(self) -> Result<State, Memory>
        ensures { IfOk result (λ state. state ≡ self) }
    {
        let alloc = *self.entries.allocator();
        match self.finish_unindexed().indexed(alloc) {
            Ok(state) => Ok(state),
            Err(_) => Err(Memory),
        }
    }

    /// Like `finish`, but the state has no index. Allocates nothing.
    pub fn finish_unindexed(self) -> State
        ensures { result ≡ self }
    {
        let Parts { ledger, entries } = self;
        State::of_rows(0, ledger, entries, None)
    }

    /// Makes the state with this horizon from what was added, without an index. The caller ensures
    /// that no body ended before the horizon, so no end date is read. Allocates nothing.
    pub fn finish_unindexed_under(self, horizon: Day) -> State
        requires { IsValid (under horizon self) }
        ensures { result ≡ under horizon self }
    {
        let Parts { ledger, entries } = self;
        State::of_rows(horizon.number(), ledger, entries, None)
    }
}
