//! Takes the parts of a state, and keeps only the state's ledger.
ghost use Rattle.std.specs.Prelude.{◌≡◌, ◌+◌, ◌-◌, ◌^◌, ◌<◌, [], ◌∷◌, ◌++◌, length, map, IsOk, IsErr, Some};
ghost use Rattle.std.specs.Option.{option_copied, option_map};
ghost use Rattle.docker_model.specs.state.State.{IsLedger, IsOpOf, IsValid};
ghost use Rattle.docker_model.specs.state.StatePart.{IsStampHere};
ghost use Rattle.docker_model.specs.state.State as states;
ghost use Rattle.cif_change.specs.Meaning.{key_meant};
ghost use Rattle.docker_join.specs.Meaning.{entry_meant};
ghost use Rattle.docker_state.specs.Meaning.{item_meant};
ghost use Rattle.docker_state.specs.Parts.{last_key};
ghost use Rattle.state_text.specs.PartsSoFar.{with_item};
ghost use Rattle.docker_excerpt.specs.Values.{with_entries};
ghost use Rattle.docker_excerpt.specs.Ledger.{IsLedgerOf};

use cif_change::Key;
use cif_line::Memory;
use state_text::{Entry, Given, LedgerItem, PartKeeper, Parts};
use std::alloc::Global;
use std::fmt;
use std::marker::Model;

/// The ledger of a state whose parts are taken in order: first the ledger items, then the entries.
/// It keeps all ledger items. Of the entries, it keeps only their number and the last key.
#[derive(Drop)]
pub struct Ledger {
    // these parts have ledger items and no entries
    parts: Parts,
    last: Option<Key>,
    count: u64,
    given: Given,
}

impl Model for Ledger {
    ghost Value = { states.State };

    ghost view = { λ it. with_entries it.parts it.given.entries };

    ghost invariant = { λ it. IsLedgerOf it.parts it.last it.count it.given.entries };
}

impl fmt::Debug for Ledger {
    fn fmt<W: fmt::Write>(&self, f: &mut fmt::Formatter<W>) -> fmt::Result {
        f.write_str("Ledger")
    }
}

impl Ledger {
    /// Starts a ledger. No part of a state has been given yet. The call allocates nothing.
    pub fn new(alloc: Global) -> Ledger
        ensures { result ≡ record { horizon = 0; ledger = []; entries = [] } }
    {
        Ledger {
            parts: Parts::new(alloc),
            last: None,
            count: 0,
            given: Given::new(),
        }
    }

    /// Takes the next ledger item. If memory runs out, the ledger is unchanged.
    pub fn item(&mut self, item: LedgerItem) -> Result<(), Memory>
        requires before_entries { self.old.entries ≡ [] }
        requires ledger { IsLedger (self.old.ledger ++ item_meant item ∷ []) }
        ensures ok { IsOk result → self.new ≡ with_item self.old (item_meant item) }
        ensures err { IsErr result → self.new ≡ self.old }
    {
        self.parts.item(item)
    }

    /// The ledger items, in ascending order.
    pub fn items(&self) -> &[LedgerItem]
        ensures items { map item_meant result.now ≡ self.now.ledger }
        ensures valid { IsValid self.now }
    {
        self.parts.ledger()
    }

    /// The number of entries that were taken.
    pub fn len(&self) -> u64
        ensures { result ≡ length self.now.entries }
    {
        self.count
    }

    /// The key of the last entry that was taken, or `None` if no entry was taken.
    pub fn last(&self) -> Option<&Key>
        ensures { option_map key_meant (option_copied result) ≡ last_key self.now.entries }
    {
        self.last.as_ref()
    }

    /// The entries that were taken. They exist only for proofs.
    pub(crate) fn given(&self) -> &Given
        ensures { result.now.entries ≡ self.now.entries }
    {
        &self.given
    }

    /// The entries that were taken, followed by one more entry. They exist only for proofs.
    pub(crate) fn with(&self, key: &Key, entry: &Entry) -> Given
        requires here { IsStampHere self.now (key_meant key.now) (entry_meant entry.now).stamp }
        requires op { IsOpOf (key_meant key.now) (entry_meant entry.now).op }
        ensures entries { result.entries
            ≡ self.now.entries ++ (key_meant key.now, entry_meant entry.now) ∷ [] }
        ensures valid { IsValid (with_entries self.now result.entries) }
        ensures last { last_key result.entries ≡ Some (key_meant key.now) }
    {
        Given::with(&self.given, key, entry)
    }

    /// Counts one more entry and keeps its key. `given` has all entries that were taken, including
    /// this one, and exists only for proofs.
    pub(crate) fn pass(&mut self, key: Key, given: Given)
        requires few { length self.old.entries < 2 ^ 64 - 1 }
        requires valid { IsValid (with_entries self.old given.entries) }
        requires last { last_key given.entries ≡ Some (key_meant key) }
        requires count { length given.entries ≡ length self.old.entries + 1 }
        ensures { self.new ≡ with_entries self.old given.entries }
    {
        self.last = Some(key);
        self.count += 1;
        self.given = given;
    }

    /// Returns the ledger items as parts of a state, to which entries can then be added. Also
    /// returns the entries that were taken, which exist only for proofs.
    pub(crate) fn into_parts(self) -> (Parts, Given)
        ensures parts { result.0 ≡ record { horizon = 0; ledger = self.ledger; entries = [] } }
        ensures given { result.1.entries ≡ self.entries }
    {
        let Ledger {
            parts,
            last: _,
            count: _,
            given,
        } = self;
        (parts, given)
    }
}

impl PartKeeper for Ledger {
    ghost given = { λ ledger. ledger };

    fn item(&mut self, item: LedgerItem) -> Result<(), Memory> {
        self.parts.item(item)
    }

    /// Counts the entry and drops it. The call allocates nothing, so it never returns `Memory`.
    fn entry(&mut self, key: Key, entry: Entry) -> Result<(), Memory> {
        let given = self.with(&key, &entry);
        self.pass(key, given);
        Ok(())
    }

    fn ledger(&self) -> &[LedgerItem] {
        self.items()
    }

    fn len(&self) -> u64 {
        self.count
    }

    fn last(&self) -> Option<&Key> {
        match &self.last {
            Some(key) => Some(key),
            None => None,
        }
    }
}
