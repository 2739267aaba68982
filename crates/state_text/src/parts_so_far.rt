//! The parts of a text that were read: the horizon, and a keeper that was given the other parts.
ghost use Rattle.std.specs.Prelude.{◌≡◌, ◌-◌, ◌^◌, ◌<◌, [], ◌∷◌, ◌++◌, length, map, IsOk, IsErr, IfOk};
ghost use Rattle.std.specs.Option.{option_copied, option_map};
ghost use Rattle.docker_model.specs.state.State.{IsLedger, IsOpOf, IsValid, IsJoin};
ghost use Rattle.docker_model.specs.state.StatePart.{IsStampHere};
ghost use Rattle.docker_model.specs.state.State as states;
ghost use Rattle.cif_change.specs.Meaning.{key_meant};
ghost use Rattle.docker_join.specs.Meaning.{entry_meant};
ghost use Rattle.docker_state.specs.Meaning.{item_meant};
ghost use Rattle.docker_state.specs.Parts.{last_key, under};
ghost use Rattle.state_text.specs.PartsSoFar.{horizon_meant, with_item, with_row};

use crate::keeper::{Maker, PartKeeper};
use crate::received::Received;
use crate::receiving::Receiver;
use cif_file::Key;
use cif_line::{Day, Memory};
use docker_join::Entry;
use docker_state::{LedgerItem, State};
use std::marker::Model;

/// The horizon, if one was read, and the keeper that was given the other parts.
#[derive(Debug, Drop)]
pub struct PartsSoFar<K: PartKeeper> {
    horizon: Option<Day>,
    keeper: K,
}

impl<K: PartKeeper> Model for PartsSoFar<K> {
    ghost Value = { states.State };

    ghost view = { λ it. under (horizon_meant it.horizon) (K.given it.keeper) };
}

impl<K: PartKeeper> PartsSoFar<K> {
    /// Returns the parts that a keeper was given, without a horizon.
    pub fn new(keeper: K) -> PartsSoFar<K>
        ensures { result ≡ under 0 (K.given keeper) }
    {
        PartsSoFar {
            horizon: None,
            keeper,
        }
    }

    /// Sets the horizon.
    pub(crate) fn set_horizon(&mut self, day: Day)
        ensures { self.new ≡ under day self.old }
    {
        self.horizon = Some(day);
    }

    /// The day number of the horizon. Returns 0 if no horizon was read.
    pub(crate) fn horizon(&self) -> u16
        ensures { result ≡ self.now.horizon }
    {
        match self.horizon {
            Some(day) => day.number(),
            None => 0,
        }
    }

    /// Gives the keeper the next ledger item.
    pub(crate) fn item(&mut self, item: LedgerItem) -> Result<(), Memory>
        requires before_entries { self.old.entries ≡ [] }
        requires ledger { IsLedger (self.old.ledger ++ item_meant item ∷ []) }
        ensures { IsOk result → self.new ≡ with_item self.old (item_meant item) }
    {
        self.keeper.item(item)
    }

    /// Gives the keeper the next entry, with its key.
    pub(crate) fn entry(&mut self, key: Key, entry: Entry) -> Result<(), Memory>
        requires few { length self.old.entries < 2 ^ 64 - 1 }
        requires here { IsStampHere self.old (key_meant key) (entry_meant entry).stamp }
        requires op { IsOpOf (key_meant key) (entry_meant entry).op }
        ensures { IsOk result
            → self.new ≡ with_row self.old (key_meant key, entry_meant entry) }
    {
        self.keeper.entry(key, entry)
    }

    /// The ledger items that were read, in ascending order.
    pub(crate) fn ledger(&self) -> &[LedgerItem]
        ensures { map item_meant result.now ≡ self.now.ledger }
    {
        self.keeper.ledger()
    }

    /// How many entries were read.
    pub(crate) fn len(&self) -> u64
        ensures { result ≡ length self.now.entries }
    {
        self.keeper.len()
    }

    /// The key of the last entry that was read. Returns `None` if none was read.
    pub(crate) fn last(&self) -> Option<&Key>
        ensures { option_map key_meant (option_copied result) ≡ last_key self.now.entries }
    {
        self.keeper.last()
    }
}

impl<K: Maker> PartsSoFar<K> {
    /// Makes the keeper's value from the parts and the horizon that were read. If memory runs out,
    /// the parts are dropped.
    pub fn finish(self) -> Result<K::Made, Memory>
        requires { IsValid self }
        ensures { IfOk result (λ made. K.makes made self) }
    {
        let PartsSoFar { horizon, keeper } = self;
        keeper.finish(horizon)
    }
}

impl<R: Receiver> PartsSoFar<Received<R>> {
    /// Returns the join of the receiving state with the parts and the horizon that were read. If
    /// memory runs out, returns the receiving state unchanged.
    pub fn join(self) -> (State, Result<(), Memory>)
        requires { IsValid self }
        ensures ok { IsOk result.1 → IsJoin R.own self result.0 }
        ensures err { IsErr result.1 → result.0 ≡ R.own }
    {
        let PartsSoFar { horizon, keeper } = self;
        keeper.join(horizon)
    }

    /// Returns the receiving state unchanged.
    pub fn into_own(self) -> State
        ensures { result ≡ R.own }
    {
        let PartsSoFar { horizon: _, keeper } = self;
        keeper.into_own()
    }
}
