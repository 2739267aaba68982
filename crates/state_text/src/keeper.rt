//! Keepers, to which a reader passes the parts of a state's text.
ghost use Rattle.std.specs.Prelude.{◌≡◌, ◌-◌, ◌^◌, ◌<◌, [], ◌∷◌, ◌++◌, length, map, IsOk, IfOk};
ghost use Rattle.std.specs.Option.{option_copied, option_map};
ghost use Rattle.docker_model.specs.state.State.{State, IsLedger, IsOpOf, IsValid};
ghost use Rattle.docker_model.specs.state.StatePart.{IsStampHere};
ghost use Rattle.cif_change.specs.Meaning.{key_meant};
ghost use Rattle.docker_join.specs.Meaning.{entry_meant};
ghost use Rattle.docker_state.specs.Meaning.{item_meant};
ghost use Rattle.docker_state.specs.Parts.{last_key, under};
ghost use Rattle.state_text.specs.PartsSoFar.{horizon_meant, with_item, with_row};

use cif_file::Key;
use cif_line::{Day, Memory};
use docker_join::Entry;
use docker_state::LedgerItem;

/// A keeper is given the parts of a state's text in order: first the ledger items, then the
/// entries. It may keep all, some or none of them.
pub trait PartKeeper: Drop + Sized {
    // all ledger items and entries that the keeper was given, whether kept or not, as a state
    // without a horizon
    ghost given: { Self → State };

    /// Takes the next ledger item. Returns `Memory` if there is no memory for the item. No clause
    /// says what the keeper contains after an error.
    fn item(&mut self, item: LedgerItem) -> Result<(), Memory>
        requires before_entries { (given self.old).entries ≡ [] }
        requires ledger { IsLedger ((given self.old).ledger ++ item_meant item ∷ []) }
        ensures { IsOk result
            → given self.new ≡ with_item (given self.old) (item_meant item) };

    /// Takes the next entry, with its key. Returns `Memory` if there is no memory for the entry. No
    /// clause says what the keeper contains after an error.
    fn entry(&mut self, key: Key, entry: Entry) -> Result<(), Memory>
        requires few { length (given self.old).entries < 2 ^ 64 - 1 }
        requires here { IsStampHere (given self.old) (key_meant key) (entry_meant entry).stamp }
        requires op { IsOpOf (key_meant key) (entry_meant entry).op }
        ensures { IsOk result
            → given self.new ≡ with_row (given self.old) (key_meant key, entry_meant entry) };

    /// The ledger items that were given, in ascending order.
    fn ledger(&self) -> &[LedgerItem]
        ensures { map item_meant result.now ≡ (given self.now).ledger };

    /// How many entries were given, whether kept or not.
    fn len(&self) -> u64
        ensures { result ≡ length (given self.now).entries };

    /// The key of the last entry that was given. Returns `None` if none was given.
    fn last(&self) -> Option<&Key>
        ensures { option_map key_meant (option_copied result)
            ≡ last_key (given self.now).entries };
}

/// A keeper that makes a value from the parts.
pub trait Maker: PartKeeper {
    /// The type of the value that the keeper makes.
    type Made: Drop;

    // says that a value is made from a state
    ghost makes: { Self.Made → State → Type 0 };

    /// Makes the value from the parts and from the text's horizon, if the text has one. If memory
    /// runs out, the parts are dropped.
    fn finish(self, horizon: Option<Day>) -> Result<Self::Made, Memory>
        requires { IsValid (under (horizon_meant horizon) (Self.given self)) }
        ensures { IfOk result (λ made.
            makes made (under (horizon_meant horizon) (Self.given self))) };
}
