//! Receives the parts of another state's text. Only the entries that the state will take over are
//! staged.
ghost use Rattle.std.specs.Prelude.{◌≡◌, ◌+◌, ◌-◌, ◌^◌, ◌<◌, ℕ, [], ◌∷◌, ◌++◌, length, map, IsOk, IsErr, IsSome, None};
ghost use Rattle.std.specs.Option.{option_copied, option_map};
ghost use Rattle.docker_model.specs.state.State.{IsLedger, IsOpOf, IsValid, IsJoin};
ghost use Rattle.docker_model.specs.state.StatePart.{IsStampHere};
ghost use Rattle.cif_change.specs.Meaning.{key_meant};
ghost use Rattle.docker_join.specs.Meaning.{entry_meant};
ghost use Rattle.docker_state.specs.Meaning.{item_meant};
ghost use Rattle.docker_state.specs.Parts.{last_key, under};
ghost use Rattle.state_text.specs.PartsSoFar.{with_item, with_row};
ghost use Rattle.state_text.specs.Receiving.{given_state, given_of, IsStagedOf, IsReceiving};

use crate::given::Given;
use cif_file::Key;
use cif_line::Memory;
use docker_join::Entry;
use docker_state::{LedgerItem, Staging, State};
use std::alloc::Global;
use std::marker::{Brand, PhantomData};
use std::mem;

/// A type that stands for the state that receives the parts of one text. It exists only for
/// clauses. Since the type is part of the keeper's type, no call can replace the receiving state by
/// another state.
pub trait Receiver {
    ghost use Rattle.docker_model.specs.state.State as states;

    ghost own: { states.State };
}

impl Receiver for Brand {
    ghost own = { record { horizon = 0; ledger = []; entries = [] } };
}

/// A state that receives another state's text. Before the first entry is given, `items` contains
/// the ledger items received. With the first entry the staging begins, and from then on the staging
/// contains the ledger items. `last` is the key of the last entry given, and `count` is the number
/// of all entries given, whether staged or not.
#[derive(Drop)]
pub(crate) struct Receiving<R> {
    alloc: Global,
    own: State,
    items: Vec<LedgerItem>,
    staging: Option<Staging>,
    last: Option<Key>,
    count: u64,
    given: Given,
    of: PhantomData<R>,
}

/// Offers the next entry for staging. `given` records the entries before it for proofs.
fn offer(
    own: &State,
    staging: &mut Staging,
    given: &Given,
    key: Key,
    entry: Entry,
) -> Result<(), Memory>
    requires staged { IsStagedOf own.now staging.old given.now.entries }
    requires here { IsStampHere (given_state staging.old.items given.now.entries)
        (key_meant key) (entry_meant entry).stamp }
    requires op { IsOpOf (key_meant key) (entry_meant entry).op }
    ensures ok { IsOk result
        → IsStagedOf own.now staging.new
        (given.now.entries ++ (key_meant key, entry_meant entry) ∷ []) }
    ensures items { staging.new.items ≡ staging.old.items }
    ensures err { IsErr result → staging.new ≡ staging.old }
{
    staging.offer(own, key, entry)
}

impl<R: Receiver> Receiving<R> {
    /// Starts receiving for the state `own`. No ledger item and no entry has been given yet.
    pub(crate) fn new(alloc: Global, own: State) -> Receiving<R>
        requires valid { IsValid own }
        requires own { own ≡ R.own }
        ensures receiving { IsReceiving R.own result }
        ensures none { given_of result ≡ given_state [] [] }
    {
        Receiving {
            alloc,
            own,
            items: Vec::new(alloc),
            staging: None,
            last: None,
            count: 0,
            given: Given::new(),
            of: PhantomData,
        }
    }

    /// Takes the next ledger item. No entry may have been given before.
    pub(crate) fn item(&mut self, item: LedgerItem) -> Result<(), Memory>
        requires receiving { IsReceiving R.own self.old }
        requires before_entries { self.old.given.entries ≡ [] }
        requires ledger { IsLedger ((given_of self.old).ledger ++ item_meant item ∷ []) }
        ensures ok { IsOk result
            → given_of self.new ≡ with_item (given_of self.old) (item_meant item) }
        ensures receiving { IsReceiving R.own self.new }
    {
        if self.staging.is_some() {
            return Err(Memory);
        }
        self.items.push(item)?;
        Ok(())
    }

    /// Starts the staging, once the ledger is complete.
    fn begin(&mut self) -> Result<(), Memory>
        requires receiving { IsReceiving R.own self.old }
        requires none { self.old.staging ≡ None }
        ensures ok { IsOk result }
        ensures some { IsSome self.new.staging }
        ensures same { given_of self.new ≡ given_of self.old }
        ensures receiving { IsReceiving R.own self.new }
    {
        let items = mem::replace(&mut self.items, Vec::new(self.alloc));
        self.staging = Some(Staging::new(self.alloc, &self.own, items)?);
        Ok(())
    }

    /// Takes the next entry, with its key.
    pub(crate) fn entry(&mut self, key: Key, entry: Entry) -> Result<(), Memory>
        requires receiving { IsReceiving R.own self.old }
        requires few { length self.old.given.entries < 2 ^ 64 - 1 }
        requires here { IsStampHere (given_of self.old) (key_meant key) (entry_meant entry).stamp }
        requires op { IsOpOf (key_meant key) (entry_meant entry).op }
        ensures ok { IsOk result → given_of self.new
            ≡ with_row (given_of self.old) (key_meant key, entry_meant entry) }
        ensures receiving { IsReceiving R.own self.new }
    {
        if self.staging.is_none() {
            self.begin()?;
        }
        let given = Given::with(&self.given, &key, &entry);
        match &mut self.staging {
            Some(staging) => offer(&self.own, staging, &self.given, key, entry)?,
            None => unreachable!(),
        }
        self.last = Some(key);
        self.count += 1;
        self.given = given;
        Ok(())
    }

    /// The ledger items that were received, in ascending order.
    pub(crate) fn ledger(&self) -> &[LedgerItem]
        ensures { map item_meant result.now ≡ (given_of self.now).ledger }
    {
        match &self.staging {
            Some(staging) => staging.items(),
            None => self.items.as_slice(),
        }
    }

    /// How many entries were given, whether staged or not.
    pub(crate) fn len(&self) -> u64
        requires { IsReceiving R.own self.now }
        ensures { result ≡ length (given_of self.now).entries }
    {
        self.count
    }

    /// The key of the last entry that was given. Returns `None` if none was given.
    pub(crate) fn last(&self) -> Option<&Key>
        requires { IsReceiving R.own self.now }
        ensures { option_map key_meant (option_copied result)
            ≡ last_key (given_of self.now).entries }
    {
        self.last.as_ref()
    }

    /// Returns the join of the state with what it received. If memory runs out, returns the state
    /// unchanged.
    pub(crate) fn finish(self) -> (State, Result<(), Memory>)
        requires { IsReceiving R.own self }
        ensures ok { IsOk result.1 → (horizon : ℕ) → IsValid (under horizon (given_of self))
            → IsJoin R.own (given_of self) result.0 }
        ensures err { IsErr result.1 → result.0 ≡ R.own }
    {
        let Receiving {
            alloc,
            mut own,
            items,
            staging,
            last: _,
            count: _,
            given: _,
            of: _,
        } = self;
        let staging = match staging {
            Some(staging) => staging,
            None => match Staging::new(alloc, &own, items) {
                Ok(staging) => staging,
                Err(wanting) => return (own, Err(wanting)),
            },
        };
        let done = own.commit(staging);
        (own, done)
    }

    /// Returns the state unchanged.
    pub(crate) fn into_own(self) -> State
        requires { IsReceiving R.own self }
        ensures { result ≡ R.own }
    {
        self.own
    }
}
