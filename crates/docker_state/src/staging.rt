//! Receives another state entry by entry. Entries that have to be taken over are staged, and a
//! commit then takes them over all at once.
ghost use Rattle.std.specs.Prelude.{◌≡◌, ◌==◌, ◌↔◌, ◌++◌, [], List, length, map, IsTrue, IsOk, IsErr, IfOk};
ghost use Rattle.docker_model.specs.file.Change as model;
ghost use Rattle.docker_model.specs.state.Op as ops;
ghost use Rattle.docker_model.specs.state.Stamp.{ledger_item_cmp, IsFloor};
ghost use Rattle.docker_model.specs.state.Order.{IsStrictlyAscending};
ghost use Rattle.docker_model.specs.state.State.{IsLedger, IsGoodEntry, IsJoin, IsValid};
ghost use Rattle.state_laws.specs.Staging.{IsToStage, IsStaged, IsCommit, staged_state};
ghost use Rattle.cif_change.specs.Meaning.{key_meant};
ghost use Rattle.docker_join.specs.Meaning.{entry_meant, floor_meant};
ghost use Rattle.docker_state.specs.Meaning.{item_meant, state_meant};
ghost use Rattle.docker_state.specs.Staging.{IsAboveStaged, IsOffered, HasNothingNew, with_staged, staging_meant};
ghost use Rattle.docker_state.specs.Staging as received;

use crate::floor::{common_floor, floor_of};
use crate::item::LedgerItem;
use crate::ledger::{has_kept_items, is_above_all};
use crate::state::State;
use cif_file::Key;
use cif_line::Memory;
use docker_join::{Entry, FileStamp, Merge};
use std::alloc::Global;
use std::marker::Model;
use std::mem;

/// What a state has received from another state: the other state's ledger, and the entries that the
/// receiving state will take over. The receiving state doesn't change before the commit.
#[derive(Debug, Drop)]
pub struct Staging {
    floor: Option<FileStamp>,
    items: Vec<LedgerItem>,
    staged: Vec<(Key, Entry)>,
    // The index of the state's entry that is read first to look up the next key. Entries are
    // offered in the order of their keys, so the next key is likely to be near this index.
    near: usize,
}

impl Model for Staging {
    ghost Value = { received.Staging };

    ghost view = { λ it. staging_meant it.floor it.items.items it.staged.items };

    ghost invariant = { λ it. IsValid (state_meant 0 it.items.items it.staged.items) };
}

impl Staging {
    /// Begins to receive a state, given its ledger, which must be valid. No entry is staged yet.
    /// Never returns `Memory`, as it allocates nothing.
    pub fn new(alloc: Global, state: &State, items: Vec<LedgerItem>) -> Result<Staging, Memory>
        requires { IsLedger (map item_meant items.items) }
        ensures ok { IsOk result }
        ensures items { IfOk result (λ staging. staging.items ≡ map item_meant items.items) }
        ensures staged { IfOk result (λ staging. staging.staged ≡ []) }
        ensures floor { IfOk result (λ staging.
            IsFloor (state.now.ledger ++ staging.items) staging.floor) }
    {
        let floor = common_floor(state.floor(), floor_of(items.as_slice()));
        Ok(Staging {
            floor,
            items,
            staged: Vec::new(alloc),
            near: 0,
        })
    }

    /// The ledger items of the state being received, in ascending order.
    pub fn items(&self) -> &[LedgerItem]
        ensures items { map item_meant result.now ≡ self.now.items }
        ensures valid { IsValid (staged_state self.now.items self.now.staged) }
    {
        self.items.as_slice()
    }

    /// The floor of the received ledger and the state's ledger together: the file stamp of the
    /// newest full extract in either. Returns `None` if neither has a full extract.
    pub fn floor(&self) -> Option<FileStamp>
        ensures { floor_meant result ≡ self.now.floor }
    {
        self.floor
    }

    /// How many entries are staged.
    pub fn len(&self) -> u64
        ensures { result ≡ length self.now.staged }
    {
        self.staged.len() as u64
    }

    /// Whether no entry is staged.
    pub fn is_empty(&self) -> bool
        ensures { result ≡ (length self.now.staged == 0) }
    {
        self.staged.is_empty()
    }

    /// Offers `state` the next entry of the state being received. The entry is staged if it isn't
    /// below the floor and `state` has no equal or greater entry for the same key. If memory runs
    /// out, the entry isn't staged and nothing changes.
    pub fn offer(&mut self, state: &State, key: Key, entry: Entry) -> Result<(), Memory>
        requires floor { IsFloor (state.now.ledger ++ self.old.items) self.old.floor }
        requires above { IsAboveStaged self.old.staged (key_meant key) }
        requires good { IsGoodEntry self.old.items (key_meant key, entry_meant entry) }
        ensures offered { IsOk result
            → IsOffered state.now self.old (key_meant key) (entry_meant entry) self.new }
        ensures staged { IsOk result
            → IsToStage state.now self.old.floor (key_meant key) (entry_meant entry)
            → self.new ≡ with_staged self.old (key_meant key) (entry_meant entry) }
        ensures left_out { ¬ IsToStage state.now self.old.floor (key_meant key) (entry_meant entry)
            → (IsOk result) × (self.new ≡ self.old) }
        ensures err { IsErr result → self.new ≡ self.old }
    {
        if is_to_stage(state, &self.floor, &key, &entry, &mut self.near) {
            self.staged.push((key, entry))?;
        }
        Ok(())
    }

    /// Whether no entry is staged, and this ledger already has each received item that isn't below
    /// the floor.
    fn has_nothing_new(&self, ledger: &[LedgerItem]) -> bool
        requires { IsStrictlyAscending ledger_item_cmp (map item_meant ledger.now) }
        ensures { IsTrue result ↔ HasNothingNew (map item_meant ledger.now) self.now }
    {
        self.is_empty() && has_kept_items(ledger, self.items.as_slice(), &self.floor)
    }
}

/// Whether an entry has to be staged: it isn't below the floor, and the state has no equal or
/// greater entry for the same key. The state's entry is first looked for at index `near`.
pub(crate) fn is_to_stage(
    state: &State,
    floor: &Option<FileStamp>,
    key: &Key,
    entry: &Entry,
    near: &mut usize,
) -> bool
    ensures { IsTrue result
        ↔ IsToStage state.now (floor_meant floor.now) (key_meant key.now) (entry_meant entry.now) }
{
    // If the entry's file is newer than every file in our ledger, the entry is greater than any of
    // our entries. Then our entry for the same key doesn't have to be looked up.
    if is_above_all(state.ledger(), &entry.stamp.file) {
        return entry.stamp.file.is_kept(floor);
    }
    match state.get_near(key, near) {
        Some(own) => entry.stamp.file.is_kept(floor) && own < entry,
        None => entry.stamp.file.is_kept(floor),
    }
}

impl State {
    /// Joins the state with the received ledger items and entries. The ledger becomes the union of
    /// both ledgers, and each staged entry is written at its key. Entries and items below the floor
    /// of both ledgers together are dropped, and each entry whose body ended before this state's
    /// horizon lapses. If the entries were offered to another state with the same floor, this state
    /// may have a greater entry for the key of a staged entry. This state's entry then stays, and
    /// the result is still the join. If nothing is staged and no item is new, nothing is done. If
    /// memory runs out, the state is unchanged, and what was received is dropped.
    pub fn commit(&mut self, staging: Staging) -> Result<(), Memory>
        requires floor { IsFloor (self.old.ledger ++ staging.items) staging.floor }
        ensures join { IsOk result
            → IsJoin self.old (staged_state staging.items staging.staged) self.new }
        ensures commit { IsOk result → (offered : List (model.Key × ops.Entry))
            → IsStaged self.old staging.floor offered staging.staged
            → IsCommit self.old staging.items staging.staged self.new }
        ensures nothing_new { HasNothingNew self.old.ledger staging
            → (IsOk result) × (self.new ≡ self.old) }
        ensures err { IsErr result → self.new ≡ self.old }
    {
        if staging.has_nothing_new(self.ledger()) {
            return Ok(());
        }
        let alloc = *staging.staged.allocator();
        let received = State::of_rows(0, staging.items, staging.staged, None);
        let own = mem::replace(self, State::empty(alloc));
        match own.join(alloc, received) {
            Ok(joined) => {
                *self = joined;
                Ok(())
            }
            Err((own, _)) => {
                *self = own;
                Err(Memory)
            }
        }
    }
}
