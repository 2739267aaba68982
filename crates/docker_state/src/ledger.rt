//! Ledgers, the sorted lists of the files that count in a state: their union, and the removal of
//! the items below a floor.
ghost use Rattle.std.specs.Prelude.{◌≡◌, ◌+◌, ◌≤◌, ◌↔◌, ◌++◌, [], length, map, vec_len, vec_capacity, IfSome, IsTrue, Contains};
ghost use Rattle.docker_model.specs.state.Stamp.{file_stamp_cmp, ledger_item_cmp, IsKept};
ghost use Rattle.docker_model.specs.state.Order.{IsBelow, IsStrictlyAscending};
ghost use Rattle.docker_join.specs.Meaning.{file_stamp_meant, floor_meant};
ghost use Rattle.docker_state.specs.Meaning.{item_meant};
ghost use Rattle.docker_state.specs.Staging.{HasIfKept, HasKeptItems};

use crate::item::LedgerItem;
use docker_join::FileStamp;
use std::alloc::Global;
use std::cmp::Ordering;

/// An empty vector with room for the items of two ledgers. Returns `None` if the allocator refuses.
pub(crate) fn room_for(alloc: Global, first: usize, second: usize) -> Option<Vec<LedgerItem>>
    ensures empty { IfSome result (λ items. (items.items ≡ []) × (vec_len items ≡ 0)) }
    ensures room { IfSome result (λ items. first + second ≤ vec_capacity items) }
{
    Vec::with_capacity(alloc, first.checked_add(second)?).ok()
}

/// The union of two ledgers: their items in ascending order, without duplicates. The union is
/// written to a vector that must have room for all items of the two ledgers.
pub(crate) fn union_of(
    mut first: &[LedgerItem],
    mut second: &[LedgerItem],
    mut items: Vec<LedgerItem>,
) -> Vec<LedgerItem>
    requires first { IsStrictlyAscending ledger_item_cmp (map item_meant first.now) }
    requires second { IsStrictlyAscending ledger_item_cmp (map item_meant second.now) }
    requires empty { items.items ≡ [] }
    requires none { vec_len items ≡ 0 }
    requires room { length first.now + length second.now ≤ vec_capacity items }
    ensures ascending { IsStrictlyAscending ledger_item_cmp (map item_meant result.items) }
    ensures members { (item : _) → Contains (map item_meant result.items) item
        ↔ Contains (map item_meant first.entry.now ++ map item_meant second.entry.now) item }
{
    loop {
        let item = match (first, second) {
            ([], []) => break,
            ([one, others @ ..], []) => {
                first = others;
                one
            }
            ([], [one, others @ ..]) => {
                second = others;
                one
            }
            ([one, left @ ..], [other, right @ ..]) => match one.cmp(other) {
                Ordering::Less => {
                    first = left;
                    one
                }
                Ordering::Equal => {
                    first = left;
                    second = right;
                    one
                }
                Ordering::Greater => {
                    second = right;
                    other
                }
            },
        };
        items.push_reserved(*item);
    }
    items
}

/// Removes the items that are below a floor. Without a floor all items stay.
pub(crate) fn kept_items(mut items: Vec<LedgerItem>, floor: &Option<FileStamp>) -> Vec<LedgerItem>
    requires { IsStrictlyAscending ledger_item_cmp (map item_meant items.items) }
    ensures ascending { IsStrictlyAscending ledger_item_cmp (map item_meant result.items) }
    ensures members { (item : _) → Contains (map item_meant result.items) item
        ↔ (Contains (map item_meant items.items) item × IsKept (floor_meant floor.now) item.stamp) }
{
    items.retain(|item| is_kept_item(floor, item));
    items
}

/// Whether an item isn't below a floor. Returns true if there is no floor.
fn is_kept_item(floor: &Option<FileStamp>, item: &LedgerItem) -> bool
    ensures { IsTrue result ↔ IsKept (floor_meant floor.now) (item_meant item.now).stamp }
{
    item.stamp().is_kept(floor)
}

/// Whether a ledger has each of these items that isn't below the floor.
pub(crate) fn has_kept_items(
    ledger: &[LedgerItem],
    items: &[LedgerItem],
    floor: &Option<FileStamp>,
) -> bool
    requires { IsStrictlyAscending ledger_item_cmp (map item_meant ledger.now) }
    ensures { IsTrue result
        ↔ HasKeptItems (map item_meant ledger.now) (map item_meant items.now)
        (floor_meant floor.now) }
{
    for item in items {
        if !has_if_kept(ledger, item, floor) {
            return false;
        }
    }
    true
}

/// Whether a ledger has this item, or the item is below the floor.
fn has_if_kept(ledger: &[LedgerItem], item: &LedgerItem, floor: &Option<FileStamp>) -> bool
    requires { IsStrictlyAscending ledger_item_cmp (map item_meant ledger.now) }
    ensures { IsTrue result
        ↔ HasIfKept (map item_meant ledger.now) (item_meant item.now) (floor_meant floor.now) }
{
    !is_kept_item(floor, item) || has_item(ledger, item)
}

/// Whether a ledger has this item, found by binary search.
fn has_item(ledger: &[LedgerItem], item: &LedgerItem) -> bool
    requires { IsStrictlyAscending ledger_item_cmp (map item_meant ledger.now) }
    ensures { IsTrue result ↔ Contains (map item_meant ledger.now) (item_meant item.now) }
{
    ledger.binary_search(item).is_ok()
}

/// Whether a file stamp is greater than the stamps of all items in a ledger. Only the last item is
/// read, since it has the greatest stamp.
pub(crate) fn is_above_all(ledger: &[LedgerItem], stamp: &FileStamp) -> bool
    requires { IsStrictlyAscending ledger_item_cmp (map item_meant ledger.now) }
    ensures { IsTrue result → (item : _) → Contains (map item_meant ledger.now) item
        → IsBelow file_stamp_cmp item.stamp (file_stamp_meant stamp.now) }
{
    match ledger.split_last() {
        Some((item, _)) => item.stamp() < *stamp,
        None => true,
    }
}
