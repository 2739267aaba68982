//! The floor: the file stamp of the newest full extract in a state's ledger. Ledger items and
//! entries whose file stamp is below the floor are dropped.
ghost use Rattle.std.specs.Prelude.{◌≡◌, ◌==◌, ◌++◌, map, find};
ghost use Rattle.std.specs.Option.{option_copied};
ghost use Rattle.docker_model.specs.state.Stamp.{IsFloor};
ghost use Rattle.docker_model.specs.state.State.{IsLedger};
ghost use Rattle.docker_join.specs.Meaning.{floor_meant};
ghost use Rattle.docker_state.specs.Meaning.{item_meant};

use crate::item::LedgerItem;
use docker_join::{FileStamp, Pick};

/// The first ledger item that is for a full extract. Returns `None` if there is no full extract.
fn first_full(items: &[LedgerItem]) -> Option<&LedgerItem>
    ensures { option_copied result ≡ find (λ item. (item_meant item).indicator == 70) items.now }
{
    items.iter().find(|item| item.is_full())
}

/// The floor of a ledger: the stamp of its first full extract. This extract is the newest full
/// extract, since a ledger has no items below its floor. Returns `None` if there is no full
/// extract.
pub(crate) fn floor_of(items: &[LedgerItem]) -> Option<FileStamp>
    requires { IsLedger (map item_meant items.now) }
    ensures { IsFloor (map item_meant items.now) (floor_meant result) }
{
    match first_full(items) {
        Some(item) => Some(item.stamp()),
        None => None,
    }
}

/// The floor of two ledgers together, given the floor of each: the greater of the two floors.
pub(crate) fn common_floor(first: Option<FileStamp>, second: Option<FileStamp>) -> Option<FileStamp>
    ensures { (left right : _) → IsFloor left (floor_meant first)
        → IsFloor right (floor_meant second) → IsFloor (left ++ right) (floor_meant result) }
{
    match (first, second) {
        (None, None) => None,
        (Some(one), None) => Some(one),
        (None, Some(other)) => Some(other),
        (Some(one), Some(other)) => Some(one.pick(other)),
    }
}
