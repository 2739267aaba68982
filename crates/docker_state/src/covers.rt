//! Finds out whether joining another state would add any item or entry to a state. If it wouldn't,
//! the join of the two states is the first state with the greater of the two horizons.
ghost use Rattle.std.specs.Prelude.{map, IsTrue, Contains};
ghost use Rattle.docker_model.specs.state.Stamp.{ledger_item_cmp, IsKept};
ghost use Rattle.docker_model.specs.state.Order.{IsStrictlyAscending};
ghost use Rattle.docker_model.specs.state.State.{raise_horizon, IsJoin};
ghost use Rattle.docker_join.specs.Meaning.{row_meant, floor_meant};
ghost use Rattle.docker_state.specs.Meaning.{item_meant};
ghost use Rattle.docker_state.specs.Staging.{HasNoneToStage};

use crate::item::LedgerItem;
use crate::ledger::{has_kept_items, is_above_all};
use crate::staging::is_to_stage;
use crate::state::State;
use cif_file::Key;
use docker_join::{Entry, FileStamp};

/// Whether each file of a ledger is below a floor. Returns false if there is no floor.
fn are_below(ledger: &[LedgerItem], floor: &Option<FileStamp>) -> bool
    requires { IsStrictlyAscending ledger_item_cmp (map item_meant ledger.now) }
    ensures { IsTrue result → (item : _) → Contains (map item_meant ledger.now) item
        → ¬ IsKept (floor_meant floor.now) item.stamp }
{
    match floor {
        Some(least) => is_above_all(ledger, least),
        None => false,
    }
}

/// Whether these entries add nothing to a state. An entry adds nothing if it is below the floor, or
/// if the state has an equal or greater entry for the same key. If the keys of the rows ascend,
/// each lookup begins near the previous lookup.
fn none_to_stage(own: &State, rows: &[(Key, Entry)], floor: &Option<FileStamp>) -> bool
    ensures { IsTrue result
        → HasNoneToStage own.now (floor_meant floor.now) (map row_meant rows.now) }
{
    let mut near = 0;
    let mut rest = rows;
    while let Some((row, behind)) = rest.split_first() {
        if is_to_stage(own, floor, &row.0, &row.1, &mut near) {
            return false;
        }
        rest = behind;
    }
    true
}

/// Whether the other state has no entry that the state `own` would have to take over. If all files
/// of the other state are below the floor, none of its rows is read.
fn brings_none(own: &State, other: &State, floor: &Option<FileStamp>) -> bool
    ensures { IsTrue result → HasNoneToStage own.now (floor_meant floor.now) other.now.entries }
{
    are_below(other.ledger(), floor) || none_to_stage(own, other.entries(), floor)
}

impl State {
    /// Whether the join with another state is this state with the greater of the two horizons.
    /// Returns true only if this state has each ledger item of the other state. For each entry of
    /// the other state, this state must also have an equal or greater entry for the same key. Items
    /// and entries below the common floor of the two states don't count.
    pub(crate) fn covers(&self, other: &State) -> bool
        ensures { IsTrue result
            → IsJoin self.now other.now (raise_horizon other.now.horizon self.now) }
    {
        let floor = self.floor_with(other);
        has_kept_items(self.ledger(), other.ledger(), &floor) && brings_none(self, other, &floor)
    }
}
