//! The index of a state's rows, if the state has an index.
ghost use Rattle.std.specs.Prelude.{map};
ghost use Rattle.docker_join.specs.Meaning.{row_meant};
ghost use Rattle.state_index.specs.Rooms.{items_of};
ghost use Rattle.docker_state.specs.Indexed.{HasRoomIfAny, IsIndexIfAny};

use cif_file::Key;
use docker_join::Entry;
use state_index::Index;

/// Makes the index of these rows, in memory that was reserved beforehand, if there is an index.
pub(crate) fn refill(index: &mut Option<Index>, rows: &[(Key, Entry)])
    requires { HasRoomIfAny (items_of (map row_meant rows.now)) index.old }
    ensures index { IsIndexIfAny (map row_meant rows.now) index.new }
    ensures room { HasRoomIfAny (items_of (map row_meant rows.now)) index.new }
{
    if let Some(index) = index {
        index.refill(rows);
    }
}
