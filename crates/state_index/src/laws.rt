//! The laws of indexes. An index of a state's rows determines the indexes of its live table, and
//! the same rows always have the same index. Each law is the contract of a function with an empty
//! body.
ghost use Rattle.std.specs.Prelude.{◌≡◌, List};
ghost use Rattle.docker_model.specs.file.Change.{Key};
ghost use Rattle.docker_model.specs.state.Op.{Entry};
ghost use Rattle.docker_model.specs.state.State.{State, AreAscending, live_table};
ghost use Rattle.state_laws.specs.Index.{IsCallingIndex, IsLinkedIndex};
ghost use Rattle.state_index.specs.declared.index.Index.{Index};
ghost use Rattle.state_index.specs.Spots.{IsIndexOf, call_spots, link_spots};
ghost use Rattle.state_index.specs.Tables.{calling_rows, linked_rows};

/// An index of a state's rows contains the two indexes of the state's live table: where schedules
/// call, and where associations are. A spot is a posting with the TIPLOC itself instead of the
/// TIPLOC's index.
pub fn indexes_of_rows()
    ensures calls { (state : State) (index : Index)
        → AreAscending state.entries → IsIndexOf state.entries index
        → IsCallingIndex (live_table state) (calling_rows state.entries (call_spots index)) }
    ensures links { (state : State) (index : Index)
        → AreAscending state.entries → IsIndexOf state.entries index
        → IsLinkedIndex (live_table state) (linked_rows state.entries (link_spots index)) }
{}

/// Two indexes of the same rows have the same spots. A spot is a posting with the TIPLOC itself
/// instead of the TIPLOC's index.
pub fn one_index_of_rows()
    ensures calls { (rows : List (Key × Entry)) (first second : Index)
        → IsIndexOf rows first → IsIndexOf rows second → call_spots first ≡ call_spots second }
    ensures links { (rows : List (Key × Entry)) (first second : Index)
        → IsIndexOf rows first → IsIndexOf rows second → link_spots first ≡ link_spots second }
{}
