//! Laws of the two indexes of a live table. A law is a function with an empty body. Its contract
//! states a fact, which holds for all values of the variables.
ghost use Rattle.std.specs.Prelude.{◌≡◌, ℕ, List, ◌↔◌, Contains};
ghost use Rattle.std.specs.List.{flat_map};
ghost use Rattle.docker_model.specs.state.Order.{IsStrictlyAscending};
ghost use Rattle.docker_model.specs.state.Table.{Table};
ghost use Rattle.docker_model.specs.state.Row.{Row, AreRowsOf};
ghost use Rattle.state_laws.specs.Index.{CallingRow, LinkedRow, calling_cmp, linked_cmp, calls_of, links_of, IsCallingIndex, IsLinkedIndex};
ghost use Rattle.state_laws.specs.Index.{AreCalling, AreLinked, AreOfUid};

/// A live table has at most one index of calls and at most one index of associations. It has at
/// most one list of rows for the schedules that call at a place, for the associations at a place,
/// and for the schedules of a UID. An index of the table consists of the index rows for all rows of
/// the table, sorted and without duplicates.
pub fn one_index()
    ensures calling { (live : Table) (first second : List CallingRow)
        → IsCallingIndex live first → IsCallingIndex live second → first ≡ second }
    ensures linked { (live : Table) (first second : List LinkedRow)
        → IsLinkedIndex live first → IsLinkedIndex live second → first ≡ second }
    ensures calls { (live : Table) (place : List ℕ) (first second : List Row)
        → AreCalling live place first → AreCalling live place second → first ≡ second }
    ensures links { (live : Table) (place : List ℕ) (first second : List Row)
        → AreLinked live place first → AreLinked live place second → first ≡ second }
    ensures of_uid { (live : Table) (uid : List ℕ) (first second : List Row)
        → AreOfUid live uid first → AreOfUid live uid second → first ≡ second }
    ensures calling_made { (live : Table) (rows : List Row) (index : List CallingRow)
        → AreRowsOf live rows → IsStrictlyAscending calling_cmp index
        → ((row : CallingRow) → Contains index row
        ↔ Contains (flat_map (λ (r : Row). calls_of r.0 r.1) rows) row)
        → IsCallingIndex live index }
    ensures linked_made { (live : Table) (rows : List Row) (index : List LinkedRow)
        → AreRowsOf live rows → IsStrictlyAscending linked_cmp index
        → ((row : LinkedRow) → Contains index row
        ↔ Contains (flat_map (λ (r : Row). links_of r.0 r.1) rows) row) → IsLinkedIndex live index }
{}
