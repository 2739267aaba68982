//! Tables, which have one row for each key.
ghost use Rattle.std.specs.Prelude.{◌≡◌, ◌==◌, ◌+◌, ◌≤◌, [], false, length, map, vec_len, vec_capacity, IfOk, IfErr};
ghost use Rattle.std.specs.Option.{option_copied};
ghost use Rattle.cif_change.specs.Meaning.{key_meant};
ghost use Rattle.docker_model.specs.state.Lapse.{lapse_entries};
ghost use Rattle.docker_join.specs.Meaning.{row_meant};
ghost use Rattle.docker_join.specs.Rows.{AreAscending, value_at};

use crate::entry::Entry;
use crate::merge::{Merge, Pick};
use crate::rows::{join_rows, lapse_rows};
use cif_change::Key;
use std::alloc::Global;
use std::marker::Model;

/// A table: keys, each with one value, such as an entry.
#[derive(Debug, Drop)]
pub struct Table<E> {
    /// The rows, each a key and its value, in ascending order of keys.
    pub rows: Vec<(Key, E)>,
}

impl<E> Model for Table<E> {
    ghost use Rattle.std.specs.Prelude.{List};
    ghost use Rattle.cif_change.specs.declared.key.Key.{Key};
    ghost use Rattle.docker_join.specs.Rows.{AreAscending};

    ghost Value = { List (Key × E) };

    ghost view = { λ table. table.rows.items };

    ghost invariant = { λ table. AreAscending table.rows.items };
}

impl<E> Table<E> {
    /// A table without rows.
    pub fn new(alloc: Global) -> Table<E>
        ensures { result ≡ [] }
    {
        Table {
            rows: Vec::new(alloc),
        }
    }

    /// Makes a table from these rows, whose keys must ascend.
    pub fn from_rows(rows: Vec<(Key, E)>) -> Table<E>
        requires { AreAscending rows.items }
        ensures { result ≡ rows.items }
    {
        Table { rows }
    }

    /// The rows, in the order of their keys.
    pub fn as_slice(&self) -> &[(Key, E)]
        ensures rows { result.now ≡ self.now }
        ensures ascending { AreAscending self.now }
    {
        self.rows.as_slice()
    }

    /// The rows, in the order of their keys.
    pub fn into_rows(self) -> Vec<(Key, E)>
        ensures rows { result.items ≡ self }
        ensures ascending { AreAscending self }
    {
        let Table { rows } = self;
        rows
    }

    /// The rows, in the order of their keys, in a vector with room for `more` further rows. If
    /// memory runs out, returns the table unchanged. A vector with more room is shrunk first,
    /// because a join moves rows through all of its room.
    pub fn with_room(self, more: usize) -> Result<Vec<(Key, E)>, Table<E>>
        ensures rows { IfOk result (λ rows. rows.items ≡ self) }
        ensures room { IfOk result (λ rows. vec_len rows + more ≤ vec_capacity rows) }
        ensures ascending { AreAscending self }
        ensures err { IfErr result (λ back. back ≡ self) }
    {
        let mut rows = self.into_rows();
        rows.shrink_to(rows.len().saturating_add(more));
        match rows.reserve_exact(more) {
            Ok(()) => Ok(rows),
            Err(_) => Err(Table::from_rows(rows)),
        }
    }

    /// How many rows there are.
    pub fn len(&self) -> usize
        ensures { result ≡ length self.now }
    {
        self.rows.len()
    }

    /// Whether the table has no rows.
    pub fn is_empty(&self) -> bool
        ensures { result ≡ (length self.now == 0) }
    {
        self.rows.is_empty()
    }

    /// The value of a key. Returns `None` if the table doesn't have the key.
    pub fn get(&self, key: &Key) -> Option<&E>
        ensures { option_copied result ≡ value_at self.now (key_meant key.now) }
    {
        match self.rows.binary_search_by(|row| row.0.cmp(key)) {
            Ok(at) => Some(&self.rows[at].1),
            Err(_) => None,
        }
    }
}

impl Table<Entry> {
    /// Makes each entry lapse if its body ended before the horizon. Keys and stamps are unchanged,
    /// and an op that lapses loses its body. Returns whether any op has lapsed in this call.
    pub fn lapse(&mut self, horizon: u16) -> bool
        ensures lapsed { map row_meant self.new ≡ lapse_entries horizon (map row_meant self.old) }
        ensures same { result ≡ false → self.new ≡ self.old }
    {
        lapse_rows(&mut self.rows, horizon)
    }
}

impl<E: Pick> Merge for Table<E> {
    ghost use Rattle.docker_join.specs.Rows.{AreValidRows, IsJoinOfRows};
    ghost use Rattle.docker_join.specs.RowLaws.{joins_closed, joins_one, joins_commute, joins_associate, joins_itself};
    ghost use Rattle.state_laws.proofs.joins.PickLaws.{pick_laws};

    // Says that the keys ascend and that each value is valid.
    ghost is_valid = { AreValidRows E.is_valid };

    ghost is_join = { IsJoinOfRows E.picked };

    ghost closed = { joins_closed E.is_valid E.picked
        (pick_laws E.is_valid E.is_join E.picked E.closed E.one E.commutative E.associative E.idempotent E.joins) };

    ghost one = { joins_one E.is_valid E.picked };

    ghost commutative = { joins_commute E.is_valid E.picked
        (pick_laws E.is_valid E.is_join E.picked E.closed E.one E.commutative E.associative E.idempotent E.joins) };

    ghost associative = { joins_associate E.is_valid E.picked
        (pick_laws E.is_valid E.is_join E.picked E.closed E.one E.commutative E.associative E.idempotent E.joins) };

    ghost idempotent = { joins_itself E.is_valid E.picked
        (pick_laws E.is_valid E.is_join E.picked E.closed E.one E.commutative E.associative E.idempotent E.joins) };

    /// Joins two tables. A key that both tables have gets the join of its two values, and a key
    /// that only one table has keeps its value. If memory runs out, returns both tables unchanged,
    /// and no row has moved.
    fn join(self, _alloc: Global, other: Table<E>) -> Result<Table<E>, (Table<E>, Table<E>)> {
        match self.with_room(other.len()) {
            Ok(rows) => Ok(Table::from_rows(join_rows(rows, other.into_rows()))),
            Err(back) => Err((back, other)),
        }
    }
}
