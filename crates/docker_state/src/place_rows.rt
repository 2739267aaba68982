//! An iterator over the live rows at a place, found in an index or among all rows.
ghost use Rattle.std.specs.Prelude.{◌≡◌, List};
ghost use Rattle.std.specs.Iterator.{YieldsFirstBy, item_count};
ghost use Rattle.docker_model.specs.state.Row.{Row};
ghost use Rattle.cif_change.specs.Meaning.{key_meant, body_meant};
ghost use Rattle.docker_state.specs.Walked.{rows_walked};

use crate::sifted::SiftedRows;
use cif_file::{Body, Key};
use state_index::IndexedRows;
use std::marker::Model;

/// How the live rows at a place are found.
#[derive(Clone, Debug, Drop)]
pub(crate) enum Walk<'a> {
    /// The rows are found with the postings of an index.
    Indexed(IndexedRows<'a>),
    /// The rows are found by a walk over all rows.
    Sifted(SiftedRows<'a>),
}

impl<'a> Walk<'a> {
    /// The next live row at the place, with its index among all rows.
    fn next(&mut self) -> Option<(usize, &'a Key, &'a Body)>
        ensures { YieldsFirstBy (λ row. (key_meant row.1.now, body_meant row.2.now))
            rows_walked self.old result self.new }
    {
        match self {
            Walk::Indexed(rows) => rows.next(),
            Walk::Sifted(rows) => rows.next(),
        }
    }
}

/// An iterator over the live rows at a place, in key order. For each row it returns the row's index
/// among all rows, the key and the body. No clause says that the row's index is right. A caller may
/// use it as a hint about where to look first, but no result may depend on it.
#[derive(Clone, Debug, Drop)]
pub struct PlaceRows<'a> {
    walk: Walk<'a>,
}

impl<'a> Model for PlaceRows<'a> {
    ghost Value = { List Row };

    ghost view = { λ rows. rows_walked rows.walk };
}

impl<'a> PlaceRows<'a> {
    /// An iterator over the rows that a walk finds.
    pub(crate) fn of(walk: Walk<'a>) -> PlaceRows<'a>
        ensures { result ≡ rows_walked walk.entry }
    {
        PlaceRows { walk }
    }
}

impl<'a> Iterator for PlaceRows<'a> {
    type Item = (usize, &'a Key, &'a Body);

    ghost next_gives = { YieldsFirstBy
        (λ row. (key_meant row.1.now, body_meant row.2.now)) (λ rows. rows) };

    ghost remaining = { item_count (λ rows. rows) };

    fn next(&mut self) -> Option<(usize, &'a Key, &'a Body)> {
        self.walk.next()
    }
}
