//! An iterator over the live keys of a state.
ghost use Rattle.std.specs.Prelude.{◌≡◌, map, List};
ghost use Rattle.std.specs.Iterator.{YieldsFirstBy, item_count};
ghost use Rattle.docker_model.specs.file.Change as model;
ghost use Rattle.cif_change.specs.Meaning.{key_meant, body_meant};
ghost use Rattle.docker_join.specs.Meaning.{row_meant};
ghost use Rattle.docker_state.specs.Live.{live_rows};

use cif_file::{Body, Key};
use docker_join::{Entry, Op};
use std::marker::Model;

/// An iterator over the live keys, in ascending order. It returns each key with its body.
#[derive(Clone, Debug, Drop)]
pub struct Live<'a> {
    rows: &'a [(Key, Entry)],
}

impl<'a> Model for Live<'a> {
    ghost Value = { List (model.Key × model.Body) };

    ghost view = { λ live. live_rows (map row_meant live.rows.now) };
}

impl<'a> Live<'a> {
    /// An iterator over the live keys of these rows.
    pub(crate) fn of(rows: &'a [(Key, Entry)]) -> Live<'a>
        ensures { result ≡ live_rows (map row_meant rows.entry.now) }
    {
        Live { rows }
    }
}

impl<'a> Iterator for Live<'a> {
    type Item = (&'a Key, &'a Body);

    ghost next_gives = { YieldsFirstBy (λ row. (key_meant row.0.now, body_meant row.1.now))
        (λ live. live) };

    ghost remaining = { item_count (λ live. live) };

    fn next(&mut self) -> Option<(&'a Key, &'a Body)> {
        while let Some((row, rest)) = self.rows.split_first() {
            self.rows = rest;
            if let Op::Put(body) = &row.1.op {
                return Some((&row.0, body));
            }
        }
        None
    }
}
