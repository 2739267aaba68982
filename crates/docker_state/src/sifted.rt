//! The live rows at a place, found by a walk over all rows.
ghost use Rattle.std.specs.Prelude.{◌≡◌, false, length, map, List};
ghost use Rattle.std.specs.Iterator.{YieldsFirstBy, item_count};
ghost use Rattle.std.specs.Option.{option_map};
ghost use Rattle.docker_model.specs.state.Row.{Row};
ghost use Rattle.cif_change.specs.Meaning.{key_meant, body_meant};
ghost use Rattle.docker_join.specs.Meaning.{row_meant};
ghost use Rattle.docker_state.specs.PlaceRows.{is_call, is_here, is_link, row_here, rows_here};

use cif_file::{Body, Key, calls_at};
use cif_line::Tiploc;
use docker_join::{Entry, Op};
use std::marker::Model;

/// An iterator that walks over all rows and returns the live rows at a place, in key order. For
/// each row it returns the row's index among all rows, the key and the body. No clause says that
/// the row's index is right.
#[derive(Clone, Debug, Drop)]
pub(crate) struct SiftedRows<'a> {
    count: usize,
    rows: &'a [(Key, Entry)],
    place: Tiploc,
    links: bool,
}

impl<'a> Model for SiftedRows<'a> {
    ghost Value = { List Row };

    ghost view = { λ sifted.
        rows_here sifted.links sifted.place (map row_meant sifted.rows.now) };
}

impl<'a> SiftedRows<'a> {
    /// An iterator over the associations at the place if `links` is true, and otherwise over the
    /// schedules that call there.
    pub(crate) fn of(rows: &'a [(Key, Entry)], place: &Tiploc, links: bool) -> SiftedRows<'a>
        ensures { result ≡ rows_here links place.now (map row_meant rows.entry.now) }
    {
        SiftedRows {
            count: rows.len(),
            rows,
            place: *place,
            links,
        }
    }
}

impl<'a> Iterator for SiftedRows<'a> {
    type Item = (usize, &'a Key, &'a Body);

    ghost next_gives = { YieldsFirstBy
        (λ row. (key_meant row.1.now, body_meant row.2.now)) (λ sifted. sifted) };

    ghost remaining = { item_count (λ sifted. sifted) };

    fn next(&mut self) -> Option<(usize, &'a Key, &'a Body)> {
        while let Some((row, behind)) = self.rows.split_first() {
            let at = self.count.saturating_sub(self.rows.len());
            self.rows = behind;
            if let Some((key, body)) = found(row, &self.place, self.links) {
                return Some((at, key, body));
            }
        }
        None
    }
}

/// How many of these rows are live schedules that call at a place.
pub(crate) fn count_calls(rows: &[(Key, Entry)], place: &Tiploc) -> usize
    ensures { result ≡ length (rows_here false place.now (map row_meant rows.now)) }
{
    let mut count = 0;
    let mut rest = rows;
    while let Some((row, behind)) = rest.split_first() {
        if found(row, place, false).is_some() {
            count += 1;
        }
        rest = behind;
    }
    count
}

/// A row's key and body, if the row is live and at the place.
fn found<'a>(row: &'a (Key, Entry), place: &Tiploc, links: bool) -> Option<(&'a Key, &'a Body)>
    ensures { option_map (λ here. (key_meant here.0.now, body_meant here.1.now)) result
        ≡ row_here links place.now (row_meant row.entry.now) }
{
    match &row.1.op {
        Op::Put(body) => {
            if is_here(links, place, &row.0, body) {
                Some((&row.0, body))
            } else {
                None
            }
        }
        _ => None,
    }
}

/// Whether a live key with this body is at the place. If `links` is true, it must be an association
/// there, and otherwise a schedule that calls there.
fn is_here(links: bool, place: &Tiploc, key: &Key, body: &Body) -> bool
    ensures { result ≡ is_here links place.now (key_meant key.now) (body_meant body.now) }
{
    if links {
        is_link(place, key, body)
    } else {
        is_call(place, key, body)
    }
}

/// Whether the key is a schedule's, and the schedule with this body calls at the place.
fn is_call(place: &Tiploc, key: &Key, body: &Body) -> bool
    ensures { result ≡ is_call place.now (key_meant key.now) (body_meant body.now) }
{
    match (key, body) {
        (Key::Schedule(_), Body::Schedule(lines)) => calls_at(place, lines.as_slice()),
        _ => false,
    }
}

/// Whether the key is an association's, and the association is at the place.
fn is_link(place: &Tiploc, key: &Key, body: &Body) -> bool
    ensures { result ≡ is_link place.now (key_meant key.now) (body_meant body.now) }
{
    match (key, body) {
        (Key::Assoc(key), Body::Assoc(_)) => key.location == *place,
        _ => false,
    }
}
