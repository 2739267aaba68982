//! An iterator over the rows at a place, found in an index: either the schedules that call there or
//! the associations there.
ghost use Rattle.std.specs.Prelude.{◌≡◌, List, length, map};
ghost use Rattle.std.specs.Iterator.{YieldsFirstBy, item_count};
ghost use Rattle.cif_change.specs.Meaning.{key_meant, body_meant};
ghost use Rattle.docker_join.specs.Meaning.{row_meant};
ghost use Rattle.std.specs.Option.{option_map};
ghost use Rattle.std.specs.Ordering.{is_lt, is_le, nat_cmp};
ghost use Rattle.docker_model.specs.state.Order.{bytes_cmp, IsStrictlyAscending};
ghost use Rattle.docker_model.specs.file.Change as model;
ghost use Rattle.docker_model.specs.state.Op as ops;
ghost use Rattle.docker_model.specs.state.Row.{Row};
ghost use Rattle.state_index.specs.Spots.{spots_in};
ghost use Rattle.state_index.specs.PostingOrder.{posting_cmp};
ghost use Rattle.state_index.specs.PlaceRows.{rows_at_spots, rows_at_postings, live_at_posting, IsPieceAt, IsPieceOf};

use crate::names::rank_of;
use crate::posting::Posting;
use cif_change::{Body, Key};
use docker_join::{Entry, Op};
use std::marker::Model;

/// An iterator over the live rows at a place, in key order. For each row it returns the row's index
/// among all rows, the key and the body. No clause says that the row's index is right. A caller may
/// use it as a hint about where to look first, but no result may depend on it.
#[derive(Clone, Debug, Drop)]
pub struct IndexedRows<'a> {
    rows: &'a [(Key, Entry)],
    postings: &'a [Posting],
}

impl<'a> Model for IndexedRows<'a> {
    ghost Value = { List Row };

    ghost view = { λ it. rows_at_postings (map row_meant it.rows.now) it.postings.now };
}

impl<'a> IndexedRows<'a> {
    /// An iterator over the rows of these postings.
    pub(crate) fn of(rows: &'a [(Key, Entry)], postings: &'a [Posting]) -> IndexedRows<'a>
        ensures { result ≡ rows_at_postings (map row_meant rows.entry.now) postings.entry.now }
    {
        IndexedRows { rows, postings }
    }
}

impl<'a> Iterator for IndexedRows<'a> {
    type Item = (usize, &'a Key, &'a Body);

    ghost next_gives = { YieldsFirstBy
        (λ row. (key_meant row.1.now, body_meant row.2.now)) (λ rows. rows) };

    ghost remaining = { item_count (λ rows. rows) };

    fn next(&mut self) -> Option<(usize, &'a Key, &'a Body)> {
        while let Some((posting, behind)) = self.postings.split_first() {
            self.postings = behind;
            if let Some((key, body)) = live_at(self.rows, posting) {
                return Some((posting.at as usize, key, body));
            }
        }
        None
    }
}

/// The key and the body of a posting's row. Returns `None` if the row isn't live, which means that
/// its op isn't a put.
fn live_at<'a>(rows: &'a [(Key, Entry)], posting: &Posting) -> Option<(&'a Key, &'a Body)>
    ensures { option_map (λ row. (key_meant row.0.now, body_meant row.1.now)) result
        ≡ live_at_posting (map row_meant rows.entry.now) posting.now }
{
    match rows.get(posting.at as usize) {
        Some((key, entry)) => match &entry.op {
            Op::Put(body) => Some((key, body)),
            _ => None,
        },
        None => None,
    }
}

/// The postings of one place among ascending postings, found by binary search. `rank` is the index
/// of the place in the list of places.
pub(crate) fn postings_of<'a>(postings: &'a [Posting], rank: usize) -> &'a [Posting]
    requires { IsStrictlyAscending posting_cmp postings.now }
    ensures { IsPieceOf rank postings.entry.now result.now }
{
    let (_, rest) = postings.split_at(postings.partition_point(|posting| is_before(posting, rank)));
    let (here, _) = rest.split_at(rest.partition_point(|posting| is_up_to(posting, rank)));
    here
}

/// Whether the index of a posting's place is below `rank`.
fn is_before(posting: &Posting, rank: usize) -> bool
    ensures { result ≡ is_lt (nat_cmp posting.now.place rank) }
{
    (posting.place as usize).cmp(&rank).is_lt()
}

/// Whether the index of a posting's place is `rank` or lower.
fn is_up_to(posting: &Posting, rank: usize) -> bool
    ensures { result ≡ is_le (nat_cmp posting.now.place rank) }
{
    (posting.place as usize).cmp(&rank).is_le()
}

/// The postings of one place among ascending postings, found by binary search. No postings are
/// found if the place isn't in the list of places.
pub(crate) fn postings_at<'a>(
    places: &[[u8; 7]],
    postings: &'a [Posting],
    place: &[u8; 7],
) -> &'a [Posting]
    requires named { IsStrictlyAscending bytes_cmp places.now }
    requires up { IsStrictlyAscending posting_cmp postings.now }
    ensures piece { IsPieceAt place.now (spots_in places.now postings.entry.now)
        (spots_in places.now result.now) }
    ensures each { length (spots_in places.now result.now) ≡ length result.now }
    ensures rows { (rows : List (model.Key × ops.Entry)) → rows_at_postings rows result.now
        ≡ rows_at_spots rows (spots_in places.now result.now) }
{
    match rank_of(places, place) {
        Some(rank) => postings_of(postings, rank),
        None => &postings[..0],
    }
}
