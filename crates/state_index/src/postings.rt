//! Writes the postings of rows into memory that was reserved beforehand, and sorts them.
ghost use Rattle.std.specs.Prelude.{◌≡◌, ◌+◌, ◌<◌, ◌^◌, ◌↔◌, ◌∷◌, [], length, map, vec_capacity, Contains};
ghost use Rattle.docker_model.specs.records.Record.{columns};
ghost use Rattle.docker_model.specs.state.Order.{IsStrictlyAscending};
ghost use Rattle.state_index.specs.NamedPlaces.{location_lines};
ghost use Rattle.docker_join.specs.Meaning.{row_meant};
ghost use Rattle.state_index.specs.PostingOrder.{posting_cmp};
ghost use Rattle.state_index.specs.Rooms.{items_of, places_in};
ghost use Rattle.state_index.specs.Posted.{ArePosted, CanPost, asked_places};
ghost use Rattle.state_index.specs.Spots.{spot_at, spots_of};

use crate::memo::Memo;
use crate::names::rank_in;
use crate::places::{is_location, tiploc_in};
use crate::posting::Posting;
use cif_change::{Body, Key};
use cif_line::Line;
use docker_join::{Entry, Op};

/// Appends the postings of rows, row by row: the postings of their associations if `links` is true,
/// and otherwise the postings of their calls. `places` must have each of their places, and there
/// must be room for their postings.
pub(crate) fn post_rows(
    places: &[[u8; 7]],
    memo: &Memo,
    links: bool,
    rows: &[(Key, Entry)],
    postings: &mut Vec<Posting>,
)
    requires few { length rows.now < 2 ^ 32 }
    requires can { CanPost places.now
        (places_in (asked_places links) (items_of (map row_meant rows.now))) postings.old }
    ensures { ArePosted places.now (spots_of (asked_places links) (map row_meant rows.now))
        postings.old postings.new }
{
    let mut at: u32 = 0;
    let mut rest = rows;
    while let Some((row, behind)) = rest.split_first() {
        post_row(places, memo, links, row, at, postings);
        at += 1;
        rest = behind;
    }
}

/// Appends the postings of the row at index `at`.
fn post_row(
    places: &[[u8; 7]],
    memo: &Memo,
    links: bool,
    row: &(Key, Entry),
    at: u32,
    postings: &mut Vec<Posting>,
)
    requires { CanPost places.now
        (asked_places links (row_meant row.now).0 (row_meant row.now).1.op) postings.old }
    ensures { ArePosted places.now
        (map (spot_at at) (asked_places links (row_meant row.now).0 (row_meant row.now).1.op))
        postings.old postings.new }
{
    match (links, &row.0, &row.1.op) {
        (false, Key::Schedule(_), Op::Put(Body::Schedule(lines))) => {
            post_locations(places, memo, lines.as_slice(), at, postings);
        }
        (true, Key::Assoc(key), Op::Put(Body::Assoc(_))) => {
            post_place(places, memo, key.location.bytes(), at, postings);
        }
        _ => {}
    }
}

/// Appends a posting for each location record among the lines of the row at index `at`.
fn post_locations(
    places: &[[u8; 7]],
    memo: &Memo,
    lines: &[Line],
    at: u32,
    postings: &mut Vec<Posting>,
)
    requires { CanPost places.now (map (columns 3 9) (location_lines lines.now)) postings.old }
    ensures { ArePosted places.now
        (map (spot_at at) (map (columns 3 9) (location_lines lines.now)))
        postings.old postings.new }
{
    let mut rest = lines;
    while let Some((line, behind)) = rest.split_first() {
        if is_location(line) {
            post_place(places, memo, &tiploc_in(line), at, postings);
        }
        rest = behind;
    }
}

/// Appends the posting of a place and the row at index `at`.
fn post_place(
    places: &[[u8; 7]],
    memo: &Memo,
    place: &[u8; 7],
    at: u32,
    postings: &mut Vec<Posting>,
)
    requires { CanPost places.now (place.now ∷ []) postings.old }
    ensures { ArePosted places.now (spot_at at place.now ∷ []) postings.old postings.new }
{
    postings.push_reserved(Posting {
        place: rank_in(places, memo, place),
        at,
    });
}

/// Sorts the postings, and removes repeated postings.
pub(crate) fn settle(postings: &mut Vec<Posting>)
    ensures ascending { IsStrictlyAscending posting_cmp postings.new.items }
    ensures members { (posting : Posting) →
        Contains postings.new.items posting ↔ Contains postings.old.items posting }
    ensures capacity { vec_capacity postings.new ≡ vec_capacity postings.old }
{
    postings.sort_unstable_by(|posting, other| posting.compare(other));
    postings.dedup();
}
