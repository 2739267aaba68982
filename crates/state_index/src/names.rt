//! The ordered list of places in an index.
ghost use Rattle.std.specs.Prelude.{◌≡◌, ◌<◌, ◌^◌, ◌++◌, [], ◌∷◌, length, Contains, IsSome, IfSome, IsTrue, Some, slice_get};
ghost use Rattle.std.specs.Int.{from_le_bytes, w64};
ghost use Rattle.docker_model.specs.state.Order.{bytes_cmp, IsStrictlyAscending};
ghost use Rattle.state_index.specs.Rooms.{Includes};

use crate::memo::Memo;

/// These places, sorted in ascending order and without duplicates.
pub(crate) fn ascending_places(mut places: Vec<[u8; 7]>) -> Vec<[u8; 7]>
    ensures up { IsStrictlyAscending bytes_cmp result.items }
    ensures all { Includes places.items result.items }
{
    places.sort_unstable();
    places.dedup();
    places
}

/// The index of a place in an ascending list of places. Returns `None` if the list doesn't have it.
pub(crate) fn rank_of(places: &[[u8; 7]], place: &[u8; 7]) -> Option<usize>
    requires { IsStrictlyAscending bytes_cmp places.now }
    ensures some { IfSome result (λ rank. slice_get places.now rank ≡ Some place.now) }
    ensures among { Contains places.now place.now → IsSome result }
{
    match places.binary_search(place) {
        Ok(rank) => Some(rank),
        Err(_) => None,
    }
}

/// The index of a place in an ascending list of places, which must have it. If the memo has
/// forgotten the place, a binary search finds it.
pub(crate) fn rank_in(places: &[[u8; 7]], memo: &Memo, place: &[u8; 7]) -> u32
    requires up { IsStrictlyAscending bytes_cmp places.now }
    requires few { length places.now < 2 ^ 32 }
    requires among { Contains places.now place.now }
    ensures { slice_get places.now result ≡ Some place.now }
{
    if let Some(rank) = memo.find(places, place) {
        return rank;
    }
    match rank_of(places, place) {
        Some(rank) => rank as u32,
        None => unreachable!(),
    }
}

/// Whether this place is at this index of a list of places.
pub(crate) fn is_at(places: &[[u8; 7]], index: u32, place: &[u8; 7]) -> bool
    ensures { IsTrue result → slice_get places.now index ≡ Some place.now }
{
    match places.get(index as usize) {
        Some(one) => is_same(one, place),
        None => false,
    }
}

/// Whether two places have the same bytes.
fn is_same(one: &[u8; 7], other: &[u8; 7]) -> bool
    ensures { IsTrue result → one.now ≡ other.now }
{
    packed(one) == packed(other)
}

/// The seven bytes of a place packed into one number, the first byte lowest. Two places can then be
/// compared at once instead of byte by byte.
pub(crate) fn packed(place: &[u8; 7]) -> u64
    ensures { result ≡ from_le_bytes w64 (place.now ++ 0 ∷ []) }
{
    let [a, b, c, d, e, f, g] = *place;
    u64::from_le_bytes([a, b, c, d, e, f, g, 0])
}
