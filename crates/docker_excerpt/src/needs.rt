//! The entries of a state from which the docker of a place is made.
ghost use Rattle.std.specs.Prelude.{◌≡◌, ◌||◌, ◌↔◌, map, true, Contains};
ghost use Rattle.std.specs.List.Sorted.{IsSorted};
ghost use Rattle.docker_model.specs.state.Order.{bytes_cmp};
ghost use Rattle.docker_laws.specs.ExcerptWalk.{is_here, name_in, is_call, goes_on};
ghost use Rattle.docker_laws.specs.Thinning.{may_matter};
ghost use Rattle.cif_change.specs.Meaning.{key_meant};
ghost use Rattle.docker_join.specs.Meaning.{op_meant, row_meant};

use cif_change::{Body, Key};
use cif_file::calls_at;
use cif_line::{Tiploc, Uid};
use state_text::{Entry, Op};

/// Whether a key is the place's TIPLOC, or an association at the place.
pub(crate) fn is_here(place: &Tiploc, key: &Key) -> bool
    ensures { result ≡ is_here place.now (key_meant key.now) }
{
    match key {
        Key::Tiploc(code) => *code == *place,
        Key::Assoc(assoc) => assoc.location == *place,
        Key::Schedule(_) => false,
    }
}

/// Whether the docker of a place may depend on the body under this key. It may if the key is the
/// place's TIPLOC, the key of an association at the place, or the key of any schedule.
pub(crate) fn may_matter(place: &Tiploc, key: &Key) -> bool
    ensures { result ≡ may_matter place.now (key_meant key.now) }
{
    match key {
        Key::Tiploc(_) => is_here(place, key),
        Key::Assoc(_) => is_here(place, key),
        Key::Schedule(_) => true,
    }
}

/// The UID of the associated train of a live association. Returns `None` for any other entry.
pub(crate) fn name_in(key: &Key, op: &Op) -> Option<Uid>
    ensures { result ≡ name_in (key_meant key.now) (op_meant op.now) }
{
    match (key, op) {
        (Key::Assoc(assoc), Op::Put(Body::Assoc(_))) => Some(assoc.associated),
        _ => None,
    }
}

/// Whether the schedules in `run`, which all have the same UID, have this UID. Returns false if
/// `run` is empty.
pub(crate) fn goes_on(run: &[(Key, Entry)], uid: &Uid) -> bool
    ensures { result ≡ goes_on (map row_meant run.now) uid.now }
{
    match run.first() {
        Some((Key::Schedule(first), _)) => first.uid == *uid,
        _ => false,
    }
}

/// Whether a UID is among these sorted UIDs. The function uses binary search.
pub(crate) fn has_name(names: &[Uid], uid: &Uid) -> bool
    requires { IsSorted bytes_cmp names.now }
    ensures { (result ≡ true) ↔ Contains names.now uid.now }
{
    names.binary_search(uid).is_ok()
}

/// Whether the schedules of a UID are needed if one more entry is added to them. They are needed if
/// they were needed before, or if the entry is a live schedule that calls at the place.
pub(crate) fn is_needed_with(needed: bool, place: &Tiploc, op: &Op) -> bool
    ensures { result ≡ (needed || is_call place.now (op_meant op.now)) }
{
    if needed {
        return true;
    }
    is_call(place, op)
}

/// Whether the entry with this op is a live schedule that calls at the place.
fn is_call(place: &Tiploc, op: &Op) -> bool
    ensures { result ≡ is_call place.now (op_meant op.now) }
{
    match op {
        Op::Put(Body::Schedule(lines)) => calls_at(place, lines.as_slice()),
        _ => false,
    }
}
