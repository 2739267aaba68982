//! Finds the schedules of a UID.
ghost use Rattle.std.specs.Prelude.{◌≡◌, ◌≤◌, true, not, length, position};
ghost use Rattle.std.specs.List.{position_or_len};
ghost use Rattle.std.specs.Ordering.{is_le};
ghost use Rattle.cif_change.specs.Meaning.{key_meant};
ghost use Rattle.docker_join.specs.Rows.{AreAscending};
ghost use Rattle.docker_state.specs.UidPiece.{to_uid, is_of_uid_at, IsBeginning, IsPieceOfUid};

use cif_file::Key;
use cif_line::Uid;
use docker_join::Entry;
use std::cmp::Ordering;

/// The rows of a UID's schedules, which are next to each other in key order. A walk finds the last
/// of these rows, because a UID has few schedules, and a binary search would read rows far away in
/// memory.
pub(crate) fn rows_of_uid<'a>(
    rows: &'a [(Key, Entry)],
    uid: &Uid,
    near: usize,
) -> &'a [(Key, Entry)]
    requires { AreAscending rows.now }
    ensures { IsPieceOfUid uid.now rows.entry.now result.now }
{
    let (_, rest) = rows.split_at(rows_before(rows, uid, near));
    let (here, _) = rest.split_at(rows_up_to(rest, uid));
    here
}

/// How many rows come before the UID's schedules. If the row at index `near` is one of these
/// schedules, a backward walk finds the first of them. Otherwise a binary search finds it.
fn rows_before(rows: &[(Key, Entry)], uid: &Uid, near: usize) -> usize
    requires { AreAscending rows.now }
    ensures within { result ≤ length rows.now }
    ensures parts { IsBeginning uid.now rows.now result }
{
    if is_of_uid_at(rows, uid, near) {
        first_back(rows, uid, near)
    } else {
        rows.partition_point(|row| to_uid(&row.0, uid).is_lt())
    }
}

/// Whether the row at this index is a schedule of the UID. Returns false if there is no such row.
fn is_of_uid_at(rows: &[(Key, Entry)], uid: &Uid, at: usize) -> bool
    ensures { result ≡ is_of_uid_at uid.now rows.now at }
{
    match rows.get(at) {
        Some(row) => to_uid(&row.0, uid).is_eq(),
        None => false,
    }
}

/// The index of the UID's first schedule. A backward walk from the given row, which is one of the
/// UID's schedules, finds it.
fn first_back(rows: &[(Key, Entry)], uid: &Uid, from: usize) -> usize
    requires up { AreAscending rows.now }
    requires here { is_of_uid_at uid.now rows.now from ≡ true }
    ensures within { result ≤ length rows.now }
    ensures parts { IsBeginning uid.now rows.now result }
{
    let mut first = from;
    while first > 0 && !to_uid(&rows[first - 1].0, uid).is_lt() {
        first -= 1;
    }
    first
}

/// The index just after the UID's last schedule. This is the number of rows that are schedules of
/// the UID or come before them.
fn rows_up_to(rows: &[(Key, Entry)], uid: &Uid) -> usize
    ensures { result
        ≡ position_or_len (λ row. not (is_le (to_uid (key_meant row.0) uid.now))) rows.now }
{
    match first_after(rows, uid) {
        Some(at) => at,
        None => rows.len(),
    }
}

/// The index of the first row after the UID's schedules. Returns `None` if no row comes after them.
fn first_after(rows: &[(Key, Entry)], uid: &Uid) -> Option<usize>
    ensures { result
        ≡ position (λ row. not (is_le (to_uid (key_meant row.0) uid.now))) rows.now }
{
    rows.iter().position(|row| !to_uid(&row.0, uid).is_le())
}

/// Compares a key with the keys of a UID's schedules. Returns `Equal` for a schedule of the UID.
fn to_uid(key: &Key, uid: &Uid) -> Ordering
    ensures { result ≡ to_uid (key_meant key.now) uid.now }
{
    match key {
        Key::Tiploc(_) => Ordering::Less,
        Key::Assoc(_) => Ordering::Less,
        Key::Schedule(schedule) => schedule.uid.cmp(uid),
    }
}
