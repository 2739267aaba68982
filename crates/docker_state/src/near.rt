//! Looks up the entry for a key: first in the rows where the key is likely to be, and then by
//! binary search.
ghost use Rattle.std.specs.Prelude.{◌≡◌, IsTrue};
ghost use Rattle.std.specs.Option.{option_copied};
ghost use Rattle.cif_change.specs.Meaning.{key_meant};
ghost use Rattle.docker_join.specs.Rows.{AreAscending, value_at};
ghost use Rattle.docker_state.specs.Near.{IsAboveBefore, IsBelowAt};

use cif_file::Key;
use docker_join::Entry;

/// The entry for a key. Returns `None` if no row has the key. First reads the row at index `near`
/// and the row before it. If neither has the key, and the key doesn't lie between the two rows, a
/// binary search follows. At the end `near` is the index of the first row after the key. If keys
/// are looked up in order, the next key is likely to be there.
pub(crate) fn entry_near<'a>(
    rows: &'a [(Key, Entry)],
    key: &Key,
    near: &mut usize,
) -> Option<&'a Entry>
    requires { AreAscending rows.now }
    ensures { option_copied result ≡ value_at rows.now (key_meant key.now) }
{
    if let Some(row) = rows.get(*near) {
        if row.0 == *key {
            *near += 1;
            return Some(&row.1);
        }
    }
    if is_below_at(rows, *near, key) && is_above_before(rows, *near, key) {
        return None;
    }
    match rows.binary_search_by(|row| row.0.cmp(key)) {
        Ok(at) => {
            *near = at + 1;
            Some(&rows[at].1)
        }
        Err(at) => {
            *near = at;
            None
        }
    }
}

/// Whether a key is below the key of the row at this index, or the index is just after the last
/// row.
fn is_below_at(rows: &[(Key, Entry)], at: usize, key: &Key) -> bool
    ensures { IsTrue result → IsBelowAt (key_meant key.now) rows.now at }
{
    match rows.get(at) {
        Some(row) => row.0.cmp(key).is_gt(),
        None => at == rows.len(),
    }
}

/// Whether a key is above the key of the row just before this index, or there is no such row.
fn is_above_before(rows: &[(Key, Entry)], at: usize, key: &Key) -> bool
    ensures { IsTrue result → IsAboveBefore (key_meant key.now) rows.now at }
{
    match at.checked_sub(1) {
        Some(last) => match rows.get(last) {
            Some(row) => row.0.cmp(key).is_lt(),
            None => false,
        },
        None => true,
    }
}
