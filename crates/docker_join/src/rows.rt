//! The rows of tables. Entries lapse if their bodies ended before a horizon. The rows of two tables
//! are joined in the memory of the first table.
ghost use Rattle.std.specs.Prelude.{◌≡◌, ◌+◌, ◌<◌, ◌≤◌, true, false, map, vec_len, vec_capacity, MatchOption};
ghost use Rattle.std.specs.VecDeque.{deque_len, deque_capacity};
ghost use Rattle.cif_change.specs.Meaning.{key_meant};
ghost use Rattle.docker_model.specs.state.Lapse.{lapse_entries};
ghost use Rattle.docker_join.specs.Meaning.{row_meant};
ghost use Rattle.docker_join.specs.Rows.{AreAscending, IsJoinOfRows};
ghost use Rattle.docker_join.specs.Placing.{is_above_at, is_level_at, IsRunAbove, IsTaken, IsPlaced};

use crate::entry::Entry;
use crate::merge::Pick;
use cif_change::Key;
use std::collections::VecDeque;

/// Makes each entry lapse if its body ended before the horizon. Keys and stamps are unchanged, and
/// an op that lapses loses its body. Returns whether any op has lapsed in this call.
pub fn lapse_rows(rows: &mut [(Key, Entry)], horizon: u16) -> bool
    ensures lapsed { map row_meant rows.new ≡ lapse_entries horizon (map row_meant rows.old) }
    ensures same { result ≡ false → rows.new ≡ rows.old }
    ensures ascending { AreAscending rows.old → AreAscending rows.new }
{
    let mut some = false;
    for row in rows.iter_mut() {
        some |= row.1.lapse(horizon);
    }
    some
}

/// Joins the rows of two tables into the first vector, which must have room for the rows of both
/// tables. Allocates nothing. The rows of the second table are placed one by one, from the last to
/// the first. A row of the first table moves only if it comes after a row of the second table. The
/// rows that move are moved in blocks, and only a few keys of each block are compared.
pub fn join_rows<E: Pick>(first: Vec<(Key, E)>, mut second: Vec<(Key, E)>) -> Vec<(Key, E)>
    requires first { AreAscending first.items }
    requires second { AreAscending second.items }
    requires room { vec_len first + vec_len second ≤ vec_capacity first }
    ensures { IsJoinOfRows E.picked first.items second.items result.items }
{
    let mut left = first.len();
    let mut rows = VecDeque::from_vec(first);
    while let Some(row) = second.pop() {
        left = place(&mut rows, left, row);
    }
    second.destroy_empty();
    rows.rotate_right(left);
    rows.into_vec()
}

/// Places a row of the second table. Returns how many rows of the first table are still to be
/// placed. `rows` is a ring buffer: its first rows are the placed rows, and its last `left` rows
/// are still to be placed. First places the rows of the first table whose keys are greater than the
/// row's key, and then the row itself. If the first table has a row with the same key, the join of
/// both rows is placed instead.
fn place<E: Pick>(rows: &mut VecDeque<(Key, E)>, left: usize, row: (Key, E)) -> usize
    requires left { left ≤ deque_len rows.old }
    requires room { deque_len rows.old < deque_capacity rows.old }
    ensures left { result ≤ deque_len rows.new }
    ensures len { deque_len rows.new ≤ deque_len rows.old + 1 }
    ensures capacity { deque_capacity rows.new ≡ deque_capacity rows.old }
    ensures placed { IsPlaced E.picked rows.old.items left row rows.new.items result }
{
    let run = run_above(rows, left, &row.0);
    rows.rotate_right(run);
    let left = left - run;
    match take_level(rows, left, &row.0) {
        Some(own) => {
            rows.push_front_reserved((own.0, own.1.pick(row.1)));
            left - 1
        }
        None => {
            rows.push_front_reserved(row);
            left
        }
    }
}

/// Removes the last row of the ring buffer and returns it, if a row is still to be placed and the
/// last row has this key.
fn take_level<E>(rows: &mut VecDeque<(Key, E)>, left: usize, key: &Key) -> Option<(Key, E)>
    requires { left ≤ deque_len rows.old }
    ensures taken { IsTaken (key_meant key.now) (deque_len rows.old) left rows.old.items
        rows.new.items result }
    ensures len { MatchOption result (deque_len rows.new ≡ deque_len rows.old)
        (λ _. deque_len rows.new + 1 ≡ deque_len rows.old) }
    ensures capacity { deque_capacity rows.new ≡ deque_capacity rows.old }
{
    if left == 0 {
        return None;
    }
    if !is_level(rows, key) {
        return None;
    }
    rows.pop_back()
}

/// Whether the last row of the ring buffer has this key.
fn is_level<E>(rows: &VecDeque<(Key, E)>, key: &Key) -> bool
    requires { 0 < deque_len rows.now }
    ensures { (d : _) → result
        ≡ is_level_at (key_meant key.now) rows.now.items (deque_len rows.now) d }
{
    rows[rows.len() - 1].0.cmp(key).is_eq()
}

/// Whether a row has a key greater than this key. The row is given by its distance `back` from the
/// end of the ring buffer. The distance is 1 for the last row.
fn is_above<E>(rows: &VecDeque<(Key, E)>, back: usize, key: &Key) -> bool
    requires { (0 < back) × (back ≤ deque_len rows.now) }
    ensures { (d : _) → result
        ≡ is_above_at (key_meant key.now) rows.now.items (deque_len rows.now) back d }
{
    rows[rows.len() - back].0.cmp(key).is_gt()
}

/// How many of the last `left` rows have keys greater than this key. This is an exponential search:
/// it reads the rows at the distances 1, 2, 4 and so on from the end, up to `left`. It stops at a
/// row whose key isn't greater than this key. Then a binary search finds the number.
fn run_above<E>(rows: &VecDeque<(Key, E)>, left: usize, key: &Key) -> usize
    requires { left ≤ deque_len rows.now }
    ensures { IsRunAbove (key_meant key.now) rows.now.items (deque_len rows.now) left result }
{
    let mut low = 0;
    let mut high = 1;
    while high <= left && is_above(rows, high, key) {
        low = high;
        high += high;
    }
    run_between(rows, key, low, (high - 1).min(left))
}

/// How many of the last `high` rows have keys greater than this key, found by binary search. The
/// last `low` rows are known to have keys greater than this key.
fn run_between<E>(rows: &VecDeque<(Key, E)>, key: &Key, mut low: usize, mut high: usize) -> usize
    requires order { low ≤ high }
    requires within { high ≤ deque_len rows.now }
    requires above { (d : _) → 0 < low
        → is_above_at (key_meant key.now) rows.now.items (deque_len rows.now) low d ≡ true }
    ensures { IsRunAbove (key_meant key.now) rows.now.items (deque_len rows.now) high result }
{
    while low < high {
        let middle = high - (high - low) / 2;
        if is_above(rows, middle, key) {
            low = middle;
        } else {
            high = middle - 1;
        }
    }
    low
}
