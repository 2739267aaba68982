//! Counts the live rows of a state in one walk over all its rows.
ghost use Rattle.std.specs.Prelude.{◌≡◌, ℕ, ◌++◌, ◌∷◌, [], List, map};
ghost use Rattle.docker_model.specs.state.Op.{body_end};
ghost use Rattle.cif_change.specs.Meaning.{body_meant, key_meant};
ghost use Rattle.docker_join.specs.Meaning.{row_meant};
ghost use Rattle.docker_state.specs.Live.{live_rows};
ghost use Rattle.docker_model.specs.state.Row.{Row};
ghost use Rattle.docker_model.specs.lists.KnownText.{IsGreatest, day_in};
ghost use Rattle.state_lists.specs.Tallies.{AreFew, IsTallyOf, with_day};

use cif_change::{Body, Key};
use cif_line::Day;
use docker_join::{Entry, Op};

/// How many schedules, associations and timing points are live, and the latest day on which a live
/// schedule ends. `last` is `None` if no live schedule has a last day.
#[derive(Clone, Copy, Debug)]
pub(crate) struct Tally {
    pub(crate) schedules: usize,
    pub(crate) associations: usize,
    pub(crate) places: usize,
    pub(crate) last: Option<Day>,
}

/// The tally of all these rows. The function reads only the end date of each schedule.
pub(crate) fn tally_of(rows: &[(Key, Entry)]) -> Tally
    ensures { IsTallyOf (live_rows (map row_meant rows.now)) result }
{
    let mut tally = Tally {
        schedules: 0,
        associations: 0,
        places: 0,
        last: None,
    };
    for row in rows {
        tally = with_row(tally, row);
    }
    tally
}

/// The tally after one more row was counted. A row counts only if it is live. Deletions and lapsed
/// entries don't count.
fn with_row(tally: Tally, row: &(Key, Entry)) -> Tally
    requires { AreFew tally }
    ensures { (rows : List Row) → IsTallyOf rows tally
        → IsTallyOf (rows ++ live_rows (row_meant row.now ∷ [])) result }
{
    match &row.1.op {
        Op::Put(body) => counted(tally, &row.0, body),
        Op::Deleted => tally,
        Op::Lapsed => tally,
    }
}

/// The tally after one more live key was counted, given the key's body.
fn counted(tally: Tally, key: &Key, body: &Body) -> Tally
    requires { AreFew tally }
    ensures { (rows : List Row) → IsTallyOf rows tally
        → IsTallyOf (rows ++ (key_meant key.now, body_meant body.now) ∷ []) result }
{
    match key {
        Key::Tiploc(_) => Tally {
            places: tally.places + 1,
            ..tally
        },
        Key::Assoc(_) => Tally {
            associations: tally.associations + 1,
            ..tally
        },
        Key::Schedule(_) => Tally {
            schedules: tally.schedules + 1,
            last: later_of(tally.last, last_day(body)),
            ..tally
        },
    }
}

/// The last day of a body. Returns `None` if the body has no end date, or an end date that means no
/// end.
fn last_day(body: &Body) -> Option<Day>
    ensures { result ≡ day_in (body_end (body_meant body.now)) }
{
    Day::from_number(body.end_number())
}

/// The later of two days. Returns `None` if both are `None`.
fn later_of(first: Option<Day>, second: Option<Day>) -> Option<Day>
    ensures { (days : List ℕ) → IsGreatest days first → IsGreatest (with_day days second) result }
{
    match (first, second) {
        (Some(one), Some(other)) => {
            if one.number() < other.number() {
                Some(other)
            } else {
                Some(one)
            }
        }
        (Some(one), None) => Some(one),
        (None, _) => second,
    }
}
