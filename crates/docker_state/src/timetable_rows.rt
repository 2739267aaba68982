//! Iterators over those rows that count in a timetable.
ghost use Rattle.std.specs.Prelude.{◌≡◌, List};
ghost use Rattle.std.specs.Iterator.{YieldsFirstBy, item_count};
ghost use Rattle.cif_change.specs.Meaning.{key_meant, body_meant};
ghost use Rattle.docker_model.specs.docker.Permanent.{is_permanent};
ghost use Rattle.docker_model.specs.state.Row.{Row};
ghost use Rattle.state_laws.specs.CountedRows.{counted_rows};
ghost use Rattle.docker_state.specs.Timetables.{counts};

use crate::live::Live;
use crate::place_rows::PlaceRows;
use cif_file::{Body, Key};
use cif_line::Stp;
use std::marker::Model;

/// An iterator over those rows at a place that count in the timetable, in key order. For each row
/// it returns the row's index among all rows, the key and the body. No clause says that the row's
/// index is right: it is only a hint for a later search.
#[derive(Clone, Debug, Drop)]
pub struct TimetableRows<'a> {
    rows: PlaceRows<'a>,
    permanent: bool,
}

impl<'a> Model for TimetableRows<'a> {
    ghost Value = { List Row };

    ghost view = { λ walk. counted_rows (counts walk.permanent) walk.rows };
}

impl<'a> TimetableRows<'a> {
    /// An iterator over these rows. If `permanent` is true, it skips the rows that aren't
    /// permanent.
    pub(crate) fn of(rows: PlaceRows<'a>, permanent: bool) -> TimetableRows<'a>
        ensures { result ≡ counted_rows (counts permanent) rows.entry }
    {
        TimetableRows { rows, permanent }
    }
}

impl<'a> Iterator for TimetableRows<'a> {
    type Item = (usize, &'a Key, &'a Body);

    ghost next_gives = { YieldsFirstBy
        (λ row. (key_meant row.1.now, body_meant row.2.now)) (λ walk. walk) };

    ghost remaining = { item_count (λ walk. walk) };

    fn next(&mut self) -> Option<(usize, &'a Key, &'a Body)> {
        while let Some((row, key, body)) = self.rows.next() {
            if is_counted(self.permanent, key) {
                return Some((row, key, body));
            }
        }
        None
    }
}

/// An iterator over those schedules of a UID that count in the timetable, in key order. It returns
/// the key and the body of each schedule.
#[derive(Clone, Debug, Drop)]
pub struct UidSchedules<'a> {
    rows: Live<'a>,
    permanent: bool,
}

impl<'a> Model for UidSchedules<'a> {
    ghost Value = { List Row };

    ghost view = { λ walk. counted_rows (counts walk.permanent) walk.rows };
}

impl<'a> UidSchedules<'a> {
    /// An iterator over these schedules. If `permanent` is true, it skips the schedules that aren't
    /// permanent.
    pub(crate) fn of(rows: Live<'a>, permanent: bool) -> UidSchedules<'a>
        ensures { result ≡ counted_rows (counts permanent) rows.entry }
    {
        UidSchedules { rows, permanent }
    }
}

impl<'a> Iterator for UidSchedules<'a> {
    type Item = (&'a Key, &'a Body);

    ghost next_gives = { YieldsFirstBy
        (λ row. (key_meant row.0.now, body_meant row.1.now)) (λ walk. walk) };

    ghost remaining = { item_count (λ walk. walk) };

    fn next(&mut self) -> Option<(&'a Key, &'a Body)> {
        while let Some((key, body)) = self.rows.next() {
            if is_counted(self.permanent, key) {
                return Some((key, body));
            }
        }
        None
    }
}

/// Whether a row with this key counts: always, or only if the key is permanent.
fn is_counted(permanent: bool, key: &Key) -> bool
    ensures { result ≡ counts permanent (key_meant key.now) }
{
    !permanent || is_permanent(key)
}

/// Whether a key is permanent: it is a timing point's, or it has the STP indicator `P`.
fn is_permanent(key: &Key) -> bool
    ensures { result ≡ is_permanent (key_meant key.now) }
{
    match key {
        Key::Tiploc(_) => true,
        Key::Assoc(key) => key.stp == Stp::Permanent,
        Key::Schedule(key) => key.stp == Stp::Permanent,
    }
}
