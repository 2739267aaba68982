//! A search for the schedules of a UID: a timetable, and the row at which the search begins.
ghost use Rattle.std.specs.Prelude.{◌≡◌};
ghost use Rattle.state_laws.specs.CountedRows.{IsOfGoodRows};
ghost use Rattle.state_laws.specs.Index.{AreOfUid};
ghost use Rattle.docker_state.specs.Timetables.{live_in};
ghost use Rattle.docker_state.specs.Timetables as timetables;

use cif_line::Uid;
use docker_state::{Timetable, UidSchedules};
use std::marker::Model;

/// A timetable, and the index of the row at which a search for a UID's schedules begins. The index
/// is only a hint: a wrong index makes the search longer, and leaves the result unchanged.
#[derive(Debug, Drop)]
pub(crate) struct UidSearch<'a> {
    timetable: Timetable<'a>,
    row: usize,
}

impl<'a> Model for UidSearch<'a> {
    ghost Value = { timetables.Timetable };

    ghost view = { λ from. from.timetable };
}

impl<'a> UidSearch<'a> {
    /// A search that begins at the row with this index.
    pub(crate) fn at_row(timetable: &Timetable<'a>, row: usize) -> UidSearch<'a>
        ensures { result ≡ timetable.entry.now }
    {
        UidSearch {
            timetable: timetable.again(),
            row,
        }
    }

    /// A search without a hint: the row at which to begin isn't known.
    pub(crate) fn without_hint(timetable: &Timetable<'a>) -> UidSearch<'a>
        ensures { result ≡ timetable.entry.now }
    {
        UidSearch::at_row(timetable, 0)
    }

    /// The schedules of a UID, each with its lines, in the order of their keys.
    pub(crate) fn of_uid(&self, uid: &Uid) -> UidSchedules<'a>
        ensures rows { AreOfUid (live_in self.now) uid.now result }
        ensures good { IsOfGoodRows (live_in self.now) }
    {
        self.timetable.of_uid_near(uid, self.row)
    }
}
