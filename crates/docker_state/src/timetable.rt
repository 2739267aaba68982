//! Timetables: the live entries of a state that count for a docker. These are all live entries, or
//! only the permanent entries.
ghost use Rattle.std.specs.Prelude.{◌≡◌, true, false, option_map};
ghost use Rattle.std.specs.Option.{option_copied};
ghost use Rattle.cif_change.specs.Meaning.{body_meant};
ghost use Rattle.docker_model.specs.file.Change.{tiploc_key};
ghost use Rattle.docker_model.specs.records.Date.{IsDay};
ghost use Rattle.docker_model.specs.state.Op.{body_of};
ghost use Rattle.docker_model.specs.state.State.{IsValid};
ghost use Rattle.state_laws.specs.CountedRows.{IsOfGoodRows};
ghost use Rattle.docker_state.specs.Timetables.{live_in};
ghost use Rattle.docker_state.specs.Timetables as timetables;
ghost use Rattle.state_laws.specs.Index.{AreCalling, AreLinked, AreOfUid};
ghost use Rattle.docker_join.specs.Meaning.{op_meant};

use crate::state::State;
use crate::timetable_rows::{TimetableRows, UidSchedules};
use cif_file::{Body, Key};
use cif_line::{Tiploc, Uid};
use docker_join::Op;
use std::marker::Model;

/// The live entries of a state that count for a docker: all of them, or only its timing points and
/// its permanent schedules and associations. Its iterators skip the entries that don't count, so no
/// second state has to be made.
#[derive(Debug, Drop)]
pub struct Timetable<'a> {
    state: &'a State,
    permanent: bool,
}

impl<'a> Model for Timetable<'a> {
    ghost Value = { timetables.Timetable };

    ghost view = { λ timetable. record {
      state = timetable.state.now;
      permanent = timetable.permanent;
    } };

    ghost invariant = { λ timetable. IsValid timetable.state.now };
}

impl<'a> Timetable<'a> {
    /// The timetable in which all live entries of a state count.
    pub fn of(state: &'a State) -> Timetable<'a>
        ensures { result ≡ record { state = state.entry.now; permanent = false } }
    {
        Timetable::counting(state, false)
    }

    /// The timetable without the short-term plan. These entries of a state count: its live timing
    /// points, and its live schedules and associations with the STP indicator `P`. No other entries
    /// count.
    pub fn permanent(state: &'a State) -> Timetable<'a>
        ensures { result ≡ record { state = state.entry.now; permanent = true } }
    {
        Timetable::counting(state, true)
    }

    /// The timetable in which all live entries count, or only the permanent entries.
    fn counting(state: &'a State, permanent: bool) -> Timetable<'a>
        ensures { result ≡ record { state = state.entry.now; permanent = permanent } }
    {
        // This call is made only for its contract, which says that the state is valid.
        let _entries = state.entries();
        Timetable { state, permanent }
    }

    /// A copy of the timetable.
    pub fn again(&self) -> Timetable<'a>
        ensures { result ≡ self.now }
    {
        Timetable {
            state: self.state,
            permanent: self.permanent,
        }
    }

    /// The horizon of the state: a day number, counted from 0 for 1960-01-01. Returns 0 if no
    /// horizon was set.
    pub fn horizon(&self) -> u16
        ensures horizon { result ≡ self.now.state.horizon }
        ensures day { IsDay result }
    {
        self.state.horizon()
    }

    /// The body of a timing point, or `None` if the point isn't live. Timing points never lapse, so
    /// they count on every day.
    pub fn tiploc(&self, tiploc: &Tiploc) -> Option<&'a Body>
        ensures body { option_map body_meant (option_copied result)
            ≡ live_in self.now (tiploc_key tiploc.now) }
        ensures good { IsOfGoodRows (live_in self.now) }
    {
        match self.state.get(&Key::Tiploc(*tiploc)) {
            Some(entry) => put_in(&entry.op),
            None => None,
        }
    }

    /// The schedules that count and call at a TIPLOC, which means that an LO, LI or LT record names
    /// it. Each schedule is returned once, with its lines, in the order of the keys.
    pub fn calling(&self, tiploc: &Tiploc) -> TimetableRows<'a>
        ensures rows { AreCalling (live_in self.now) tiploc.now result }
        ensures good { IsOfGoodRows (live_in self.now) }
    {
        TimetableRows::of(self.state.calling(tiploc), self.permanent)
    }

    /// Those associations at a location that count. Each is returned with its line, in the order of
    /// the keys.
    pub fn linked(&self, tiploc: &Tiploc) -> TimetableRows<'a>
        ensures rows { AreLinked (live_in self.now) tiploc.now result }
        ensures good { IsOfGoodRows (live_in self.now) }
    {
        TimetableRows::of(self.state.linked(tiploc), self.permanent)
    }

    /// Those schedules of a UID that count. Each is returned with its lines, in the order of the
    /// keys. First reads the row at index `near`, for example an index from `TimetableRows`. If
    /// that row is a schedule of the UID, no search is needed.
    pub fn of_uid_near(&self, uid: &Uid, near: usize) -> UidSchedules<'a>
        ensures rows { AreOfUid (live_in self.now) uid.now result }
        ensures good { IsOfGoodRows (live_in self.now) }
    {
        UidSchedules::of(self.state.of_uid_near(uid, near), self.permanent)
    }
}

/// The body that an op puts. Returns `None` if the op isn't a put.
fn put_in(op: &Op) -> Option<&Body>
    ensures { option_map body_meant (option_copied result) ≡ body_of (op_meant op.entry.now) }
{
    match op {
        Op::Put(body) => Some(body),
        Op::Deleted | Op::Lapsed => None,
    }
}
