//! An excerpt of a state for a place and a day.
ghost use Rattle.std.specs.Prelude.{◌≡◌, ℕ, List, IfOk, false};
ghost use Rattle.docker_laws.specs.FileSummary.{summary_of};
ghost use Rattle.cif_file.specs.FileRead.{IsOfRecords};
ghost use Rattle.docker_excerpt.specs.Values.{with_entries, StandsAt};
ghost use Rattle.docker_excerpt.specs.Values as values;

use crate::given_file::given_of;
use crate::thin_file::ThinFile;
use cif_line::{Day, Memory, Tiploc};
use docker_state::Timetable;
use state_text::{Given, State};
use std::alloc::Global;
use std::fmt;
use std::marker::Model;

/// The part of a state that is kept for the docker of one place and one day. This docker is the
/// same as the docker of the whole state. Contracts say nothing about a docker that is made from
/// the part for another place or day.
#[derive(Drop)]
pub struct Excerpt {
    place: Tiploc,
    day: Day,
    part: State,
    given: Given,
}

impl Model for Excerpt {
    ghost Value = { values.Excerpt };

    ghost view = { λ it. record {
      place = it.place;
      day = it.day;
      state = with_entries it.part it.given.entries;
    } };

    ghost invariant = { λ it.
        StandsAt it.place it.day (with_entries it.part it.given.entries) it.part };
}

impl fmt::Debug for Excerpt {
    fn fmt<W: fmt::Write>(&self, f: &mut fmt::Formatter<W>) -> fmt::Result {
        f.write_str("Excerpt")
    }
}

impl Excerpt {
    /// The excerpt of a state for a place and a day. `part` is the kept part of the state. `given`
    /// has all entries of the state, and exists only for proofs.
    pub(crate) fn of(place: Tiploc, day: Day, part: State, given: Given) -> Excerpt
        requires { StandsAt place day (with_entries part given.entries) part }
        ensures { result ≡ record {
          place = place;
          day = day;
          state = with_entries part given.entries;
        } }
    {
        Excerpt {
            place,
            day,
            part,
            given,
        }
    }

    /// The excerpt for a place and a day, made from the thin changes of a file. The value of the
    /// excerpt contains the state of the whole file. If memory runs out, the thin changes are
    /// dropped.
    pub fn of_file(
        alloc: Global,
        place: Tiploc,
        day: Day,
        file: ThinFile,
    ) -> Result<Excerpt, Memory>
        requires place { place ≡ file.place }
        requires day { day ≡ file.day }
        ensures place { IfOk result (λ it. it.place ≡ place) }
        ensures day { IfOk result (λ it. it.day ≡ day) }
        ensures state { (records : List (List ℕ)) → IsOfRecords file.file records
            → IfOk result (λ it. it.state ≡ summary_of records) }
    {
        // This call is made only because its contract says that the thin changes may be kept
        // instead of all changes of the file.
        let _header = file.header();
        let given = given_of(&file);
        let parts = file.into_needed(alloc)?;
        let part = State::of_parts(alloc, parts)?;
        Ok(Excerpt::of(place, day, part, given))
    }

    /// The place for which the excerpt was made.
    pub fn place(&self) -> &Tiploc
        ensures { result.now ≡ self.now.place }
    {
        &self.place
    }

    /// The day for which the excerpt was made.
    pub fn day(&self) -> Day
        ensures { result ≡ self.now.day }
    {
        self.day
    }

    /// The timetable of the kept part of the state, which has the state's horizon. The docker of the
    /// place and the day is made from it. A timetable can only be searched, so the part is never
    /// taken for the whole state: no call joins, writes or sends it.
    pub fn timetable(&self) -> Timetable<'_>
        ensures stands { StandsAt self.now.place self.now.day self.now.state result.state }
        ensures horizon { result.state.horizon ≡ self.now.state.horizon }
        ensures all { result.permanent ≡ false }
    {
        Timetable::of(&self.part)
    }
}
