//! The index of a table's rows by place: where live schedules call, and where live associations
//! are.
ghost use Rattle.std.specs.Prelude.{◌≡◌, ◌++◌, List, [], map, IfOk};
ghost use Rattle.docker_model.specs.state.Order.{bytes_cmp, IsStrictlyAscending};
ghost use Rattle.docker_model.specs.state.State.{State, AreAscending, live_table};
ghost use Rattle.state_laws.specs.Index.{AreCalling, AreLinked};
ghost use Rattle.cif_change.specs.Meaning.{change_meant};
ghost use Rattle.docker_join.specs.Meaning.{row_meant};
ghost use Rattle.state_index.specs.Counts.{IsCallingCount};
ghost use Rattle.state_index.specs.PostingOrder.{posting_cmp};
ghost use Rattle.state_index.specs.Rooms.{Item, HasGrownBy, HasRoomFor, changed_items, items_of};
ghost use Rattle.state_index.specs.Spots.{IsIndexOf};

use crate::memo::Memo;
use crate::names::ascending_places;
use crate::place_rows::{IndexedRows, postings_at};
use crate::posting::Posting;
use crate::postings::{post_rows, settle};
use crate::survey::Survey;
use cif_change::{Change, Key, Memory, Tiploc};
use docker_join::Entry;
use std::alloc::Global;

/// An index of a table's rows by place. For each TIPLOC it has the rows of the schedules that call
/// there and of the associations there.
#[derive(Debug, Drop)]
pub struct Index {
    /// The TIPLOCs that the rows name, in ascending order and without duplicates.
    pub places: Vec<[u8; 7]>,
    /// One posting for each live schedule and each place at which it calls. A schedule calls at the
    /// places of its LO, LI and LT records. Postings ascend by place and then by row, and none is
    /// repeated.
    pub calls: Vec<Posting>,
    /// One posting for each live association, at its location. Postings ascend by place and then by
    /// row, and none is repeated.
    pub links: Vec<Posting>,
    memo: Memo,
}

impl Index {
    /// The index of an empty table. Allocates nothing.
    pub fn new(alloc: Global) -> Index
        ensures index { IsIndexOf [] result }
        ensures room { HasRoomFor [] result }
    {
        Index {
            places: Vec::new(alloc),
            calls: Vec::new(alloc),
            links: Vec::new(alloc),
            memo: Memo::new(alloc),
        }
    }

    /// Makes the index of these rows. Returns `Memory` if the allocator refuses, or if there are
    /// more than 4,294,967,295 rows or places, which are numbered in 32 bits.
    pub fn of(alloc: Global, rows: &[(Key, Entry)]) -> Result<Index, Memory>
        ensures index { IfOk result (IsIndexOf (map row_meant rows.now)) }
        ensures room { IfOk result (HasRoomFor (items_of (map row_meant rows.now))) }
    {
        let mut survey = Survey::new(alloc, &[], rows.len())?;
        survey.survey_rows(rows)?;
        let mut index = Index::of_survey(alloc, survey)?;
        index.refill(rows);
        Ok(index)
    }

    /// Reserves memory for the index of the rows that these changes make, one row for each key. The
    /// index is made by `refill`. Fails for the same reasons as `of`.
    pub fn for_changes(alloc: Global, changes: &[Change]) -> Result<Index, Memory>
        ensures { IfOk result (HasRoomFor (changed_items (map change_meant changes.now))) }
    {
        let mut survey = Survey::new(alloc, &[], changes.len())?;
        survey.survey_changes(changes)?;
        Index::of_survey(alloc, survey)
    }

    /// Reserves memory for the index of the join of two tables, given the index of the first
    /// table's rows. The index is made by `refill`. Fails for the same reasons as `of`.
    pub fn for_join(
        &self,
        alloc: Global,
        rows: &[(Key, Entry)],
        others: &[(Key, Entry)],
    ) -> Result<Index, Memory>
        requires { IsIndexOf (map row_meant rows.now) self.now }
        ensures { IfOk result (HasRoomFor
            (items_of (map row_meant rows.now) ++ items_of (map row_meant others.now))) }
    {
        let mut survey = Survey::new(
            alloc,
            self.places.as_slice(),
            rows.len().saturating_add(others.len()),
        )?;
        survey.count_rows(rows)?;
        survey.survey_rows(others)?;
        Index::of_survey(alloc, survey)
    }

    /// Reserves memory for the index of the surveyed rows. Fails for the same reasons as `of`.
    fn of_survey(alloc: Global, survey: Survey) -> Result<Index, Memory>
        ensures { (items : List Item) (old : Survey) → HasGrownBy items old survey
            → IfOk result (HasRoomFor items) }
    {
        let Survey {
            names,
            calls,
            rows,
            ..
        } = survey;
        let places = ascending_places(names);
        if u32::try_from(places.len()).is_err() || u32::try_from(rows).is_err() {
            return Err(Memory);
        }
        let memo = Memo::of(alloc, places.as_slice(), rows)?;
        let calls = Vec::with_capacity(alloc, calls)?;
        let links = Vec::with_capacity(alloc, rows)?;
        Ok(Index {
            places,
            calls,
            links,
            memo,
        })
    }

    /// Makes the index of these rows, in memory that was reserved beforehand. Allocates nothing.
    pub fn refill(&mut self, rows: &[(Key, Entry)])
        requires { HasRoomFor (items_of (map row_meant rows.now)) self.old }
        ensures index { IsIndexOf (map row_meant rows.now) self.new }
        ensures room { HasRoomFor (items_of (map row_meant rows.now)) self.new }
    {
        self.calls.clear();
        self.links.clear();
        let places = self.places.as_slice();
        post_rows(places, &self.memo, false, rows, &mut self.calls);
        post_rows(places, &self.memo, true, rows, &mut self.links);
        settle(&mut self.calls);
        settle(&mut self.links);
    }

    /// The live schedules that call at a TIPLOC, found by binary search. The index must be the
    /// index of `rows`.
    pub fn calling<'a>(&'a self, rows: &'a [(Key, Entry)], tiploc: &Tiploc) -> IndexedRows<'a>
        requires index { IsIndexOf (map row_meant rows.now) self.now }
        requires ascending { AreAscending (map row_meant rows.now) }
        ensures { (state : State) → state.entries ≡ map row_meant rows.now
            → AreCalling (live_table state) tiploc.now result }
    {
        IndexedRows::of(
            rows,
            postings_at(
                self.places.as_slice(),
                self.calls.as_slice(),
                tiploc.bytes(),
            ),
        )
    }

    /// How many live schedules call at a TIPLOC. Two binary searches find the first and the last
    /// posting of the place, and no row is read.
    pub fn count_calling(&self, tiploc: &Tiploc) -> usize
        requires named { IsStrictlyAscending bytes_cmp self.now.places.items }
        requires up { IsStrictlyAscending posting_cmp self.now.calls.items }
        ensures { (state : State) → AreAscending state.entries → IsIndexOf state.entries self.now
            → IsCallingCount (live_table state) tiploc.now result }
    {
        postings_at(
            self.places.as_slice(),
            self.calls.as_slice(),
            tiploc.bytes(),
        )
        .len()
    }

    /// The live associations at a location, found by binary search. The index must be the index of
    /// `rows`.
    pub fn linked<'a>(&'a self, rows: &'a [(Key, Entry)], tiploc: &Tiploc) -> IndexedRows<'a>
        requires index { IsIndexOf (map row_meant rows.now) self.now }
        requires ascending { AreAscending (map row_meant rows.now) }
        ensures { (state : State) → state.entries ≡ map row_meant rows.now
            → AreLinked (live_table state) tiploc.now result }
    {
        IndexedRows::of(
            rows,
            postings_at(
                self.places.as_slice(),
                self.links.as_slice(),
                tiploc.bytes(),
            ),
        )
    }
}
