//! Finds out which places rows or changes name, and how many postings they have at most, before an
//! index is made.
ghost use Rattle.std.specs.Prelude.{◌≡◌, ◌+◌, ◌≤◌, ◌∷◌, [], length, map, IsOk, IfOk};
ghost use Rattle.docker_model.specs.records.Record.{columns};
ghost use Rattle.docker_model.specs.file.Change as model;
ghost use Rattle.docker_model.specs.state.Op.{put_with};
ghost use Rattle.cif_change.specs.Meaning.{body_meant, change_meant, key_meant};
ghost use Rattle.state_index.specs.NamedPlaces.{call_places, link_places, location_lines};
ghost use Rattle.docker_join.specs.Meaning.{op_meant, row_meant};
ghost use Rattle.state_index.specs.Rooms.{Includes, HasGrownBy, changed_items, items_of, places_in};

use crate::memo::Memo;
use crate::names::ascending_places;
use crate::places::{is_location, tiploc_in};
use cif_change::{Act, Body, Change, Key, Memory};
use cif_line::Line;
use docker_join::{Entry, Op};
use std::alloc::Global;

/// The places that rows or changes name, how many rows there are, and how many calls they have at
/// most.
#[derive(Debug, Drop)]
pub(crate) struct Survey {
    /// The places. A place that the memo has forgotten is listed again.
    pub names: Vec<[u8; 7]>,
    /// How many calls the rows have at most: one for each line of a schedule.
    pub calls: usize,
    /// How many rows were surveyed.
    pub rows: usize,
    memo: Memo,
}

impl Survey {
    /// A survey that lists these places and has counted no row. `most` says about how many rows will
    /// be surveyed. Returns `Memory` if the allocator refuses.
    pub(crate) fn new(alloc: Global, known: &[[u8; 7]], most: usize) -> Result<Survey, Memory>
        ensures { IfOk result (λ survey. survey.names.items ≡ known.now) }
    {
        let mut names = Vec::with_capacity(alloc, known.len())?;
        names.extend_from_slice(known)?;
        let memo = Memo::of(alloc, known, most)?;
        Ok(Survey {
            names,
            calls: 0,
            rows: 0,
            memo,
        })
    }

    /// Surveys rows. Returns `Memory` if the allocator refuses.
    pub(crate) fn survey_rows(&mut self, rows: &[(Key, Entry)]) -> Result<(), Memory>
        ensures { IsOk result → HasGrownBy (items_of (map row_meant rows.now)) self.old self.new }
    {
        let mut rest = rows;
        while let Some((row, behind)) = rest.split_first() {
            self.survey_row(&row.0, &row.1.op)?;
            rest = behind;
        }
        Ok(())
    }

    /// Surveys the rows that changes make. Returns `Memory` if the allocator refuses.
    pub(crate) fn survey_changes(&mut self, changes: &[Change]) -> Result<(), Memory>
        ensures { IsOk result
            → HasGrownBy (changed_items (map change_meant changes.now)) self.old self.new }
    {
        let mut rest = changes;
        while let Some((change, behind)) = rest.split_first() {
            self.survey_change(change)?;
            rest = behind;
        }
        Ok(())
    }

    /// Surveys rows whose places are listed already, so no line is read. Returns `Memory` if there
    /// are too many rows or lines to count.
    pub(crate) fn count_rows(&mut self, rows: &[(Key, Entry)]) -> Result<(), Memory>
        requires calls { Includes (places_in call_places (items_of (map row_meant rows.now)))
            self.old.names.items }
        requires links { Includes (places_in link_places (items_of (map row_meant rows.now)))
            self.old.names.items }
        ensures { IsOk result → HasGrownBy (items_of (map row_meant rows.now)) self.old self.new }
    {
        let mut rest = rows;
        while let Some((row, behind)) = rest.split_first() {
            self.count(most_calls(&row.1.op))?;
            rest = behind;
        }
        Ok(())
    }

    /// Surveys a row, given its key and its op.
    fn survey_row(&mut self, key: &Key, op: &Op) -> Result<(), Memory>
        ensures { IsOk result
            → HasGrownBy ((key_meant key.now, op_meant op.now) ∷ []) self.old self.new }
    {
        match op {
            Op::Put(body) => self.survey_body(key, body),
            Op::Deleted => self.count(0),
            Op::Lapsed => self.count(0),
        }
    }

    /// Surveys the row that a change makes.
    fn survey_change(&mut self, change: &Change) -> Result<(), Memory>
        ensures { IsOk result
            → HasGrownBy (changed_items (change_meant change.now ∷ [])) self.old self.new }
    {
        match &change.act {
            Act::Put(body) => self.survey_body(&change.key, body),
            Act::Delete => self.count(0),
        }
    }

    /// Surveys a row that puts this body under this key.
    fn survey_body(&mut self, key: &Key, body: &Body) -> Result<(), Memory>
        ensures { IsOk result
            → HasGrownBy ((key_meant key.now, put_with (body_meant body.now)) ∷ [])
            self.old self.new }
    {
        match (key, body) {
            (Key::Schedule(_), Body::Schedule(lines)) => {
                self.list_locations(lines.as_slice())?;
                self.count(lines.len())
            }
            (Key::Assoc(key), Body::Assoc(_)) => {
                self.list(key.location.bytes())?;
                self.count(0)
            }
            _ => self.count(0),
        }
    }

    /// Counts one more row, with at most as many calls as `calls`. Returns `Memory` if there are
    /// too many to count.
    fn count(&mut self, calls: usize) -> Result<(), Memory>
        ensures names { self.new.names.items ≡ self.old.names.items }
        ensures calls { IsOk result → self.new.calls ≡ self.old.calls + calls }
        ensures rows { IsOk result → self.new.rows ≡ self.old.rows + 1 }
    {
        self.calls = self.calls.checked_add(calls).ok_or(Memory)?;
        self.rows = self.rows.checked_add(1).ok_or(Memory)?;
        Ok(())
    }

    /// Lists the TIPLOC of each location record among these lines.
    fn list_locations(&mut self, lines: &[Line]) -> Result<(), Memory>
        ensures kept { Includes self.old.names.items self.new.names.items }
        ensures listed { IsOk result
            → Includes (map (columns 3 9) (location_lines lines.now)) self.new.names.items }
        ensures calls { self.new.calls ≡ self.old.calls }
        ensures rows { self.new.rows ≡ self.old.rows }
    {
        let mut rest = lines;
        while let Some((line, behind)) = rest.split_first() {
            if is_location(line) {
                self.list(&tiploc_in(line))?;
            }
            rest = behind;
        }
        Ok(())
    }

    /// Lists a place, unless the memo finds it in the list.
    fn list(&mut self, place: &[u8; 7]) -> Result<(), Memory>
        ensures kept { Includes self.old.names.items self.new.names.items }
        ensures listed { IsOk result → Includes (place.now ∷ []) self.new.names.items }
        ensures calls { self.new.calls ≡ self.old.calls }
        ensures rows { self.new.rows ≡ self.old.rows }
    {
        if self.memo.find(self.names.as_slice(), place).is_some() {
            return Ok(());
        }
        let Ok(next) = u32::try_from(self.names.len()) else {
            return Err(Memory);
        };
        self.names.push(*place)?;
        self.memo.set(place, next);
        Ok(())
    }
}

/// How many calls a row with this op has at most: a call for each line of a schedule. No line is
/// read.
fn most_calls(op: &Op) -> usize
    ensures { (key : model.Key) → length (call_places key (op_meant op.now)) ≤ result }
{
    match op {
        Op::Put(Body::Schedule(lines)) => lines.len(),
        _ => 0,
    }
}
