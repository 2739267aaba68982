//! The state of a set of files.
ghost use Rattle.std.specs.Prelude.{◌≡◌, ℕ, ◌+◌, ◌≤◌, List, [], ◌∷◌, ◌++◌, ◌↔◌, length, map, max, vec_len, vec_capacity, Contains, IfOk, IfErr};
ghost use Rattle.docker_model.specs.file.Change as model;
ghost use Rattle.docker_model.specs.state.State as states;
ghost use Rattle.state_laws.specs.Index.{AreCalling, AreLinked, AreOfUid};
ghost use Rattle.state_index.specs.Counts.{IsCallingCount};
ghost use Rattle.state_index.specs.Rooms.{changed_items, items_of};
ghost use Rattle.docker_model.specs.state.State.{entry_at, live_table, raise_horizon, HaveLapsed, IsValid, IsJoin};
ghost use Rattle.docker_model.specs.records.Date.{IsDay};
ghost use Rattle.docker_model.specs.state.Lapse.{lapse_entries, lapse_table};
ghost use Rattle.std.specs.Option.{option_copied, option_map};
ghost use Rattle.cif_change.specs.Meaning.{key_meant};
ghost use Rattle.docker_model.specs.state.Stamp.{IsFloor, ledger_item_of};
ghost use Rattle.docker_join.specs.Meaning.{entry_meant, file_stamp_meant, row_meant, floor_meant};
ghost use Rattle.docker_join.specs.Room.{HasRoomOf};
ghost use Rattle.docker_join.specs.Rows.{AreAscending};
ghost use Rattle.docker_model.specs.state.Summary.{IsSummary, HaveDistinctMoments};
ghost use Rattle.docker_model.specs.state.Table as tables;
ghost use Rattle.docker_model.specs.state.Table.{IsPlainTable};
ghost use Rattle.cif_file.specs.FileRead.{IsOfRecords};
ghost use Rattle.cif_change.specs.Meaning.{change_meant};
ghost use Rattle.docker_state.specs.Indexed.{HasRoomIfAny, IsIndexIfAny, IsIndexed};
ghost use Rattle.docker_state.specs.MadeState.{HaveRecords, IsMadeState, MakeValid};
ghost use Rattle.docker_state.specs.Live.{live_rows, AreInKeyOrder};
ghost use Rattle.docker_state.specs.Meaning.{item_meant, state_meant};

use crate::floor::{common_floor, floor_of};
use crate::indexing::refill;
use crate::item::{LedgerItem, item_of};
use crate::ledger::{kept_items, room_for, union_of};
use crate::live::Live;
use crate::near::entry_near;
use crate::place_rows::{PlaceRows, Walk};
use crate::rows::{kept_rows, last_greatest, rows_made};
use crate::sifted::{SiftedRows, count_calls};
use crate::uid_rows::rows_of_uid;
use cif_file::{CifFile, FileParts, Key};
use cif_line::{Day, Memory, Tiploc, Uid};
use docker_join::{Entry, FileStamp, Merge, Table, join_rows, lapse_rows};
use state_index::Index;
use std::alloc::Global;
use std::marker::Model;

/// The state of a set of files, from the newest full extract on: the ledger of the files that
/// count, and the greatest entry for each key. A state is always valid. Its rows may have an index
/// by place. Without an index, the rows at a place are found by a walk over all rows.
#[derive(Debug, Drop)]
pub struct State {
    horizon: u16,
    ledger: Vec<LedgerItem>,
    entries: Table<Entry>,
    index: Option<Index>,
}

impl Model for State {
    ghost Value = { states.State };

    ghost view = { λ state. state_meant state.horizon state.ledger.items state.entries };

    ghost invariant = { λ state.
        IsIndexed state.horizon state.ledger.items state.entries state.index };
}

impl State {
    /// Makes a state from a horizon, ledger items, rows and, if there is one, the index of these
    /// rows. Together they must be a valid state. The horizon 0 means that no horizon was set. The
    /// index must have room to be made again.
    pub(crate) fn of_rows(
        horizon: u16,
        ledger: Vec<LedgerItem>,
        rows: Vec<(Key, Entry)>,
        index: Option<Index>,
    ) -> State
        requires valid { IsValid (state_meant horizon ledger.items rows.items) }
        requires index { IsIndexIfAny (map row_meant rows.items) index }
        requires room { HasRoomIfAny (items_of (map row_meant rows.items)) index }
        ensures { result ≡ state_meant horizon ledger.items rows.items }
    {
        State {
            horizon,
            ledger,
            entries: Table::from_rows(rows),
            index,
        }
    }

    /// The state of an office that knows no files.
    pub fn empty(alloc: Global) -> State
        ensures empty { result ≡ record { horizon = 0; ledger = []; entries = [] } }
        ensures summary { IsSummary [] 0 result }
    {
        State {
            horizon: 0,
            ledger: Vec::new(alloc),
            entries: Table::new(alloc),
            index: Some(Index::new(alloc)),
        }
    }

    /// The same state, with an index. If memory runs out, the state is returned unchanged. It is
    /// also returned unchanged if it has more than 4,294,967,295 rows or places, which are numbered
    /// in 32 bits.
    pub fn indexed(self, alloc: Global) -> Result<State, State>
        ensures ok { IfOk result (λ state. state ≡ self) }
        ensures err { IfErr result (λ back. back ≡ self) }
    {
        if self.index.is_some() {
            return Ok(self);
        }
        let Ok(index) = Index::of(alloc, self.entries.as_slice()) else {
            return Err(self);
        };
        let State {
            horizon,
            ledger,
            entries,
            ..
        } = self;
        Ok(State {
            horizon,
            ledger,
            entries,
            index: Some(index),
        })
    }

    /// The same state, with an index if the other state has one. Fails for the same reasons as
    /// `indexed`.
    fn indexed_like(self, alloc: Global, other: &State) -> Result<State, State>
        ensures ok { IfOk result (λ state. state ≡ self) }
        ensures err { IfErr result (λ back. back ≡ self) }
    {
        if other.index.is_some() {
            self.indexed(alloc)
        } else {
            Ok(self)
        }
    }

    /// The state of one file, with an index. If memory runs out, the file is returned unchanged. It
    /// is also returned if it has more than 4,294,967,295 changes or places, which are numbered in
    /// 32 bits.
    pub fn of_file(alloc: Global, file: CifFile) -> Result<State, CifFile>
        ensures ok { (records : List (List ℕ)) → IsOfRecords file records
            → IfOk result (IsSummary (records ∷ []) 0) }
        ensures err { IfErr result (λ back. back ≡ file) }
    {
        let Ok(room) = Index::for_changes(alloc, file.changes()) else {
            return Err(file);
        };
        State::of_read(alloc, file, Some(room))
    }

    /// Like `of_file`, but the state has no index. If memory runs out, the file is returned
    /// unchanged.
    pub fn of_file_unindexed(alloc: Global, file: CifFile) -> Result<State, CifFile>
        ensures ok { (records : List (List ℕ)) → IsOfRecords file records
            → IfOk result (IsSummary (records ∷ []) 0) }
        ensures err { IfErr result (λ back. back ≡ file) }
    {
        State::of_read(alloc, file, None)
    }

    /// The state of one file. Its index, if it is to have one, is made in the memory `room`. If
    /// memory runs out, the file is returned unchanged.
    fn of_read(alloc: Global, file: CifFile, room: Option<Index>) -> Result<State, CifFile>
        requires { HasRoomIfAny (changed_items file.changes_made) room }
        ensures ok { (records : List (List ℕ)) → IsOfRecords file records
            → IfOk result (IsSummary (records ∷ []) 0) }
        ensures err { IfErr result (λ back. back ≡ file) }
    {
        let item = item_of(&file.header());
        // This call is made only for its contract, which says that the file was read.
        let _records = file.records();
        match State::of_changes(alloc, item, file.into_parts(), room) {
            Ok(state) => Ok(state),
            Err(parts) => Err(parts.into_file()),
        }
    }

    /// The state that the changes in these parts make. It has no index. The changes needn't be all
    /// changes of the file whose header is in the parts. If memory runs out, the parts are dropped.
    pub fn of_parts(alloc: Global, parts: FileParts) -> Result<State, Memory>
        requires records { HaveRecords (map change_meant parts.changes.items) }
        requires valid { MakeValid (ledger_item_of (parts.header ∷ []))
            (map change_meant parts.changes.items) }
        ensures { IfOk result (IsMadeState (ledger_item_of (parts.header ∷ []))
            (map change_meant parts.changes.items)) }
    {
        let item = item_of(&parts.header.view());
        match State::of_changes(alloc, item, parts, None) {
            Ok(state) => Ok(state),
            Err(_) => Err(Memory),
        }
    }

    /// The state that the changes in these parts make, for the file with this ledger item. Its
    /// index, if it is to have one, is made in the memory `room`. If memory runs out, the parts are
    /// returned unchanged.
    fn of_changes(
        alloc: Global,
        item: LedgerItem,
        parts: FileParts,
        room: Option<Index>,
    ) -> Result<State, FileParts>
        requires records { HaveRecords (map change_meant parts.changes.items) }
        requires valid { MakeValid (item_meant item) (map change_meant parts.changes.items) }
        requires room { HasRoomIfAny (changed_items (map change_meant parts.changes.items)) room }
        ensures ok { IfOk result
            (IsMadeState (item_meant item) (map change_meant parts.changes.items)) }
        ensures err { IfErr result (λ back. back ≡ parts) }
    {
        let count = parts.changes.len();
        let Ok(mut ledger) = Vec::with_capacity(alloc, 1) else {
            return Err(parts);
        };
        let Ok(made) = Vec::with_capacity(alloc, count) else {
            return Err(parts);
        };
        let Ok(rows) = Vec::with_capacity(alloc, count) else {
            return Err(parts);
        };
        ledger.push_reserved(item);
        let FileParts { changes, .. } = parts;
        let made = rows_made(changes, &item.stamp(), made);
        let rows = last_greatest(made, rows);
        let mut index = room;
        refill(&mut index, rows.as_slice());
        Ok(State::of_rows(0, ledger, rows, index))
    }

    /// The horizon: a day number, counted from 0 for 1960-01-01. No live entry has a body that
    /// ended before that day. Returns 0 if no horizon was set.
    pub fn horizon(&self) -> u16
        ensures horizon { result ≡ self.now.horizon }
        ensures day { IsDay result }
    {
        self.horizon
    }

    /// Sets a horizon: each live entry whose body ends before this day lapses. A lapsed entry loses
    /// its body and keeps its stamp, so that no older file can put a body under its key again. A
    /// day that isn't after the present horizon changes nothing. Allocates nothing: an index is made
    /// again in its own memory.
    pub fn set_horizon(&mut self, day: Day)
        ensures raised { self.new ≡ raise_horizon day self.old }
        ensures summary { (files : List (List (List ℕ))) (horizon : ℕ)
            → IsSummary files horizon self.old → IsSummary files (max horizon day) self.new }
    {
        self.raise(day.number());
    }

    /// Like `set_horizon`, for a day number.
    fn raise(&mut self, horizon: u16)
        requires { IsDay horizon }
        ensures { self.new ≡ raise_horizon horizon self.old }
    {
        if self.horizon < horizon {
            self.horizon = horizon;
            if self.entries.lapse(horizon) {
                refill(&mut self.index, self.entries.as_slice());
            }
        }
    }

    /// The state after its horizon was raised to a day number.
    fn raised(mut self, horizon: u16) -> State
        requires { IsDay horizon }
        ensures { result ≡ raise_horizon horizon self }
    {
        self.raise(horizon);
        self
    }

    /// The ledger items, in ascending order.
    pub fn ledger(&self) -> &[LedgerItem]
        ensures items { map item_meant result.now ≡ self.now.ledger }
        ensures valid { IsValid self.now }
    {
        self.ledger.as_slice()
    }

    /// Each key with its entry, in the order of the keys.
    pub fn entries(&self) -> &[(Key, Entry)]
        ensures rows { map row_meant result.now ≡ self.now.entries }
        ensures valid { IsValid self.now }
    {
        self.entries.as_slice()
    }

    /// The entry for a key. Returns `None` if the state doesn't have the key. The key is found by
    /// binary search.
    pub fn get(&self, key: &Key) -> Option<&Entry>
        ensures entry { option_map entry_meant (option_copied result)
            ≡ entry_at self.now (key_meant key.now) }
        ensures valid { IsValid self.now }
    {
        self.entries.get(key)
    }

    /// Like `get`, but first reads the row at index `near`. If that row has the key, no search is
    /// needed. `near` becomes the index of the first row after the key.
    pub(crate) fn get_near(&self, key: &Key, near: &mut usize) -> Option<&Entry>
        ensures entry { option_map entry_meant (option_copied result)
            ≡ entry_at self.now (key_meant key.now) }
        ensures valid { IsValid self.now }
    {
        entry_near(self.entries.as_slice(), key, near)
    }

    /// The live table: each live key with its body, in the order of the keys.
    pub fn live(&self) -> Live<'_>
        ensures rows { result ≡ live_rows self.now.entries }
        ensures table { (key : model.Key) (body : model.Body)
            → Contains result (key, body) ↔ (live_table self.now key ≡ Some body) }
        ensures ascending { AreInKeyOrder result }
        ensures plain { (files : List (List (List ℕ))) → IsSummary files 0 self.now
            → HaveDistinctMoments files → IsPlainTable files (live_table self.now) }
        ensures lapsed { (files : List (List (List ℕ))) (horizon : ℕ) (table : tables.Table)
            → IsSummary files horizon self.now
            → IsPlainTable files table → live_table self.now ≡ lapse_table horizon table }
    {
        Live::of(self.entries.as_slice())
    }

    /// The live schedules that call at a TIPLOC, which means that an LO, LI or LT record names it.
    /// Each schedule is returned once, with its lines, in the order of the keys. The schedules are
    /// found by binary search in the index, and nothing is allocated. A state without an index
    /// finds them by a walk over all rows.
    pub fn calling(&self, tiploc: &Tiploc) -> PlaceRows<'_>
        ensures { AreCalling (live_table self.now) tiploc.now result }
    {
        let rows = self.entries.as_slice();
        match &self.index {
            Some(index) => { PlaceRows::of(Walk::Indexed(index.calling(rows, tiploc))) }
            None => PlaceRows::of(Walk::Sifted(SiftedRows::of(rows, tiploc, false))),
        }
    }

    /// How many live schedules call at a TIPLOC, which means that an LO, LI or LT record names it.
    /// Each schedule counts once. An index has the postings of a place next to each other, so with
    /// an index no schedule is read. Without an index, all rows are read.
    pub fn count_calling(&self, tiploc: &Tiploc) -> usize
        ensures { IsCallingCount (live_table self.now) tiploc.now result }
    {
        match &self.index {
            Some(index) => index.count_calling(tiploc),
            None => count_calls(self.entries.as_slice(), tiploc),
        }
    }

    /// The live associations at a location. Each is returned with its line, in the order of the
    /// keys. They are found by binary search in the index, and nothing is allocated. A state
    /// without an index finds them by a walk over all rows.
    pub fn linked(&self, tiploc: &Tiploc) -> PlaceRows<'_>
        ensures { AreLinked (live_table self.now) tiploc.now result }
    {
        let rows = self.entries.as_slice();
        match &self.index {
            Some(index) => PlaceRows::of(Walk::Indexed(index.linked(rows, tiploc))),
            None => PlaceRows::of(Walk::Sifted(SiftedRows::of(rows, tiploc, true))),
        }
    }

    /// The live schedules of a UID. Each is returned with its lines, in the order of the keys. They
    /// are found by binary search, and nothing is allocated.
    pub fn of_uid(&self, uid: &Uid) -> Live<'_>
        ensures { AreOfUid (live_table self.now) uid.now result }
    {
        self.of_uid_near(uid, 0)
    }

    /// Like `of_uid`, but first reads the row at index `near`, for example an index from
    /// `PlaceRows`. If that row is a schedule of the UID, a few neighbouring rows are read, and no
    /// search is needed.
    pub fn of_uid_near(&self, uid: &Uid, near: usize) -> Live<'_>
        ensures { AreOfUid (live_table self.now) uid.now result }
    {
        Live::of(rows_of_uid(self.entries.as_slice(), uid, near))
    }

    /// Reserves memory for the index of the join with another state, before any row is moved.
    /// Returns `None` unless either state has an index. Returns `Memory` if the allocator refuses.
    fn room_for_join(&self, alloc: Global, other: &State) -> Result<Option<Index>, Memory>
        ensures { IfOk result (λ room. (joined : states.State) → IsJoin self.now other.now joined
            → HasRoomIfAny (items_of joined.entries) room) }
    {
        let (rows, others) = (self.entries.as_slice(), other.entries.as_slice());
        match (&self.index, &other.index) {
            (Some(index), _) => Ok(Some(index.for_join(alloc, rows, others)?)),
            (None, Some(index)) => Ok(Some(index.for_join(alloc, others, rows)?)),
            (None, None) => Ok(None),
        }
    }

    /// Takes the state apart, makes room for `more` rows after its rows, and drops its index. If
    /// memory runs out, returns the state unchanged.
    fn opened(self, more: usize) -> Result<OpenedState, State>
        ensures parts { IfOk result (λ opened.
            state_meant opened.horizon opened.ledger.items opened.rows.items ≡ self) }
        ensures ascending { IfOk result (λ opened. AreAscending opened.rows.items) }
        ensures room { IfOk result (λ opened.
            vec_len opened.rows + more ≤ vec_capacity opened.rows) }
        ensures valid { IfOk result (λ opened.
            IsValid (state_meant opened.horizon opened.ledger.items opened.rows.items)) }
        ensures err { IfErr result (λ back. back ≡ self) }
    {
        let State {
            horizon,
            ledger,
            entries,
            index,
        } = self;
        match entries.with_room(more) {
            Ok(rows) => Ok(OpenedState {
                horizon,
                ledger,
                rows,
            }),
            Err(entries) => Err(State {
                horizon,
                ledger,
                entries,
                index,
            }),
        }
    }

    /// The join of any two states. The rows of the shorter table are placed among the rows of the
    /// longer table.
    fn join_into_longer(self, alloc: Global, other: State) -> Result<State, (State, State)>
        ensures ok { IfOk result (IsJoin self other) }
        ensures err { IfErr result (λ both. (both.0 ≡ self) × (both.1 ≡ other)) }
    {
        if other.entries.len() <= self.entries.len() {
            return self.join_rows(alloc, other);
        }
        match other.join_rows(alloc, self) {
            Ok(joined) => Ok(joined),
            Err((theirs, own)) => Err((own, theirs)),
        }
    }

    /// The join of any two states. The rows of the other state are placed among the rows of this
    /// state, in the same memory. Only the rows after the first placed row move. All memory is
    /// reserved before a row moves.
    fn join_rows(self, alloc: Global, other: State) -> Result<State, (State, State)>
        ensures ok { IfOk result (IsJoin self other) }
        ensures err { IfErr result (λ both. (both.0 ≡ self) × (both.1 ≡ other)) }
    {
        let Ok(room) = self.room_for_join(alloc, &other) else {
            return Err((self, other));
        };
        let Some(items) = room_for(alloc, self.ledger.len(), other.ledger.len()) else {
            return Err((self, other));
        };
        let floor = self.floor_with(&other);
        let opened = match self.opened(other.entries.len()) {
            Ok(opened) => opened,
            Err(back) => return Err((back, other)),
        };
        let joined = State::join_opened(opened, other, items, &floor);
        Ok(joined.refilled(room))
    }

    /// The join of a state that was taken apart with another state. The join has no index, and the
    /// other state's index is dropped before any row is moved. `floor` is the floor of both ledgers
    /// together, and `items` has room for the items of both.
    fn join_opened(
        opened: OpenedState,
        other: State,
        items: Vec<LedgerItem>,
        floor: &Option<FileStamp>,
    ) -> State
        requires valid { IsValid
            (state_meant opened.horizon opened.ledger.items opened.rows.items) }
        requires room { vec_len opened.rows + length other.entries ≤ vec_capacity opened.rows }
        requires items { HasRoomOf (length opened.ledger.items + length other.ledger) items }
        requires floor { IsFloor (map item_meant opened.ledger.items ++ other.ledger)
            (floor_meant floor.now) }
        ensures { IsJoin (state_meant opened.horizon opened.ledger.items opened.rows.items)
            other result }
    {
        let OpenedState {
            horizon: own,
            ledger: first,
            rows,
        } = opened;
        let State {
            horizon: theirs,
            ledger: second,
            entries: right,
            index: their_index,
        } = other;
        drop(their_index);
        let left = lapsed_under(rows, own, theirs);
        let right = lapsed_under(right.into_rows(), theirs, own);
        let joined = join_rows(left, right);
        let items = union_of(first.as_slice(), second.as_slice(), items);
        let ledger = kept_items(items, floor);
        let rows = kept_rows(joined, floor);
        State::of_rows(own.max(theirs), ledger, rows, None)
    }

    /// The same state, with the index that is made in the memory `room`, if any was reserved. The
    /// state's present index is dropped.
    fn refilled(self, room: Option<Index>) -> State
        requires { HasRoomIfAny (items_of self.entries) room }
        ensures { result ≡ self }
    {
        let State {
            horizon,
            ledger,
            entries,
            ..
        } = self;
        let mut index = room;
        refill(&mut index, entries.as_slice());
        State {
            horizon,
            ledger,
            entries,
            index,
        }
    }

    /// The file stamp of the newest full extract in the state's ledger. Returns `None` if the
    /// ledger has no full extract.
    pub fn floor(&self) -> Option<FileStamp>
        ensures { IsFloor self.now.ledger (option_map file_stamp_meant result) }
    {
        floor_of(self.ledger.as_slice())
    }

    /// The floor of this state's ledger and another state's ledger together.
    pub(crate) fn floor_with(&self, other: &State) -> Option<FileStamp>
        ensures { IsFloor (self.now.ledger ++ other.now.ledger) (floor_meant result) }
    {
        common_floor(self.floor(), other.floor())
    }
}

impl Merge for State {
    ghost use Rattle.docker_model.specs.state.State.{IsValid, IsJoin};
    ghost use Rattle.state_laws.proofs.joins.JoinValid.{join_is_valid};
    ghost use Rattle.state_laws.proofs.joins.JoinLaws.{join_unique, join_commutes, join_associates, join_idempotent};

    ghost is_valid = { IsValid };

    ghost is_join = { IsJoin };

    ghost closed = { join_is_valid };

    ghost one = { λ a b c d _ _. join_unique a b c d };

    ghost commutative = { λ a b c _ _. join_commutes a b c };

    ghost associative = { λ a b c ab bc left right _ _ _. join_associates a b c ab bc left right };

    ghost idempotent = { join_idempotent };

    /// The join of two states: the union of their ledgers, and for each key the greater of their
    /// entries. Items and entries below the greater of the two floors are left out, and each entry
    /// whose body ended before the greater of the two horizons lapses. If one state would gain
    /// nothing from the other but a horizon, the join is that state with the greater of the two
    /// horizons. The memory of the other state is then freed. For example, one state may be made
    /// from a full extract that is newer than all files of the other state. Then no row of the
    /// other state is read. If memory runs out, both states are returned unchanged. The join has an
    /// index if either state has one. In this case both states are also returned if together they
    /// have more than 4,294,967,295 rows or places, which are numbered in 32 bits.
    fn join(self, alloc: Global, other: State) -> Result<State, (State, State)>
        ensures ok { IfOk result (IsJoin self other) }
        ensures err { IfErr result (λ both. (both.0 ≡ self) × (both.1 ≡ other)) }
        ensures summary { (files others : List (List (List ℕ))) (g h : ℕ)
            → IsSummary files g self → IsSummary others h other
            → IfOk result (IsSummary (files ++ others) (max g h)) }
    {
        let own = self.horizon();
        let theirs = other.horizon();
        if self.covers(&other) {
            return match self.indexed_like(alloc, &other) {
                Ok(state) => Ok(state.raised(theirs)),
                Err(back) => Err((back, other)),
            };
        }
        if other.covers(&self) {
            return match other.indexed_like(alloc, &self) {
                Ok(state) => Ok(state.raised(own)),
                Err(back) => Err((self, back)),
            };
        }
        self.join_into_longer(alloc, other)
    }
}

/// The fields of a state except its index, with spare memory after its rows.
struct OpenedState {
    horizon: u16,
    ledger: Vec<LedgerItem>,
    rows: Vec<(Key, Entry)>,
}

/// Makes an entry lapse if its body ended before the horizon `other`. Entries whose bodies ended
/// before the horizon `own` have lapsed already, so if `other` isn't greater than `own`, no row is
/// read. The spare memory after the rows is kept.
fn lapsed_under(mut rows: Vec<(Key, Entry)>, own: u16, other: u16) -> Vec<(Key, Entry)>
    requires lapsed { HaveLapsed own (map row_meant rows.items) }
    requires ascending { AreAscending rows.items }
    ensures lapsed { map row_meant result.items
        ≡ lapse_entries (max own other) (map row_meant rows.items) }
    ensures ascending { AreAscending result.items }
    ensures len { vec_len result ≡ vec_len rows }
    ensures capacity { vec_capacity result ≡ vec_capacity rows }
{
    if own < other {
        lapse_rows(&mut rows, other);
    }
    rows
}
