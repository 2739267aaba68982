//! Records that are units by themselves, and the changes that they make. These records are TIPLOC
//! records and associations.
ghost use Rattle.std.specs.Prelude.{◌≡◌, ℕ, length, [], None, true, false, MatchOption, if◌then◌else◌};
ghost use Rattle.docker_model.specs.records.Record.{HasKind, columns, tiploc_amend};
ghost use Rattle.docker_model.specs.records.Field.{is_deletion, as_new};
ghost use Rattle.docker_model.specs.file.Change.{changes_of_record, keeps_code, tiploc_key, association_named};
ghost use Rattle.docker_model.specs.file.Change.{tiploc_named, tiploc_details, association_body, delete, put};
ghost use Rattle.cif_change.specs.Meaning.{change_meant, key_meant};
ghost use Rattle.cif_file.specs.SingleChanges.{PutNoSchedules, PutsNoSchedule, listed};
ghost use Rattle.cif_file.specs.UnitRead.{kind_of_single, line_of_single};

use cif_change::{Act, AssocKey, Body, Change, Key};
use cif_line::{Assoc, Tiploc, TiplocRecord, Transaction};

/// A record that is a unit by itself and whose checked fields are good.
#[derive(Debug, Drop)]
pub enum Single<'a> {
    /// A TIPLOC insert (TI).
    TiplocInsert(TiplocRecord<'a>),
    /// A TIPLOC amendment (TA).
    TiplocAmend(TiplocRecord<'a>),
    /// A TIPLOC deletion (TD).
    TiplocDelete(TiplocRecord<'a>),
    /// An association (AA).
    Association(Assoc<'a>),
}

/// The one or two changes of a record that is a unit by itself.
#[derive(Debug, Drop)]
pub struct SingleChanges {
    /// The deletion of a TIPLOC's old code, if an amendment gives it another code.
    pub first: Option<Change>,
    /// The change that every TIPLOC record and every association makes. If `first` has a change
    /// too, that change comes before this one.
    pub last: Change,
}

/// The changes that the record makes. None of them puts a schedule.
pub fn changes_of(number: u32, single: &Single<'_>) -> SingleChanges
    requires { HasKind (kind_of_single single.now) (line_of_single single.now) }
    ensures changes { listed result ≡ changes_of_record number (line_of_single single.now) [] }
    ensures no_schedule { PutNoSchedules result }
{
    match single {
        Single::TiplocInsert(view) => by_itself(tiploc_put(number, view.code(), view)),
        Single::TiplocAmend(view) => changes_amended(number, view),
        Single::TiplocDelete(view) => by_itself(tiploc_deleted(number, view)),
        Single::Association(view) => by_itself(association_change(number, view)),
    }
}

/// The changes of a record that makes only one change.
fn by_itself(change: Change) -> SingleChanges
    ensures { result ≡ record { first = None; last = change } }
{
    SingleChanges {
        first: None,
        last: change,
    }
}

/// The changes of a TIPLOC amendment. If the amendment gives the TIPLOC another code, the first
/// change deletes the old code, and the last change puts the TIPLOC's details under the new code.
fn changes_amended(number: u32, view: &TiplocRecord<'_>) -> SingleChanges
    requires { HasKind tiploc_amend view.now }
    ensures changes { listed result ≡ changes_of_record number view.now [] }
    ensures no_schedule { PutNoSchedules result }
{
    match other_code(view) {
        None => by_itself(tiploc_put(number, view.code(), view)),
        Some(code) => SingleChanges {
            first: Some(tiploc_deleted(number, view)),
            last: tiploc_put(number, code, view),
        },
    }
}

/// How many changes the record makes.
pub(crate) fn count_changes(single: &Single<'_>) -> u64
    requires { HasKind (kind_of_single single.now) (line_of_single single.now) }
    ensures { (number : ℕ) →
        result ≡ length (changes_of_record number (line_of_single single.now) []) }
{
    match single {
        Single::TiplocInsert(_) => 1,
        Single::TiplocAmend(view) => count_amended(view),
        Single::TiplocDelete(_) => 1,
        Single::Association(_) => 1,
    }
}

/// How many changes a TIPLOC amendment makes.
fn count_amended(view: &TiplocRecord<'_>) -> u64
    requires { HasKind tiploc_amend view.now }
    ensures { (number : ℕ) → result ≡ length (changes_of_record number view.now []) }
{
    match other_code(view) {
        None => 1,
        Some(_) => 2,
    }
}

/// The new code of a TIPLOC amendment. Returns `None` if the record keeps the old code.
fn other_code(view: &TiplocRecord<'_>) -> Option<Tiploc>
    requires { HasKind tiploc_amend view.now }
    ensures { MatchOption result (keeps_code view.now ≡ true)
        (λ code. (keeps_code view.now ≡ false) × (code ≡ columns 73 79 view.now)) }
{
    let code = view.new_code()?;
    if code == view.code() {
        None
    } else {
        Some(code)
    }
}

/// The change that deletes the TIPLOC with the record's code.
fn tiploc_deleted(number: u32, view: &TiplocRecord<'_>) -> Change
    ensures change { change_meant result ≡
        record { number = number; key = tiploc_named view.now; act = delete } }
    ensures no_schedule { PutsNoSchedule (change_meant result) }
{
    Change {
        number,
        key: Key::Tiploc(view.code()),
        act: Act::Delete,
    }
}

/// The change that puts the TIPLOC's details under this code.
fn tiploc_put(number: u32, code: Tiploc, view: &TiplocRecord<'_>) -> Change
    ensures change { change_meant result ≡ record {
      number = number;
      key = tiploc_key code;
      act = put (tiploc_details view.now);
    } }
    ensures no_schedule { PutsNoSchedule (change_meant result) }
{
    Change {
        number,
        key: Key::Tiploc(code),
        act: Act::Put(Body::Tiploc(*view.details())),
    }
}

/// The change that an association record makes: it puts or deletes the association.
fn association_change(number: u32, view: &Assoc<'_>) -> Change
    ensures change { change_meant result ≡ record {
      number = number;
      key = association_named view.now;
      act = if is_deletion view.now then delete else put (association_body (as_new view.now));
    } }
    ensures no_schedule { PutsNoSchedule (change_meant result) }
{
    let act = match view.transaction() {
        Transaction::Delete => Act::Delete,
        Transaction::New => Act::Put(Body::Assoc(view.line().as_new())),
        Transaction::Revise => Act::Put(Body::Assoc(view.line().as_new())),
    };
    Change {
        number,
        key: Key::Assoc(association_key(view)),
        act,
    }
}

/// The key of this association.
fn association_key(view: &Assoc<'_>) -> AssocKey
    ensures { key_meant (Key.Assoc result) ≡ association_named view.now }
{
    AssocKey {
        base: view.base(),
        associated: view.associated(),
        start: view.start(),
        location: view.location(),
        suffix: view.base_suffix(),
        stp: view.stp(),
    }
}
