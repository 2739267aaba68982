//! Reads the bodies of TIPLOCs and associations, and the first lines of schedules.
ghost use Rattle.std.specs.Prelude.{◌≡◌, ◌+◌, ◌≤◌, ◌↔◌, length, slice_range, false, IsTrue, MatchOption};
ghost use Rattle.docker_model.specs.records.Record.{IsRecord, HasKind, columns, IsTextOfLength};
ghost use Rattle.docker_model.specs.records.Date.{is_date, date_number};
ghost use Rattle.docker_model.specs.records.Field.{HasNewTransaction};
ghost use Rattle.docker_model.specs.file.Change.{tiploc_body, association_body, association_named, schedule_named, association_key, schedule_key};
ghost use Rattle.docker_model.specs.state.Op.{readable_end};
ghost use Rattle.docker_model.specs.state.State.{IsAssociationOf};
ghost use Rattle.cif_line.specs.Kind.{meaning};
ghost use Rattle.cif_change.specs.Meaning.{key_meant, body_meant, association_key_meant, schedule_key_meant};
ghost use Rattle.state_text.specs.Judged.{IsAssociationUnder, IsOfKey, IsFirstOf};

use crate::fields::{field, is_text};
use crate::format::{LINE, TIPLOC_BODY};
use cif_file::{AssocKey, Body, Key, ScheduleKey};
use cif_line::{Assoc, Day, Kind, Line, Transaction, Until, assoc, kind};

/// The index of the end date in an association's line.
const ASSOC_END_AT: usize = 21;

/// The index of the end date in a basic schedule.
const SCHEDULE_END_AT: usize = 15;

/// Reads the body of a TIPLOC. Returns `None` if a byte isn't printable.
pub(crate) fn tiploc_body(bytes: &[u8]) -> Option<Body>
    requires { length bytes.now ≡ TIPLOC_BODY }
    ensures { MatchOption result (¬ IsTextOfLength TIPLOC_BODY bytes.now)
        (λ body. (body_meant body ≡ tiploc_body bytes.now) × IsTextOfLength TIPLOC_BODY bytes.now) }
{
    if !is_text(bytes) {
        return None;
    }
    Some(Body::Tiploc(*field(bytes, 0)))
}

/// Reads the body of the association with this key. Returns `None` if the bytes aren't a body of
/// this association, or if the association ends before the horizon.
pub(crate) fn assoc_body(key: &AssocKey, horizon: u16, bytes: &[u8]) -> Option<Body>
    ensures { MatchOption result
        (¬ IsAssociationUnder horizon (association_key_meant key.now) bytes.now)
        (λ body. (body_meant body ≡ association_body bytes.now)
        × IsAssociationUnder horizon (association_key_meant key.now) bytes.now) }
{
    let Some(line) = Line::of(bytes) else {
        return None;
    };
    if !is_association_of(key, &line) {
        return None;
    }
    if !stays(&line, ASSOC_END_AT, horizon) {
        return None;
    }
    Some(Body::Assoc(line))
}

/// Whether the end date that begins at this index in the line is the horizon or a later day.
/// Returns true if the end date can't be read.
fn stays(line: &Line, at: usize, horizon: u16) -> bool
    requires { at + 6 ≤ LINE }
    ensures { IsTrue result ↔ (horizon ≤ readable_end (slice_range line.now at (at + 6))) }
{
    match Until::from_field(field(line.bytes(), at)) {
        Some(end) => horizon <= end.number(),
        None => true,
    }
}

/// Whether a line is of this kind.
fn has_kind(line: &Line, wanted: Kind) -> bool
    ensures { IsTrue result ↔ HasKind (meaning wanted) line.now }
{
    kind(line) == Some(wanted)
}

/// Whether a line is the association with this key.
fn is_association_of(key: &AssocKey, line: &Line) -> bool
    requires { IsRecord line.now }
    ensures { IsTrue result ↔ IsAssociationOf (association_key_meant key.now) line.now }
{
    if !has_kind(line, Kind::Association) {
        return false;
    }
    match assoc(line) {
        Ok(view) => is_new_association(key, &view),
        Err(_) => false,
    }
}

/// Whether an association has the transaction `N` and this key.
fn is_new_association(key: &AssocKey, view: &Assoc<'_>) -> bool
    ensures { IsTrue result ↔ (HasNewTransaction view.now ×
        (association_named view.now ≡ association_key (association_key_meant key.now))) }
{
    view.transaction() == Transaction::New && is_same(&association_of(view), &Key::Assoc(*key))
}

/// The key of an association.
fn association_of(view: &Assoc<'_>) -> Key
    ensures { key_meant result ≡ association_named view.now }
{
    Key::Assoc(AssocKey {
        base: view.base(),
        associated: view.associated(),
        start: view.start(),
        location: view.location(),
        suffix: view.base_suffix(),
        stp: view.stp(),
    })
}

/// Whether two keys are equal.
fn is_same(first: &Key, second: &Key) -> bool
    ensures { IsTrue result ↔ (key_meant first.now ≡ key_meant second.now) }
{
    first == second
}

/// Whether a line has the transaction `N` and this schedule key, and its schedule doesn't end
/// before the horizon. The line's other fields aren't checked.
pub(crate) fn is_first_of(key: &ScheduleKey, horizon: u16, line: &Line) -> bool
    ensures of_key { IsTrue result → IsOfKey horizon (schedule_key_meant key.now) line.now }
    ensures refused { result ≡ false → ¬ IsFirstOf horizon (schedule_key_meant key.now) line.now }
{
    if !is_new_schedule(key, line) {
        return false;
    }
    stays(line, SCHEDULE_END_AT, horizon)
}

/// Whether a line has the transaction `N`, this schedule key, and a first day that can be read.
fn is_new_schedule(key: &ScheduleKey, line: &Line) -> bool
    ensures { IsTrue result ↔ (HasNewTransaction line.now
        × IsTrue (is_date (columns 10 15 line.now))
        × (schedule_named line.now ≡ schedule_key (schedule_key_meant key.now))) }
{
    if line.column(3) != b'N' {
        return false;
    }
    if line.column(80) != key.stp.letter() {
        return false;
    }
    if line.field(4) != key.uid.bytes() {
        return false;
    }
    begins_on(line, &key.runs_from)
}

/// Whether the line's first day is this day. Returns false if the date can't be read.
fn begins_on(line: &Line, day: &Day) -> bool
    ensures { IsTrue result ↔ (IsTrue (is_date (columns 10 15 line.now))
        × (date_number (columns 10 15 line.now) ≡ day.now)) }
{
    match Day::from_yymmdd(line.field(10)) {
        Some(first) => first.number() == day.number(),
        None => false,
    }
}
