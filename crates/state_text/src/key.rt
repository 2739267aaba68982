//! Reads keys.
ghost use Rattle.std.specs.Prelude.{◌≡◌, ◌↔◌, length, IsTrue, MatchOption};
ghost use Rattle.docker_model.specs.state.State.{IsGoodKey, AreAscending};
ghost use Rattle.docker_model.specs.state.StateText.{key_in};
ghost use Rattle.docker_model.specs.state.StatePart.{key_width, IsAboveEntries};
ghost use Rattle.cif_change.specs.Meaning.{key_meant};
ghost use Rattle.state_text.specs.Stage.{tag_meant};
ghost use Rattle.state_text.specs.Judged.{IsJudgedKey};

use crate::cause::StateCause;
use crate::fields::{field, number_16};
use crate::format::{
    ASSOC_KEY, ASSOC_STP_AT, ASSOCIATED_AT, LOCATION_AT, RUNS_FROM_AT, SCHEDULE_KEY,
    SCHEDULE_STP_AT, START_AT, SUFFIX_AT, TIPLOC_KEY,
};
use crate::keeper::PartKeeper;
use crate::parts_so_far::PartsSoFar;
use crate::stage::Tag;
use cif_file::{AssocKey, Key, ScheduleKey};
use cif_line::{Day, Stp, Tiploc, Uid, is_printable};

/// Reads the key of a TIPLOC. Returns `None` if no record can have this key.
fn tiploc_key(bytes: &[u8]) -> Option<Key>
    requires { length bytes.now ≡ TIPLOC_KEY }
    ensures { MatchOption result (¬ IsGoodKey (key_in 1 bytes.now))
        (λ key. (key_meant key ≡ key_in 1 bytes.now) × IsGoodKey (key_in 1 bytes.now)) }
{
    let code = Tiploc::from_field(field(bytes, 0))?;
    Some(Key::Tiploc(code))
}

/// Reads the key of an association. Returns `None` if no record can have this key.
fn assoc_key(bytes: &[u8]) -> Option<Key>
    requires { length bytes.now ≡ ASSOC_KEY }
    ensures { MatchOption result (¬ IsGoodKey (key_in 2 bytes.now))
        (λ key. (key_meant key ≡ key_in 2 bytes.now) × IsGoodKey (key_in 2 bytes.now)) }
{
    let suffix = bytes[SUFFIX_AT];
    let base = Uid::from_field(field(bytes, 0))?;
    let associated = Uid::from_field(field(bytes, ASSOCIATED_AT))?;
    let start = Day::from_number(number_16(bytes, START_AT))?;
    let location = Tiploc::from_field(field(bytes, LOCATION_AT))?;
    let stp = Stp::from_letter(bytes[ASSOC_STP_AT])?;
    if !is_printable(suffix) {
        return None;
    }
    Some(Key::Assoc(AssocKey {
        base,
        associated,
        start,
        location,
        suffix,
        stp,
    }))
}

/// Reads the key of a schedule. Returns `None` if no record can have this key.
fn schedule_key(bytes: &[u8]) -> Option<Key>
    requires { length bytes.now ≡ SCHEDULE_KEY }
    ensures { MatchOption result (¬ IsGoodKey (key_in 3 bytes.now))
        (λ key. (key_meant key ≡ key_in 3 bytes.now) × IsGoodKey (key_in 3 bytes.now)) }
{
    let uid = Uid::from_field(field(bytes, 0))?;
    let runs_from = Day::from_number(number_16(bytes, RUNS_FROM_AT))?;
    let stp = Stp::from_letter(bytes[SCHEDULE_STP_AT])?;
    Some(Key::Schedule(ScheduleKey {
        uid,
        runs_from,
        stp,
    }))
}

/// Reads a key of the tag's kind. Returns `None` if no record can have this key.
fn key_in(tag: Tag, bytes: &[u8]) -> Option<Key>
    requires { length bytes.now ≡ key_width (tag_meant tag) }
    ensures { MatchOption result (¬ IsGoodKey (key_in (tag_meant tag) bytes.now))
        (λ key. (key_meant key ≡ key_in (tag_meant tag) bytes.now)
        × IsGoodKey (key_in (tag_meant tag) bytes.now)) }
{
    match tag {
        Tag::Tiploc => tiploc_key(bytes),
        Tag::Assoc => assoc_key(bytes),
        Tag::Schedule => schedule_key(bytes),
    }
}

/// Whether a key is above the keys of all entries that were read.
fn is_above<K: PartKeeper>(parts: &PartsSoFar<K>, key: &Key) -> bool
    requires { AreAscending parts.now.entries }
    ensures { IsTrue result ↔ IsAboveEntries parts.now (key_meant key.now) }
{
    match parts.last() {
        Some(last) => *last < *key,
        None => true,
    }
}

/// Reads the key of the next entry, or returns why it is bad.
pub(crate) fn judged_key<K: PartKeeper>(
    tag: Tag,
    parts: &PartsSoFar<K>,
    bytes: &[u8],
) -> Result<Key, StateCause>
    requires wide { length bytes.now ≡ key_width (tag_meant tag) }
    requires ascending { AreAscending parts.now.entries }
    ensures { IsJudgedKey parts.now (key_in (tag_meant tag) bytes.now) result }
{
    let Some(key) = key_in(tag, bytes) else {
        return Err(StateCause::Body);
    };
    if !is_above(parts, &key) {
        return Err(StateCause::Order);
    }
    Ok(key)
}
