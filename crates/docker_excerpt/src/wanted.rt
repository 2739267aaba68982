//! Which schedules the docker of a place needs, of those without an event at the place on the day.
ghost use Rattle.std.specs.Prelude.{◌≡◌, ◌↔◌, ℕ, List, map, filter, Contains, IfOk};
ghost use Rattle.std.specs.List.Sorted.{IsSorted};
ghost use Rattle.docker_model.specs.state.Order.{bytes_cmp};
ghost use Rattle.docker_laws.specs.Thinning.{is_wanted};
ghost use Rattle.cif_change.specs.Meaning.{change_meant, key_meant};
ghost use Rattle.docker_excerpt.specs.declared.elsewhere.Elsewhere as one;
ghost use Rattle.docker_excerpt.specs.Elsewhere.{all_kept, uid_named, uids_named};

use crate::elsewhere::{Elsewhere, ends_elsewhere};
use crate::needs::has_name;
use cif_change::{Change, Key, ScheduleKey};
use cif_line::{Tiploc, Uid};
use std::alloc::{AllocError, Global};

/// The UID of a schedule, or the UID of the associated train of an association. Returns `None` for
/// a TIPLOC.
fn uid_named(key: &Key) -> Option<Uid>
    ensures { result ≡ uid_named (key_meant key.now) }
{
    match key {
        Key::Tiploc(_) => None,
        Key::Assoc(assoc) => Some(assoc.associated),
        Key::Schedule(schedule) => Some(schedule.uid),
    }
}

/// The UIDs that the keys of these changes name, sorted.
pub(crate) fn uids_named(alloc: Global, made: &[Change]) -> Result<Vec<Uid>, AllocError>
    ensures sorted { IfOk result (λ uids. IsSorted bytes_cmp uids.items) }
    ensures named { IfOk result (λ uids. (uid : List ℕ)
        → Contains uids.items uid ↔ Contains (uids_named (map change_meant made.now)) uid) }
{
    let mut uids = Vec::new(alloc);
    for change in made {
        if let Some(uid) = uid_named(&change.key) {
            uids.push(uid)?;
        }
    }
    uids.sort_unstable();
    Ok(uids)
}

/// Whether the UID of a schedule's key is among these sorted UIDs.
fn is_wanted(uids: &[Uid], key: &ScheduleKey) -> bool
    requires { IsSorted bytes_cmp uids.now }
    ensures { result ≡ is_wanted uids.now (key_meant (Key.Schedule key.now)) }
{
    has_name(uids, &key.uid)
}

/// Those of the schedules whose UIDs are among these sorted UIDs.
pub(crate) fn wanted(mut elsewhere: Vec<Elsewhere>, uids: &[Uid]) -> Vec<Elsewhere>
    requires { IsSorted bytes_cmp uids.now }
    ensures { result.items ≡ filter (λ (schedule : one.Elsewhere).
        is_wanted uids.now (key_meant (Key.Schedule schedule.key))) elsewhere.items }
{
    elsewhere.retain(|schedule| is_wanted(uids, &schedule.key));
    elsewhere
}

/// These changes, followed by a put of each of the schedules, with a made-up origin and terminus.
pub(crate) fn with_bodies(
    alloc: Global,
    place: &Tiploc,
    mut changes: Vec<Change>,
    elsewhere: Vec<Elsewhere>,
) -> Result<Vec<Change>, AllocError>
    ensures { IfOk result (λ all. map change_meant all.items
        ≡ all_kept place.now changes elsewhere) }
{
    let ends = ends_elsewhere(place);
    for schedule in elsewhere {
        changes.push(schedule.change(alloc, &ends)?)?;
    }
    Ok(changes)
}
