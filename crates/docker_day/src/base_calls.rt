//! The calls of a base train at a place, each with its first event.
ghost use Rattle.std.specs.Prelude.{◌≡◌, ℕ, Some, None, if◌then◌else◌, find, option_map, IfOk, OnOk};
ghost use Rattle.std.specs.BTreeMap.{get};
ghost use Rattle.std.specs.Ordering.{nat_cmp};
ghost use Rattle.std.specs.Str.{bytes_eq};
ghost use Rattle.train_choice.specs.EventWalk.{occurrence_meant};
ghost use Rattle.docker_day.specs.Bases.{HasCall, HasEvent, meant_if};
ghost use Rattle.docker_day.specs.Lines.{is_call};

use crate::first_event::FirstEvent;
use crate::location::suffix_in;
use crate::starts::is_here;
use cif_line::{Memory, Tiploc, Uid};
use std::alloc::Global;
use std::collections::BTreeMap;
use train_choice::{Events, Occurrence};

/// A UID, and the calls that its train makes at a place on a start day. For each suffix, the first
/// event of the call is stored. If the train doesn't run on the start day, there are no calls.
#[derive(Debug, Drop)]
pub(crate) struct BaseCalls<'a> {
    pub(crate) uid: Uid,
    pub(crate) calls: BTreeMap<u8, FirstEvent<'a>>,
}

impl<'a> BaseCalls<'a> {
    /// The first event of the call with this suffix. The outer `None` means that these calls belong
    /// to another UID. The inner `None` means that the train has no call with this suffix.
    pub(crate) fn asked(&self, uid: &Uid, suffix: u8) -> Option<Option<Occurrence<'a>>>
        ensures { option_map meant_if result ≡ (if bytes_eq self.now.uid uid.now
            then Some (get nat_cmp self.now.calls suffix) else None) }
    {
        if self.uid == *uid {
            Some(self.first(suffix))
        } else {
            None
        }
    }

    /// The first event of the call with this suffix, if there is one.
    pub(crate) fn first(&self, suffix: u8) -> Option<Occurrence<'a>>
        ensures { meant_if result ≡ get nat_cmp self.now.calls suffix }
    {
        match self.calls.get(&suffix) {
            Some(call) => Some(call.event()),
            None => None,
        }
    }
}

/// For each suffix, the first event of the train's call with that suffix at a place.
pub(crate) fn first_calls<'a>(
    alloc: Global,
    events: Events<'a>,
    place: &Tiploc,
) -> Result<BTreeMap<u8, FirstEvent<'a>>, Memory>
    ensures { IfOk result (λ calls. (suffix : ℕ)
        → get nat_cmp calls suffix ≡ find (is_call place.now suffix) events.entry) }
{
    let mut calls = BTreeMap::new(alloc);
    for event in events {
        add_event(&mut calls, &event, place)?;
    }
    Ok(calls)
}

/// Updates the first events with one more event. An event that isn't at the place is ignored.
fn add_event<'a>(
    calls: &mut BTreeMap<u8, FirstEvent<'a>>,
    event: &Occurrence<'a>,
    place: &Tiploc,
) -> Result<(), Memory>
    ensures { OnOk result (HasEvent place.now calls.old (occurrence_meant event.entry.now)
        calls.new) }
{
    if is_here(event, place) {
        add_call(calls, suffix_in(event.line), FirstEvent::of(event))
    } else {
        Ok(())
    }
}

/// Updates the first events with one more event at the place. The event is ignored if its suffix
/// already has an event.
fn add_call<'a>(
    calls: &mut BTreeMap<u8, FirstEvent<'a>>,
    suffix: u8,
    call: FirstEvent<'a>,
) -> Result<(), Memory>
    ensures { OnOk result (HasCall suffix calls.old call.entry calls.new) }
{
    if calls.contains_key(&suffix) {
        return Ok(());
    }
    calls.insert(suffix, call)?;
    Ok(())
}
