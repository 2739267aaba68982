//! Train identities, each remembered after it has been looked up.
ghost use Rattle.std.specs.Prelude.{◌≡◌, List, IfOk};
ghost use Rattle.docker_model.specs.state.Row.{Row, AreRowsOf};
ghost use Rattle.docker_laws.specs.Gathering.{identity_of};
ghost use Rattle.docker_laws.specs.LiveRows.{train_in};
ghost use Rattle.docker_state.specs.Timetables.{live_in};
ghost use Rattle.docker_state.specs.Timetables as timetables;
ghost use Rattle.train_choice.specs.Known.{AreIdentities};

use crate::choice::train_on;
use crate::schedule_view::ScheduleView;
use cif_line::{Day, Memory, Uid};
use docker_state::Timetable;
use std::alloc::Global;
use std::collections::BTreeMap;
use std::marker::Model;

/// Train identities, each stored under a UID and a start day. Each identity is remembered after it
/// has been looked up, so the schedules of a UID are searched only once for each day.
#[derive(Debug, Drop)]
pub struct Identities<'a> {
    timetable: Timetable<'a>,
    known: BTreeMap<(Uid, Day), [u8; 4]>,
}

impl<'a> Model for Identities<'a> {
    ghost Value = { timetables.Timetable };

    ghost view = { λ identities. identities.timetable };

    ghost invariant = { λ identities.
        AreIdentities (live_in identities.timetable) identities.known };
}

impl<'a> Identities<'a> {
    /// The train identities of a timetable. No identity has been looked up yet.
    pub fn of(alloc: Global, timetable: &Timetable<'a>) -> Identities<'a>
        ensures { result ≡ timetable.entry.now }
    {
        Identities {
            timetable: timetable.again(),
            known: BTreeMap::new(alloc),
        }
    }

    /// The identity of the train of a UID that starts on a day, from its basic schedule. Returns
    /// four question marks if that train doesn't run, and `Memory` if there is no room to store the
    /// identity.
    pub fn identity(&mut self, uid: &Uid, day: Day) -> Result<[u8; 4], Memory>
        ensures same { self.new ≡ self.old }
        ensures identity { IfOk result (λ identity. (rows : List Row)
            → AreRowsOf (live_in self.old) rows
            → identity ≡ identity_of (train_in rows uid.now day)) }
    {
        let known = self.known.get(&(*uid, day)).copied();
        match known {
            Some(identity) => Ok(identity),
            None => self.look_up(uid, day),
        }
    }

    /// Like `identity`, but always searches the schedules of the UID. Remembers the identity that
    /// was found.
    fn look_up(&mut self, uid: &Uid, day: Day) -> Result<[u8; 4], Memory>
        ensures same { self.new ≡ self.old }
        ensures identity { IfOk result (λ identity. (rows : List Row)
            → AreRowsOf (live_in self.old) rows
            → identity ≡ identity_of (train_in rows uid.now day)) }
    {
        let identity = identity_of(train_on(&self.timetable, uid, day));
        self.known.insert((*uid, day), identity)?;
        Ok(identity)
    }
}

/// The train identity in a train's basic schedule. Returns four question marks if there is no
/// train.
fn identity_of(train: Option<ScheduleView<'_>>) -> [u8; 4]
    ensures { result ≡ identity_of train.entry }
{
    match train {
        Some(train) => *train.identity(),
        None => *b"????",
    }
}
