//! The records of the schedules according to which trains run. The train that was looked up last is
//! remembered.
ghost use Rattle.std.specs.Prelude.{◌≡◌, ◌≤◌, List};
ghost use Rattle.docker_model.specs.state.Row.{Row, AreRowsOf};
ghost use Rattle.docker_laws.specs.LiveRows.{train_in};
ghost use Rattle.docker_state.specs.Timetables.{live_in};
ghost use Rattle.docker_state.specs.Timetables as timetables;
ghost use Rattle.docker_detail.specs.Finding.{records_of_train};
ghost use Rattle.docker_detail.specs.Known.{IsKnownTrain, MayBeKnownTrain};
ghost use Rattle.docker_detail.specs.Meaning.{records_meant};
ghost use Rattle.docker_detail.specs.Records.{records_of};

use crate::event_records::EventRecords;
use crate::known_train::KnownTrain;
use cif_line::{Day, Uid};
use docker_state::Timetable;
use std::marker::Model;

/// The records of the schedules according to which trains run in a timetable. The train that was
/// looked up last is remembered, with a walk over its records. If the events of a train are asked
/// for one after the other, in ascending order, it is looked up once and its records are read once.
#[derive(Debug, Drop)]
pub(crate) struct TrainRecords<'a> {
    timetable: Timetable<'a>,
    known: Option<KnownTrain<'a>>,
}

impl<'a> Model for TrainRecords<'a> {
    ghost Value = { timetables.Timetable };

    ghost view = { λ records. records.timetable };

    ghost invariant = { λ records. MayBeKnownTrain (live_in records.timetable) records.known };
}

impl<'a> TrainRecords<'a> {
    /// The records of a timetable's trains. No train has been looked up yet.
    pub(crate) fn of(timetable: &Timetable<'a>) -> TrainRecords<'a>
        ensures { result ≡ timetable.entry.now }
    {
        TrainRecords {
            timetable: timetable.again(),
            known: None,
        }
    }

    /// The records that belong to an event, of the train of a UID that starts on a day. If the train
    /// doesn't run, there are no records.
    pub(crate) fn of_event(&mut self, uid: &Uid, start: Day, number: u64) -> EventRecords<'a>
        ensures same { self.new ≡ self.old }
        ensures records { (rows : List Row) → AreRowsOf (live_in self.old) rows
            → records_meant result ≡ records_of (records_of_train (train_in rows uid.now start)) number }
    {
        let mut known = self.take(uid, start, number);
        let records = known.records(number);
        self.known = Some(known);
        records
    }

    /// Takes the train of a UID that starts on a day, with a walk that can find the event with this
    /// number. It is the train that was looked up last, if it is the same.
    fn take(&mut self, uid: &Uid, start: Day, number: u64) -> KnownTrain<'a>
        ensures same { self.new ≡ self.old }
        ensures known { IsKnownTrain (live_in self.old) result }
        ensures uid { result.uid ≡ uid.now }
        ensures start { result.start ≡ start }
        ensures least { result.least ≤ number }
    {
        match self.known.take() {
            Some(known) => {
                if known.finds(uid, start, number) {
                    known
                } else {
                    KnownTrain::of(&self.timetable, uid, start)
                }
            }
            None => KnownTrain::of(&self.timetable, uid, start),
        }
    }
}
