//! The schedule of a train, with a walk over its records.
ghost use Rattle.std.specs.Prelude.{◌≡◌, ◌^◌, ◌<◌, ◌≤◌, ◌&&◌, nat_le, ◌==◌, All, length};
ghost use Rattle.std.specs.Option.{option_copied};
ghost use Rattle.std.specs.Str.{bytes_eq};
ghost use Rattle.docker_model.specs.records.Field.{HasGoodFields};
ghost use Rattle.docker_model.specs.docker.DetailedText.{extra_record};
ghost use Rattle.docker_state.specs.Timetables.{live_in};
ghost use Rattle.docker_detail.specs.Finding.{records_of_train};
ghost use Rattle.docker_detail.specs.Known.{IsKnownTrain, IsReady};
ghost use Rattle.docker_detail.specs.Meaning.{records_meant};
ghost use Rattle.docker_detail.specs.Records.{records_of};

use crate::event_records::EventRecords;
use crate::record_walk::{RecordWalk, has_identity};
use cif_line::{Day, Line, Uid};
use docker_state::Timetable;
use train_choice::{ScheduleView, train_on};

/// The schedule according to which the train of a UID runs that starts on a day, with a walk over
/// the schedule's records. If the train doesn't run, there are no records.
#[derive(Debug, Drop)]
pub(crate) struct KnownTrain<'a> {
    uid: Uid,
    start: Day,
    lines: &'a [Line],
    extra: Option<&'a Line>,
    walk: RecordWalk<'a>,
    least: u64,
}

impl<'a> KnownTrain<'a> {
    /// Looks up the train of a UID that starts on a day.
    pub(crate) fn of(timetable: &Timetable<'a>, uid: &Uid, start: Day) -> KnownTrain<'a>
        ensures known { IsKnownTrain (live_in timetable.now) result }
        ensures uid { result.uid ≡ uid.entry.now }
        ensures start { result.start ≡ start }
        ensures least { result.least ≡ 0 }
    {
        let lines = records_of_train(train_on(timetable, uid, start));
        KnownTrain {
            uid: *uid,
            start,
            lines,
            extra: extra_record(lines),
            walk: RecordWalk::over(lines),
            least: 0,
        }
    }

    /// Whether this is the train of the UID that starts on the day, and its walk can still find the
    /// event with this number.
    pub(crate) fn finds(&self, uid: &Uid, start: Day, number: u64) -> bool
        ensures { result ≡ (bytes_eq self.now.uid uid.now && (self.now.start == start)
            && nat_le self.now.least number) }
    {
        (self.uid == *uid) & (self.start == start) & (self.least <= number)
    }

    /// The records that belong to the event with this number. The walk goes on to this event.
    pub(crate) fn records(&mut self, number: u64) -> EventRecords<'a>
        requires ready { IsReady self.old }
        requires least { self.old.least ≤ number }
        ensures ready { IsReady self.new }
        ensures records { records_meant result ≡ records_of self.old.lines.now number }
        ensures lines { self.new.lines ≡ self.old.lines }
        ensures uid { self.new.uid ≡ self.old.uid }
        ensures start { self.new.start ≡ self.old.start }
    {
        self.walk.walk_to(number);
        self.least = number;
        EventRecords {
            basic: self.lines.first(),
            extra: self.extra,
            change: self.walk.change(),
            location: self.walk.location(),
        }
    }
}

/// The records of a train's schedule, or none if there is no train.
fn records_of_train<'a>(train: Option<ScheduleView<'a>>) -> &'a [Line]
    ensures lines { result.now ≡ records_of_train train.entry }
    ensures good { All HasGoodFields result.now }
    ensures few { length result.now < 2 ^ 32 }
{
    match train {
        Some(train) => train.lines(),
        None => &[],
    }
}

/// The extra details (BX) of a schedule, if it has any.
fn extra_record(lines: &[Line]) -> Option<&Line>
    ensures { option_copied result ≡ extra_record lines.entry.now }
{
    lines.iter().find(|line| has_identity(line, b"BX"))
}
