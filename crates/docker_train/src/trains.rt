//! Lists the trains that have a train identity and start on a day.
ghost use Rattle.std.specs.Prelude.{◌≡◌, ◌+◌, ◌-◌, ◌^◌, ◌<◌, ◌↔◌, List, IsOk, IsErr, Err, OnOk, OnErr, Some};
ghost use Rattle.cif_change.specs.Meaning.{body_meant, key_meant, schedule_key_meant};
ghost use Rattle.cif_device.specs.Device.{CountsFailure, Takes, TakesPart};
ghost use Rattle.docker_model.specs.docker.DockerText.{ended};
ghost use Rattle.docker_model.specs.state.Row.{Row, AreRowsOf};
ghost use Rattle.docker_model.specs.state.State.{IsBodyOf, live_table};
ghost use Rattle.docker_state.specs.Timetables.{live_in};
ghost use Rattle.train_choice.specs.Along.{IsLiveTrain};
ghost use Rattle.docker_train.specs.TrainsListed.{ListsPart, ListsTrains};
ghost use Rattle.docker_model.specs.lists.TrainsText.{train_columns};
ghost use Rattle.docker_train.specs.TrainRows.{row_line, schedule_line};

use crate::fault::TrainFault;
use crate::listing::Listing;
use arrayvec::ArrayVec;
use cif_change::{Body, Key};
use cif_line::{Day, Failed, Sink, write_all};
use docker_day::{ScheduleKey, State};
use fixed_text::{put, whole};
use train_choice::{ScheduleView, schedule_of};

/// How many bytes a line has: 19 columns and a line feed.
const WIDTH: usize = 20;

/// Prints the list of the trains that have a train identity, in their basic schedule or after a
/// change en route, and start on a day. Each has a line, in ascending order of the UIDs. If the day
/// is before the horizon, returns `Lapsed` and writes nothing, because schedules that ran on the
/// day may have lapsed. If a write fails, returns `Sink`; the sink has then gained a proper prefix
/// of the list. The call allocates nothing. It reads each live schedule once, and searches the
/// schedules of a UID at most once.
pub fn print_trains<K: Sink>(
    state: &State,
    identity: &[u8; 4],
    day: Day,
    sink: &mut K,
) -> Result<(), TrainFault>
    requires { K.failures sink.old < 2 ^ 64 - 1 }
    ensures ok { IsOk result → ListsTrains (live_table state.now) identity.now day
        (K.taken sink.old) (K.taken sink.new) }
    ensures part { result ≡ Err TrainFault.Sink → ListsPart (live_table state.now) identity.now day
        (K.taken sink.old) (K.taken sink.new) }
    ensures lapsed { (result ≡ Err TrainFault.Lapsed) ↔ (day < state.now.horizon) }
    ensures unwritten { result ≡ Err TrainFault.Lapsed → sink.new ≡ sink.old }
    ensures failures { CountsFailure (result ≡ Err TrainFault.Sink)
        (K.failures sink.old) (K.failures sink.new) }
{
    if day.number() < state.horizon() {
        return Err(TrainFault::Lapsed);
    }
    write_trains(state, identity, day, sink).map_err(|_| TrainFault::Sink)
}

/// Like `print_trains`, for a day that need not be checked.
fn write_trains<K: Sink>(
    state: &State,
    identity: &[u8; 4],
    day: Day,
    sink: &mut K,
) -> Result<(), Failed>
    requires { K.failures sink.old < 2 ^ 64 - 1 }
    ensures whole { OnOk result (ListsTrains (live_table state.now) identity.now day
        (K.taken sink.old) (K.taken sink.new)) }
    ensures part { OnErr result (ListsPart (live_table state.now) identity.now day
        (K.taken sink.old) (K.taken sink.new)) }
    ensures failures { CountsFailure (IsErr result) (K.failures sink.old) (K.failures sink.new) }
{
    // This call is made only for its contract, which says that the state is valid.
    let _entries = state.entries();
    let mut listing = Listing::of(state, identity, day);
    for (key, body) in state.live() {
        write_row(&mut listing, key, body, sink)?;
    }
    Ok(())
}

/// Writes the line of a live row. Writes nothing unless the row is a schedule that is listed.
fn write_row<'a, K: Sink>(
    listing: &mut Listing<'a>,
    key: &'a Key,
    body: &'a Body,
    sink: &mut K,
) -> Result<(), Failed>
    requires failures { K.failures sink.old < 2 ^ 64 - 1 }
    requires good { IsBodyOf (key_meant key.now) (body_meant body.now) }
    requires live { live_in listing.old.timetable (key_meant key.now)
        ≡ Some (body_meant body.now) }
    ensures same { listing.new ≡ listing.old }
    ensures whole { (rows : List Row) → AreRowsOf (live_in listing.old.timetable) rows
        → OnOk result (Takes (K.taken sink.old)
        (row_line rows listing.old.identity listing.old.day
        (key_meant key.entry.now, body_meant body.entry.now)) (K.taken sink.new)) }
    ensures part { (rows : List Row) → AreRowsOf (live_in listing.old.timetable) rows
        → OnErr result (TakesPart (K.taken sink.old)
        (row_line rows listing.old.identity listing.old.day
        (key_meant key.entry.now, body_meant body.entry.now)) (K.taken sink.new)) }
    ensures no_failure { OnOk result (K.failures sink.new ≡ K.failures sink.old) }
    ensures counted { OnErr result (K.failures sink.new ≡ K.failures sink.old + 1) }
{
    match schedule_of(key, body) {
        Some(train) => write_schedule(listing, &train, sink),
        None => Ok(()),
    }
}

/// Writes the line of a schedule, if the schedule is listed.
fn write_schedule<'a, K: Sink>(
    listing: &mut Listing<'a>,
    train: &ScheduleView<'a>,
    sink: &mut K,
) -> Result<(), Failed>
    requires failures { K.failures sink.old < 2 ^ 64 - 1 }
    requires live { IsLiveTrain (live_in listing.old.timetable) train.now }
    ensures same { listing.new ≡ listing.old }
    ensures whole { (rows : List Row) → AreRowsOf (live_in listing.old.timetable) rows
        → OnOk result (Takes (K.taken sink.old)
        (schedule_line rows listing.old.identity listing.old.day (Some train.now))
        (K.taken sink.new)) }
    ensures part { (rows : List Row) → AreRowsOf (live_in listing.old.timetable) rows
        → OnErr result (TakesPart (K.taken sink.old)
        (schedule_line rows listing.old.identity listing.old.day (Some train.now))
        (K.taken sink.new)) }
    ensures no_failure { OnOk result (K.failures sink.new ≡ K.failures sink.old) }
    ensures counted { OnErr result (K.failures sink.new ≡ K.failures sink.old + 1) }
{
    if listing.has(train) {
        return write_all(sink, &text_of_train(train.key(), listing.day()));
    }
    Ok(())
}

/// The line of a train that starts on this day, with a line feed.
#[tactic(auto, unfolding(docker_model::specs::lists::TrainsText::train_columns))]
fn text_of_train(key: &ScheduleKey, day: Day) -> [u8; WIDTH]
    ensures { result ≡ ended (train_columns day (schedule_key_meant key.now)) }
{
    let mut text = ArrayVec::new();
    put(&mut text, key.uid.bytes());
    put(&mut text, b" ");
    put(&mut text, &day.iso());
    put(&mut text, b" ");
    put(&mut text, &[key.stp.letter()]);
    put(&mut text, b"\n");
    whole(text)
}
