//! The text for a UID and a day: a heading, the records of the chosen schedule and a last line.
//! Each line of the text has 80 columns and a line feed.
ghost use Rattle.std.specs.Prelude.{◌≡◌, ℕ, List, ◌-◌, ◌^◌, ◌<◌, ◌↔◌, IsOk, IsErr, Err, OnOk, OnErr, Some};
ghost use Rattle.std.specs.List.{flat_map};
ghost use Rattle.std.specs.Option.{option_copied};
ghost use Rattle.cif_device.specs.Device.{CountsFailure, Takes, TakesPart};
ghost use Rattle.docker_join.specs.Meaning.{stamp_meant};
ghost use Rattle.docker_model.specs.docker.DockerText.{ended};
ghost use Rattle.docker_model.specs.state.State as states;
ghost use Rattle.cif_line.specs.Letter.{stp_letter};
ghost use Rattle.docker_train.specs.Answer.{IsAnswerOf, PrintsPart, PrintsTrain, text_of};
ghost use Rattle.docker_model.specs.records.PrintedNumber.{number_text};
ghost use Rattle.docker_model.specs.lists.TrainText.{IsTrainText, found_text, running_text, stamp_text, train_end, train_heading_with};

use crate::chosen_train::ChosenTrain;
use crate::fault::TrainFault;
use crate::finding::find_train;
use crate::stamped::Stamped;
use arrayvec::ArrayVec;
use cif_line::{Day, Failed, Line, Sink, Stp, Uid, write_all};
use docker_day::{State, clock_text};
use docker_join::Stamp;
use fixed_text::{put, whole};
use itoa::Buffer;

/// How many bytes a line has: 80 columns and a line feed.
const WIDTH: usize = 81;

/// Prints the schedule chosen for a UID on a day. If no schedule runs, the printed heading says so.
/// The schedule is found before the first byte is written. If the day is before the horizon,
/// returns `Lapsed` and writes nothing. If a write fails, returns `Sink`; the sink has then gained
/// a proper prefix of the text. The call allocates nothing.
pub fn print_train<K: Sink>(
    state: &State,
    uid: &Uid,
    day: Day,
    sink: &mut K,
) -> Result<(), TrainFault>
    requires { K.failures sink.old < 2 ^ 64 - 1 }
    ensures ok { IsOk result
        → PrintsTrain state.now uid.now day (K.taken sink.old) (K.taken sink.new) }
    ensures part { result ≡ Err TrainFault.Sink
        → PrintsPart state.now uid.now day (K.taken sink.old) (K.taken sink.new) }
    ensures lapsed { (result ≡ Err TrainFault.Lapsed) ↔ (day < state.now.horizon) }
    ensures unwritten { result ≡ Err TrainFault.Lapsed → sink.new ≡ sink.old }
    ensures failures { CountsFailure (result ≡ Err TrainFault.Sink)
        (K.failures sink.old) (K.failures sink.new) }
{
    match find_train(state, uid, day) {
        Ok(train) => write_train(&train, sink).map_err(|_| TrainFault::Sink),
        Err(_) => Err(TrainFault::Lapsed),
    }
}

/// Writes the text for a UID and a day, with the schedule found for them. If a write fails, the
/// sink has gained a proper prefix of the text.
pub fn write_train<K: Sink>(train: &ChosenTrain<'_>, sink: &mut K) -> Result<(), Failed>
    requires { K.failures sink.old < 2 ^ 64 - 1 }
    ensures whole { OnOk result (Takes (K.taken sink.old) (text_of train.now) (K.taken sink.new)) }
    ensures text { (state : states.State) (uid : List ℕ) (day : ℕ)
        → IsAnswerOf state uid day train.now
        → IsTrainText state uid day (text_of train.now) }
    ensures part { OnErr result
        (TakesPart (K.taken sink.old) (text_of train.now) (K.taken sink.new)) }
    ensures failures { CountsFailure (IsErr result) (K.failures sink.old) (K.failures sink.new) }
{
    let heading = heading(&train.uid(), train.day(), &text_of_found(train.found()));
    write_all(sink, &heading)?;
    write_lines(sink, train.lines())?;
    write_all(sink, &last_line())
}

/// Writes the lines of a schedule, each with a line feed.
fn write_lines<K: Sink>(sink: &mut K, lines: &[Line]) -> Result<(), Failed>
    requires { K.failures sink.old < 2 ^ 64 - 1 }
    ensures whole { OnOk result
        (Takes (K.taken sink.old) (flat_map ended lines.now) (K.taken sink.new)) }
    ensures part { OnErr result
        (TakesPart (K.taken sink.old) (flat_map ended lines.now) (K.taken sink.new)) }
    ensures failures { CountsFailure (IsErr result) (K.failures sink.old) (K.failures sink.new) }
{
    for line in lines {
        write_all(sink, &text_of_line(line))?;
    }
    Ok(())
}

/// The text of the heading, with a line feed.
#[tactic(auto, unfolding(docker_model::specs::lists::TrainText::train_heading_with))]
fn heading(uid: &Uid, day: Day, found: &[u8; 46]) -> [u8; WIDTH]
    ensures { result ≡ ended (train_heading_with uid.now day found.now) }
{
    let mut text = ArrayVec::new();
    put(&mut text, b"TRAIN  ");
    put(&mut text, uid.bytes());
    put(&mut text, b"  ");
    put(&mut text, &day.iso());
    put(&mut text, b" ");
    put(&mut text, found);
    put(&mut text, b"        ");
    put(&mut text, b"\n");
    whole(text)
}

/// Columns 27 to 72 of the heading. They describe the schedule found, or say `NONE` if no schedule
/// runs.
#[tactic(auto, unfolding(docker_model::specs::lists::TrainText::found_text))]
fn text_of_found(found: Option<&Stamped<'_>>) -> [u8; 46]
    ensures { result ≡ found_text (option_copied found.entry) }
{
    match found {
        Some(stamped) => text_of_stamped(stamped),
        None => *b"  NONE                                        ",
    }
}

/// Columns 27 to 72 of the heading for a schedule: its STP indicator, whether its train runs, and
/// its stamp.
#[tactic(auto, unfolding(docker_model::specs::lists::TrainText::found_text))]
fn text_of_stamped(stamped: &Stamped<'_>) -> [u8; 46]
    ensures { result ≡ found_text (Some stamped.now) }
{
    let stp = stamped.schedule().key().stp;
    let mut text = ArrayVec::new();
    put(&mut text, &[stp.letter(), b' ']);
    put(&mut text, running(stp));
    put(&mut text, b" ");
    put(&mut text, &text_of_stamp(stamped.stamp()));
    whole(text)
}

/// Nine columns: `RUNS` padded with spaces, or `CANCELLED` if the STP indicator is `C`.
fn running(stp: Stp) -> &'static [u8; 9]
    ensures { result.now ≡ running_text (stp_letter stp) }
{
    match stp {
        Stp::Cancellation => b"CANCELLED",
        _ => b"RUNS     ",
    }
}

/// The 34 columns of a stamp: the date and the time of the extract, its current file reference, and
/// the record number.
#[tactic(auto, unfolding(docker_model::specs::lists::TrainText::stamp_text))]
fn text_of_stamp(stamp: &Stamp) -> [u8; 34]
    requires { stamp.now.file.minute < 1440 }
    ensures { result ≡ stamp_text (stamp_meant stamp.now) }
{
    let mut text = ArrayVec::new();
    put(&mut text, &stamp.file.day.iso());
    put(&mut text, b" ");
    put(&mut text, &clock_text(stamp.file.minute));
    put(&mut text, b" ");
    put(&mut text, &stamp.file.reference);
    put(&mut text, b" ");
    put(&mut text, &number_text(stamp.number));
    whole(text)
}

/// A record number in ten columns, padded with spaces on the left.
fn number_text(number: u32) -> [u8; 10]
    ensures { result ≡ number_text number }
{
    let mut buffer = Buffer::new();
    let digits = buffer.format(number).as_bytes();
    let mut text = ArrayVec::new();
    put(&mut text, &[b' '; 10][digits.len()..]);
    put(&mut text, digits);
    whole(text)
}

/// The text of a record, with a line feed.
fn text_of_line(line: &Line) -> [u8; WIDTH]
    ensures { result ≡ ended line.now }
{
    let mut text = ArrayVec::new();
    put(&mut text, line.bytes());
    put(&mut text, b"\n");
    whole(text)
}

/// The text of the last line, with a line feed.
fn last_line() -> [u8; WIDTH]
    ensures { result ≡ ended train_end }
{
    let mut text = ArrayVec::new();
    put(&mut text, b"END");
    put(&mut text, &[b' '; 77]);
    put(&mut text, b"\n");
    whole(text)
}
