//! Prints the list of timing points. Each timing point has a line of 55 columns and a line feed.
ghost use Rattle.std.specs.Prelude.{◌≡◌, ◌+◌, ◌-◌, ◌^◌, ◌<◌, IsErr, OnOk, OnErr};
ghost use Rattle.cif_device.specs.Device.{CountsFailure, Takes, TakesPart};
ghost use Rattle.docker_model.specs.state.State.{IsValid, live_table};
ghost use Rattle.docker_model.specs.docker.DockerText.{ended};
ghost use Rattle.cif_change.specs.Meaning.{body_meant, key_meant};
ghost use Rattle.docker_join.specs.Meaning.{row_meant};
ghost use Rattle.docker_state.specs.Live.{live_rows};
ghost use Rattle.state_lists.specs.Gained.{Gains, GainsPart};
ghost use Rattle.docker_model.specs.records.PrintedNumber.{number_text};
ghost use Rattle.docker_model.specs.lists.PlacesText.{IsPlacesText, place_line, place_text};
ghost use Rattle.state_lists.specs.RowLines.{row_line};

use arrayvec::ArrayVec;
use cif_change::{Body, Key};
use cif_line::{Failed, Sink, Tiploc, write_all};
use docker_join::{Entry, Op};
use docker_state::State;
use fixed_text::put;
use itoa::Buffer;

/// A line with its line feed. Its capacity is enough for any count.
type PlaceLine = ArrayVec<u8, 66>;

/// Prints the live timing points in the order of their codes, one per line: TIPLOC, CRS, STANOX,
/// TPS description, and the number of live schedules that call there. The call allocates nothing.
/// If a write fails, the sink has gained a proper prefix of the text.
pub fn print_places<K: Sink>(state: &State, sink: &mut K) -> Result<(), Failed>
    requires { K.failures sink.old < 2 ^ 64 - 1 }
    ensures whole { OnOk result (Gains (IsPlacesText (live_table state.now))
        (K.taken sink.old) (K.taken sink.new)) }
    ensures part { OnErr result (GainsPart (IsPlacesText (live_table state.now))
        (K.taken sink.old) (K.taken sink.new)) }
    ensures failures { CountsFailure (IsErr result) (K.failures sink.old) (K.failures sink.new) }
{
    let rows = state.entries();
    for row in rows {
        write_row(state, row, sink)?;
    }
    Ok(())
}

/// Writes the line of a row. Writes nothing unless the row is a live timing point.
fn write_row<K: Sink>(state: &State, row: &(Key, Entry), sink: &mut K) -> Result<(), Failed>
    requires failures { K.failures sink.old < 2 ^ 64 - 1 }
    requires valid { IsValid state.now }
    ensures whole { OnOk result (Takes (K.taken sink.old)
        (row_line (live_rows state.now.entries) (row_meant row.now)) (K.taken sink.new)) }
    ensures part { OnErr result (TakesPart (K.taken sink.old)
        (row_line (live_rows state.now.entries) (row_meant row.now)) (K.taken sink.new)) }
    ensures no_failure { OnOk result (K.failures sink.new ≡ K.failures sink.old) }
    ensures counted { OnErr result (K.failures sink.new ≡ K.failures sink.old + 1) }
{
    match &row.1.op {
        Op::Put(body) => write_live(state, &row.0, body, sink),
        Op::Deleted => Ok(()),
        Op::Lapsed => Ok(()),
    }
}

/// Writes the line of a live key. Writes nothing unless the key is a timing point.
fn write_live<K: Sink>(state: &State, key: &Key, body: &Body, sink: &mut K) -> Result<(), Failed>
    requires failures { K.failures sink.old < 2 ^ 64 - 1 }
    requires valid { IsValid state.now }
    ensures whole { OnOk result (Takes (K.taken sink.old)
        (place_line (live_rows state.now.entries) (key_meant key.now) (body_meant body.now))
        (K.taken sink.new)) }
    ensures part { OnErr result (TakesPart (K.taken sink.old)
        (place_line (live_rows state.now.entries) (key_meant key.now) (body_meant body.now))
        (K.taken sink.new)) }
    ensures no_failure { OnOk result (K.failures sink.new ≡ K.failures sink.old) }
    ensures counted { OnErr result (K.failures sink.new ≡ K.failures sink.old + 1) }
{
    match (key, body) {
        (Key::Tiploc(code), Body::Tiploc(details)) => {
            let line = line_of(code, details, state.count_calling(code));
            write_all(sink, line.as_slice())
        }
        _ => Ok(()),
    }
}

/// The line of a timing point, with a line feed. `details` are columns 10 to 72 of its record.
#[tactic(auto, unfolding(docker_model::specs::lists::PlacesText::place_text))]
fn line_of(code: &Tiploc, details: &[u8; 63], count: usize) -> PlaceLine
    ensures { result.items ≡ ended (place_text code.now details.now count) }
{
    let mut text = ArrayVec::new();
    put(&mut text, code.bytes());
    put(&mut text, b" ");
    put(&mut text, &details[44..47]);
    put(&mut text, b" ");
    put(&mut text, &details[35..40]);
    put(&mut text, b" ");
    put(&mut text, &details[9..35]);
    put(&mut text, b" ");
    put(&mut text, number_text(count).as_slice());
    put(&mut text, b"\n");
    text
}

/// A number in ten columns, padded with spaces on the left. A number with more than ten digits has
/// as many columns as digits.
fn number_text(number: usize) -> ArrayVec<u8, 20>
    ensures { result.items ≡ number_text number }
{
    let mut buffer = Buffer::new();
    let digits = buffer.format(number).as_bytes();
    let mut text = ArrayVec::new();
    put(&mut text, &[b' '; 10][digits.len().min(10)..]);
    put(&mut text, digits);
    text
}
