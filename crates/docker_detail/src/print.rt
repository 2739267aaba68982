//! The text of a detailed docker: a heading, the docker's lines, each with its origin, and a last
//! line. Each line of the text has 483 columns and a line feed.
ghost use Rattle.std.specs.Prelude.{◌≡◌, ℕ, List, ◌-◌, ◌+◌, ◌^◌, ◌<◌, ◌≤◌, ◌++◌, IsErr, OnOk, OnErr, length};
ghost use Rattle.std.specs.List.{flat_map};
ghost use Rattle.std.specs.Option.{option_copied};
ghost use Rattle.arrayvec.specs.ArrayVec.{array_vec_len};
ghost use Rattle.cif_device.specs.Device.{CountsFailure, Takes, TakesPart};
ghost use Rattle.docker_model.specs.records.PrintedNumber.{number_text};
ghost use Rattle.docker_model.specs.records.PrintedTime.{spaces};
ghost use Rattle.docker_model.specs.state.Table.{Table};
ghost use Rattle.docker_model.specs.docker.DockerLine.{DockerLine};
ghost use Rattle.docker_model.specs.docker.DockerText.{ended, last_line};
ghost use Rattle.docker_model.specs.docker.DetailedText.{IsDetailedText, detailed_line, padded, record_text};
ghost use Rattle.docker_day.specs.DockerValue.{head};
ghost use Rattle.docker_detail.specs.DetailedValue.{IsDetailedOf, text_of};
ghost use Rattle.docker_detail.specs.Meaning.{origin_meant};

use crate::detailed_line::DetailedLine;
use crate::detailed_list::DetailedDocker;
use crate::origin::LineOrigin;
use arrayvec::ArrayVec;
use cif_line::{Day, Failed, Line, Sink, Tiploc, write_all};
use docker_day::{heading, last_line, text_of_line};
use fixed_text::{put, whole};
use itoa::Buffer;

/// How many bytes a line has: 483 columns and a line feed.
const WIDTH: usize = 484;

/// How many bytes a line has room for. The number of an event has ten columns, and more only if it
/// has more than ten digits. It has at most twenty.
const ROOM: usize = 494;

/// Writes a detailed docker to a sink. If a write fails, the sink has gained only a proper prefix
/// of the text.
pub fn write_detailed<K: Sink>(docker: &DetailedDocker<'_>, sink: &mut K) -> Result<(), Failed>
    requires { K.failures sink.old < 2 ^ 64 - 1 }
    ensures whole { OnOk result (Takes (K.taken sink.old) (text_of docker.now) (K.taken sink.new)) }
    ensures text { (live : Table) (place : List ℕ) (day : ℕ)
        → IsDetailedOf live place day docker.now
        → IsDetailedText live place day (text_of docker.now) }
    ensures part { OnErr result
        (TakesPart (K.taken sink.old) (text_of docker.now) (K.taken sink.new)) }
    ensures failures { CountsFailure (IsErr result) (K.failures sink.old) (K.failures sink.new) }
{
    let heading = padded_heading(&docker.place(), docker.day(), docker.description());
    write_all(sink, &heading)?;
    write_lines(sink, docker.lines())?;
    write_all(sink, &padded_last_line())
}

/// Writes docker lines, each with its origin and a line feed.
fn write_lines<K: Sink>(sink: &mut K, lines: &[DetailedLine<'_>]) -> Result<(), Failed>
    requires { K.failures sink.old < 2 ^ 64 - 1 }
    ensures whole { OnOk result
        (Takes (K.taken sink.old)
        (flat_map (λ (line : DockerLine × List ℕ). ended (detailed_line line)) lines.now)
        (K.taken sink.new)) }
    ensures part { OnErr result
        (TakesPart (K.taken sink.old)
        (flat_map (λ (line : DockerLine × List ℕ). ended (detailed_line line)) lines.now)
        (K.taken sink.new)) }
    ensures failures { CountsFailure (IsErr result) (K.failures sink.old) (K.failures sink.new) }
{
    for line in lines {
        write_all(sink, text_of_detailed(line).as_slice())?;
    }
    Ok(())
}

/// The text of the heading, padded with spaces, with a line feed.
fn padded_heading(place: &Tiploc, day: Day, description: &[u8; 26]) -> [u8; WIDTH]
    ensures { result ≡ ended (padded (head place.now day description.now)) }
{
    padded(&heading(place, day, description))
}

/// The text of the last line, padded with spaces, with a line feed.
fn padded_last_line() -> [u8; WIDTH]
    ensures { result ≡ ended (padded last_line) }
{
    padded(&last_line())
}

/// A line of 56 columns, padded with spaces to 483 columns. Both lines have a line feed.
fn padded(line: &[u8; 57]) -> [u8; WIDTH]
    ensures { (columns : List ℕ) → line.now ≡ ended columns → result ≡ ended (padded columns) }
{
    let mut text = ArrayVec::new();
    put(&mut text, columns_of(line));
    put(&mut text, &[b' '; 427]);
    put(&mut text, b"\n");
    whole(text)
}

/// The 56 columns of a line, without its line feed.
fn columns_of(line: &[u8; 57]) -> &[u8]
    ensures columns { (columns : List ℕ) → line.now ≡ ended columns → result.now ≡ columns }
    ensures width { length result.now ≡ 56 }
{
    &line[..56]
}

/// The text of a docker line with its origin, with a line feed.
fn text_of_detailed(line: &DetailedLine<'_>) -> ArrayVec<u8, ROOM>
    ensures { result.items ≡ ended (detailed_line line.now) }
{
    let mut text = ArrayVec::new();
    put(&mut text, columns_of(&text_of_line(line.line())));
    put_origin(&mut text, line.origin());
    put(&mut text, b"\n");
    text
}

/// Appends the text of an origin.
fn put_origin(text: &mut ArrayVec<u8, ROOM>, origin: &LineOrigin<'_>)
    requires room { array_vec_len text.old ≡ 56 }
    ensures items { text.new.items ≡ text.old.items ++ origin_meant origin.now }
    ensures len { array_vec_len text.new ≤ 493 }
{
    put(text, b" ");
    put(text, &origin.start.iso());
    put(text, b" ");
    put_number(text, origin.number);
    put_record(text, origin.basic);
    put_record(text, origin.extra);
    put_record(text, origin.change);
    put_record(text, origin.location);
    put_record(text, origin.association);
}

/// Appends a number in ten columns, padded with spaces on the left.
fn put_number(text: &mut ArrayVec<u8, ROOM>, number: u64)
    requires room { array_vec_len text.old ≤ 68 }
    ensures items { text.new.items ≡ text.old.items ++ number_text number }
    ensures len { array_vec_len text.new ≤ array_vec_len text.old + 20 }
{
    let mut buffer = Buffer::new();
    let digits = buffer.format(number).as_bytes();
    put(text, &[b' '; 10][digits.len().min(10)..]);
    put(text, digits);
}

/// Appends a space and a record, or 81 spaces if there is no record.
fn put_record(text: &mut ArrayVec<u8, ROOM>, line: Option<&Line>)
    requires room { array_vec_len text.old ≤ 412 }
    ensures items { text.new.items
        ≡ text.old.items ++ (spaces 1 ++ record_text (option_copied line.entry)) }
    ensures len { array_vec_len text.new ≡ array_vec_len text.old + 81 }
{
    put(text, b" ");
    match line {
        Some(line) => put(text, line.bytes()),
        None => put(text, &[b' '; 80]),
    }
}
