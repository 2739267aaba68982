//! The text of a docker: a heading, the docker's lines and a last line. Each line of the text has
//! 56 columns and a line feed.
ghost use Rattle.std.specs.Prelude.{◌≡◌, ℕ, List, ◌-◌, ◌^◌, ◌<◌, IsErr, OnOk, OnErr};
ghost use Rattle.std.specs.List.{flat_map};
ghost use Rattle.cif_device.specs.Device.{CountsFailure, Takes, TakesPart};
ghost use Rattle.docker_model.specs.state.Table.{Table};
ghost use Rattle.docker_model.specs.docker.DockerText.{IsDockerText, detail_text, line_text, last_line, ended};
ghost use Rattle.docker_day.specs.Details.{detail_meant};
ghost use Rattle.docker_day.specs.DockerValue.{head, text_of};
ghost use Rattle.docker_day.specs.Dockers.{IsDockerOf};

use crate::detail::Detail;
use crate::docker_line::DockerLine;
use crate::docker_list::Docker;
use arrayvec::ArrayVec;
use cif_line::{Day, Failed, Sink, Tiploc, write_all};
use fixed_text::{put, whole};

/// How many bytes a line has: 56 columns and a line feed.
const WIDTH: usize = 57;

/// Writes a docker to a sink. If a write fails, the sink has gained only a proper prefix of the
/// docker's text.
pub fn write_docker<K: Sink>(docker: &Docker<'_>, sink: &mut K) -> Result<(), Failed>
    requires { K.failures sink.old < 2 ^ 64 - 1 }
    ensures whole { OnOk result (Takes (K.taken sink.old) (text_of docker.now) (K.taken sink.new)) }
    ensures text { (live : Table) (place : List ℕ) (day : ℕ) → IsDockerOf live place day docker.now
        → IsDockerText live place day (text_of docker.now) }
    ensures part { OnErr result
        (TakesPart (K.taken sink.old) (text_of docker.now) (K.taken sink.new)) }
    ensures failures { CountsFailure (IsErr result) (K.failures sink.old) (K.failures sink.new) }
{
    let heading = heading(&docker.place(), docker.day(), docker.description());
    write_all(sink, &heading)?;
    write_lines(sink, docker.lines())?;
    write_all(sink, &last_line())
}

/// Writes docker lines, each with a line feed.
fn write_lines<K: Sink>(sink: &mut K, lines: &[DockerLine<'_>]) -> Result<(), Failed>
    requires { K.failures sink.old < 2 ^ 64 - 1 }
    ensures whole { OnOk result
        (Takes (K.taken sink.old) (flat_map (λ line. ended (line_text line)) lines.now)
        (K.taken sink.new)) }
    ensures part { OnErr result
        (TakesPart (K.taken sink.old) (flat_map (λ line. ended (line_text line)) lines.now)
        (K.taken sink.new)) }
    ensures failures { CountsFailure (IsErr result) (K.failures sink.old) (K.failures sink.new) }
{
    for line in lines {
        write_all(sink, &text_of_line(line))?;
    }
    Ok(())
}

/// The text of the heading, with a line feed.
#[tactic(auto, unfolding(crate::specs::DockerValue::head))]
pub fn heading(place: &Tiploc, day: Day, description: &[u8; 26]) -> [u8; WIDTH]
    ensures { result ≡ ended (head place.now day description.now) }
{
    let mut text = ArrayVec::new();
    put(&mut text, b"DOCKER ");
    put(&mut text, place.bytes());
    put(&mut text, b" ");
    put(&mut text, &day.iso());
    put(&mut text, b" ");
    put(&mut text, description);
    put(&mut text, b"    ");
    put(&mut text, b"\n");
    whole(text)
}

/// The text of the last line, with a line feed.
pub fn last_line() -> [u8; WIDTH]
    ensures { result ≡ ended last_line }
{
    let mut text = ArrayVec::new();
    put(&mut text, b"END");
    put(&mut text, &[b' '; 53]);
    put(&mut text, b"\n");
    whole(text)
}

/// The text of a docker line, with a line feed.
pub fn text_of_line(line: &DockerLine<'_>) -> [u8; WIDTH]
    ensures { result ≡ ended (line_text line.now) }
{
    let mut text = ArrayVec::new();
    put(&mut text, &line.time().text());
    put(&mut text, b" ");
    put(&mut text, &[line.occasion().letter()]);
    put(&mut text, b" ");
    put(&mut text, line.identity());
    put(&mut text, b" ");
    put(&mut text, line.uid().bytes());
    put(&mut text, b" ");
    put(&mut text, &[line.stp().letter(), b' ']);
    put(&mut text, &[line.suffix(), b' ']);
    put(&mut text, line.platform());
    put(&mut text, b" ");
    put(&mut text, line.track());
    put(&mut text, b" ");
    put(&mut text, line.path());
    put(&mut text, b" ");
    put(&mut text, line.public_time());
    put(&mut text, b" ");
    put(&mut text, &text_of_detail(&line.detail()));
    put(&mut text, b"\n");
    whole(text)
}

/// The last 15 columns of a docker line.
fn text_of_detail(detail: &Detail) -> [u8; 15]
    ensures { result ≡ detail_text (detail_meant detail.now) }
{
    let mut text = ArrayVec::new();
    match detail {
        Detail::Ends {
            origin,
            destination,
        } => {
            put(&mut text, origin);
            put(&mut text, b" ");
            put(&mut text, destination);
        }
        Detail::Partner { uid, identity } => {
            put(&mut text, uid.bytes());
            put(&mut text, b"  ");
            put(&mut text, identity);
            put(&mut text, b"   ");
        }
    }
    whole(text)
}
