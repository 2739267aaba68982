//! Rows with devices that transfer one byte per call. An office first uses a device that fails at
//! its first call, then a device that fails at its second call, and so on.
ghost use Rattle.std.specs.Prelude.{◌<◌, ◌^◌, ◌-◌};

use crate::answers::Answer;
use crate::asking::{ask, call_of};
use crate::desk::Desk;
use crate::spans::Spans;
use crate::tables::Asked;
use crate::texts::{MOST_BYTES, has_text, occasion_of, office_of, sink, source_of};
use cif_line::{Day, Fuse, Sink, Source, Tiploc};
use docker_cmd::{Fault, job_line};
use docker_office::{Office, OfficeFault};

/// A number that is greater than the number of device calls in any row.
const MOST_CALLS: u64 = 5000;

/// Runs a row with the arguments `CALL STATE TEXT STATE`. An office with the first state reads the
/// text from sources that fail at the first read, at the second read, and so on.
pub(crate) fn source(desk: &Desk, words: &[&str]) {
    let [call, own, name, wanted] = words else {
        return desk.trouble("CALL STATE TEXT STATE");
    };
    let (before, after, text) = (desk.text(own), desk.text(wanted), desk.text(name));
    let asked = Asked {
        call: call_of(call),
        before: before.as_slice(),
        after: after.as_slice(),
        limit: MOST_BYTES,
    };
    desk.begin();
    sources(desk, asked, text.as_slice());
}

/// Prints the answers for a source that fails at the first read, for one that fails at the second
/// read, and so on, up to a source that doesn't fail.
fn sources(desk: &Desk, asked: Asked<'_>, text: &[u8]) {
    let good = asked.answer_to(desk, text);
    let mut spans = Spans::new();
    for call in 1..=MOST_CALLS {
        let (answer, failed) = fused(desk, asked, text, call, good);
        spans.add(desk, call, answer);
        if !failed {
            break;
        }
    }
    spans.report(desk);
}

/// The answer of a request whose source fails at read number `call`, and whether the source did
/// fail. After a failure, the request is repeated with a good source.
fn fused(desk: &Desk, asked: Asked<'_>, text: &[u8], call: u64, good: Answer) -> (Answer, bool)
    requires { 0 < call }
{
    let mut office = office_of(desk, asked.before);
    let mut source = Fuse::new(source_of(text), call);
    let done = ask(asked.call, &mut office, &mut source, asked.limit);
    let answer = asked.judge(desk, &office, done);
    if source.failures() == 0 {
        return (answer, false);
    }
    let done = ask(asked.call, &mut office, &mut source_of(text), asked.limit);
    let again = asked.judge(desk, &office, done);
    (if again == good { answer } else { Answer::Stuck }, true)
}

/// What an office writes.
#[derive(Clone, Copy)]
enum Output {
    /// A docker.
    Docker(Tiploc, Day),
    /// The state of the office.
    State,
    /// The files of the office's ledger.
    Files,
}

/// Lets an office write a docker, its state or the list of its files.
fn write<K: Sink>(output: &Output, office: &Office, sink: &mut K) -> Result<(), OfficeFault>
    requires { K.failures sink.old < 2 ^ 64 - 1 }
{
    match output {
        Output::Docker(place, day) => office.print(place, *day, sink),
        Output::State => office.send(sink),
        Output::Files => office.files(sink),
    }
}

/// Runs a row with the arguments `STATE TIPLOC DATE DOCKER`. An office with the state prints the
/// docker to sinks that fail at the first write, at the second write, and so on.
pub(crate) fn print(desk: &Desk, words: &[&str]) {
    let [own, place, day, wanted] = words else {
        return desk.trouble("STATE TIPLOC DATE DOCKER");
    };
    if let Some((place, day)) = occasion_of(desk, place, day) {
        sinks(desk, own, Output::Docker(place, day), wanted);
    }
}

/// Runs a row with the argument `STATE`. An office sends the state to sinks that fail at the first
/// write, at the second write, and so on.
pub(crate) fn send(desk: &Desk, words: &[&str]) {
    let [own] = words else {
        return desk.trouble("STATE");
    };
    sinks(desk, own, Output::State, own);
}

/// Runs a row with the arguments `STATE FILES`. An office with the state writes the list of its
/// files to sinks that fail at the first write, at the second write, and so on.
pub(crate) fn files(desk: &Desk, words: &[&str]) {
    let [own, wanted] = words else {
        return desk.trouble("STATE FILES");
    };
    sinks(desk, own, Output::Files, wanted);
}

/// Lets an office write to sinks of which one fails at the first write, the next at the second
/// write, and so on. The last sink doesn't fail.
fn sinks(desk: &Desk, own: &str, output: Output, wanted: &str) {
    let (before, wanted) = (desk.text(own), desk.text(wanted));
    let office = office_of(desk, before.as_slice());
    desk.begin();
    write_all(desk, &office, output, before.as_slice(), wanted.as_slice());
}

/// Prints the answers for a sink that fails at the first write, for one that fails at the second
/// write, and so on. If the office's state changed, the answer is `Changed`.
fn write_all(desk: &Desk, office: &Office, output: Output, before: &[u8], wanted: &[u8]) {
    let mut spans = Spans::new();
    for call in 1..=MOST_CALLS {
        let (answer, failed) = written(desk, office, &output, wanted, call);
        let same = has_text(desk, office.state(), before);
        spans.add(desk, call, if same { answer } else { Answer::Changed });
        if !failed {
            break;
        }
    }
    spans.report(desk);
}

/// The answer for a sink that fails at this write, and whether the sink did fail. After a failure
/// the sink must have the bytes of the earlier writes, and a good sink must then receive the whole
/// text.
fn written(
    desk: &Desk,
    office: &Office,
    output: &Output,
    wanted: &[u8],
    call: u64,
) -> (Answer, bool)
    requires { 0 < call }
{
    let Some(kept) = sink(desk) else {
        return (Answer::Stuck, false);
    };
    let mut fuse = Fuse::new(kept, call);
    let done = write(output, office, &mut fuse);
    let answer = written_answer(done, fuse.device().bytes(), wanted, call);
    if fuse.failures() == 0 {
        return (answer, false);
    }
    let again = is_written(desk, office, output, wanted);
    (if again { answer } else { Answer::Stuck }, true)
}

/// The answer for a sink that has these bytes. If the sink failed, these bytes must be the bytes of
/// the earlier writes, and otherwise they must be the whole text.
fn written_answer(done: Result<(), OfficeFault>, bytes: &[u8], wanted: &[u8], call: u64) -> Answer {
    match done {
        Ok(()) => {
            if bytes == wanted {
                Answer::Done
            } else {
                Answer::Unlike
            }
        }
        Err(fault) => {
            if is_front(bytes, wanted, call) {
                Answer::Refused(Fault::Office(fault))
            } else {
                Answer::Unlike
            }
        }
    }
}

/// Whether a good sink has the whole text after the office writes to it.
fn is_written(desk: &Desk, office: &Office, output: &Output, wanted: &[u8]) -> bool {
    match sink(desk) {
        Some(mut good) => write(output, office, &mut good).is_ok() && good.bytes() == wanted,
        None => false,
    }
}

/// Whether these bytes are what a sink has after it fails at this call: one byte of the text for
/// each earlier call.
fn is_front(bytes: &[u8], wanted: &[u8], call: u64) -> bool {
    bytes.len() as u64 == call.saturating_sub(1) && wanted.starts_with(bytes)
}

/// Runs a row with the argument `LINE`. The call reads a job from sources that hold the line and
/// fail at the first read, at the second read, and so on.
pub(crate) fn line(desk: &Desk, words: &[&str]) {
    let [name] = words else {
        return desk.trouble("LINE");
    };
    let text = desk.text(name);
    desk.begin();
    let mut spans = Spans::new();
    for call in 1..=MOST_CALLS {
        let (answer, failed) = line_read(desk, text.as_slice(), call);
        spans.add(desk, call, answer);
        if !failed {
            break;
        }
    }
    spans.report(desk);
}

/// The answer for a source that holds the line and fails at this read, and whether the source did
/// fail. After a failure, the same call with a good source must return a job.
fn line_read(desk: &Desk, text: &[u8], call: u64) -> (Answer, bool)
    requires { 0 < call }
{
    let mut source = Fuse::new(source_of(text), call);
    let answer = match job_line(desk.alloc(), &mut source) {
        Ok(_) => Answer::Done,
        Err(fault) => Answer::Refused(Fault::Job(fault)),
    };
    if source.failures() == 0 {
        return (answer, false);
    }
    let again = job_line(desk.alloc(), &mut source_of(text)).is_ok();
    (if again { answer } else { Answer::Stuck }, true)
}
