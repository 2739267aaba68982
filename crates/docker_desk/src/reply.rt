//! The answers of a desk.
ghost use Rattle.std.specs.Prelude.{◌-◌, ◌^◌, ◌<◌};
ghost use Rattle.docker_host.specs.Streams.{EndsWriting};
ghost use Rattle.docker_desk.specs.Answers.{answer_text};
ghost use Rattle.docker_cmd.specs.FaultLine.{fault_line, status_of};
ghost use Rattle.docker_cmd.specs.declared.fault.Fault.TheVariants as why;
ghost use Rattle.docker_desk.specs.Replies.{answer_meant, answer_bytes};

use crate::answers::write_answer;
use crate::page::Page;
use crate::requests::usage;
use cif_line::{Failed, Sink, Source};
use docker_cmd::{Fault, OfficeFault, fault_text, status};
use docker_host::Streams;

/// The answer to one line.
#[derive(Debug, Drop)]
pub enum Answer {
    /// The request succeeded, and the answer has this text.
    Text(Page),
    /// The request succeeded, and the answer has no text.
    Done,
    /// The request was refused for this fault, and changed nothing.
    Refused(OfficeFault),
    /// The line isn't a request.
    Usage,
}

/// Writes an answer: its header and then its text. The text is the requested text, the line that
/// reports the fault, or the usage line. If a write fails, the output has gained a proper prefix of
/// the answer.
pub fn write_reply<S: Source, K: Sink>(
    answer: &Answer,
    streams: &mut Streams<S, K>,
) -> Result<(), Failed>
    requires { streams.old.output_failures < 2 ^ 64 - 1 }
    ensures { EndsWriting result (answer_bytes (answer_meant answer.now))
        streams.old streams.new }
{
    match answer {
        Answer::Text(page) => write_answer(0, page.text(), streams),
        Answer::Done => write_answer(0, b"", streams),
        Answer::Refused(fault) => write_refusal(fault, streams),
        Answer::Usage => write_answer(2, usage(), streams),
    }
}

/// Writes the answer to a refused request.
fn write_refusal<S: Source, K: Sink>(
    fault: &OfficeFault,
    streams: &mut Streams<S, K>,
) -> Result<(), Failed>
    requires { streams.old.output_failures < 2 ^ 64 - 1 }
    ensures { EndsWriting result
        (answer_text (status_of (why.Office fault.now)) (fault_line (why.Office fault.now)))
        streams.old streams.new }
{
    let fault = Fault::Office(*fault);
    let line = fault_text(&fault);
    write_answer(status(&fault), line.as_slice(), streams)
}
