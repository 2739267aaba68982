//! Answers the words `--help` and `--version`, which ask about the program.
ghost use Rattle.std.specs.Prelude.{◌≡◌, ◌≢◌, ◌-◌, ◌^◌, ◌<◌, ◌++◌, ◌∷◌, IfSome, IsNone, codes};
ghost use Rattle.std.specs.List.{flat_map};
ghost use Rattle.docker_cmd.specs.Words.{texts};
ghost use Rattle.docker_host.specs.SessionHost.{FailedFew};
ghost use Rattle.docker_host.specs.Streams.{EndsWriting};
ghost use Rattle.docker_desk.specs.Requests.{row_meant, row_of};
ghost use Rattle.docker_desk.specs.Help.{AnswersQuestion, AsksAbout, leave_text, request_line, text_about, word_of};

use crate::answers::write_both;
use crate::ending::tell_failure;
use crate::requests::{RequestRow, Verb};
use cif_line::{Failed, Sink, Source};
use docker_cmd::{Fault, OfficeFault, TableWord};
use docker_host::{Folder, SessionHost, Streams};

/// The first line of the text that `--help` prints.
const HEAD: &[u8] = b"desk: usage: [--write] STATE, and then a line for each request:\n";

/// The text that `--version` prints.
const VERSION: &[u8] = b"desk: STATE has the format DKS2\n";

/// A question about the program. The program's only word asks it.
#[derive(Clone, Copy, PartialEq, Eq, Debug)]
pub enum Question {
    /// `--help`: which words a session has, and which requests.
    Help,
    /// `--version`: in which format a desk writes STATE.
    Version,
}

/// Returns the question that the words ask, or `None` if they ask none.
pub(crate) fn question_in(words: &[&str]) -> Option<Question>
    ensures { AsksAbout (texts words.now) result }
{
    match words {
        [word] => question_named(word),
        _ => None,
    }
}

/// Returns the question that a word asks, or `None` if it asks none.
fn question_named(word: &str) -> Option<Question>
    ensures some { IfSome result (λ question. word.now ≡ word_of question) }
    ensures none { IsNone result → (question : Question) → word.now ≢ word_of question }
{
    if word == "--help" {
        return Some(Question::Help);
    }
    if word == "--version" {
        return Some(Question::Version);
    }
    None
}

/// Prints the answer to a question on the output. Returns the exit status: 0, or 4 if the output
/// fails.
pub(crate) fn answer_question<S: Source, D: Folder, K: Sink, L: Sink>(
    question: Question,
    host: &mut SessionHost<S, D, K, L>,
) -> u8
    requires { FailedFew host.old }
    ensures { AnswersQuestion question host.old host.new result }
{
    match write_about(question, &mut host.streams) {
        Ok(()) => 0,
        Err(_) => tell_failure(&Fault::Office(OfficeFault::Sink), false, &mut host.faults),
    }
}

/// Writes the answer to a question.
fn write_about<S: Source, K: Sink>(
    question: Question,
    streams: &mut Streams<S, K>,
) -> Result<(), Failed>
    requires { streams.old.output_failures < 2 ^ 64 - 1 }
    ensures { EndsWriting result (text_about question) streams.old streams.new }
{
    match question {
        Question::Help => write_help(streams),
        Question::Version => streams.write_all(VERSION),
    }
}

/// Writes what `--help` prints.
fn write_help<S: Source, K: Sink>(streams: &mut Streams<S, K>) -> Result<(), Failed>
    requires { streams.old.output_failures < 2 ^ 64 - 1 }
    ensures { EndsWriting result (text_about Question.Help) streams.old streams.new }
{
    match streams.write_all(HEAD) {
        Ok(()) => write_requests(Verb::all(), streams),
        Err(failed) => Err(failed),
    }
}

/// Writes a line for each of these verbs.
fn write_requests<S: Source, K: Sink>(
    verbs: &[Verb],
    streams: &mut Streams<S, K>,
) -> Result<(), Failed>
    requires { streams.old.output_failures < 2 ^ 64 - 1 }
    ensures { EndsWriting result (flat_map (λ verb. request_line (row_of verb)) verbs.now)
        streams.old streams.new }
{
    for verb in verbs {
        match write_request(&verb.row(), streams) {
            Ok(()) => {}
            Err(failed) => return Err(failed),
        }
    }
    Ok(())
}

/// Writes the line that shows a request.
fn write_request<S: Source, K: Sink>(
    row: &RequestRow<'_>,
    streams: &mut Streams<S, K>,
) -> Result<(), Failed>
    requires { streams.old.output_failures < 2 ^ 64 - 1 }
    ensures { EndsWriting result (request_line (row_meant row.now)) streams.old streams.new }
{
    match write_both(leave(row.writes), row.name.as_bytes(), streams) {
        Ok(()) => write_rest(row.ids, streams),
        Err(failed) => Err(failed),
    }
}

/// Writes these words, each after a space, and then a line feed.
fn write_rest<S: Source, K: Sink>(words: &[&str], streams: &mut Streams<S, K>) -> Result<(), Failed>
    requires { streams.old.output_failures < 2 ^ 64 - 1 }
    ensures { EndsWriting result (flat_map (λ word. 32 ∷ word.now) words.now ++ codes "\n")
        streams.old streams.new }
{
    match write_words(words, streams) {
        Ok(()) => streams.write_all(b"\n"),
        Err(failed) => Err(failed),
    }
}

/// Writes these words, each after a space.
fn write_words<S: Source, K: Sink>(
    words: &[&str],
    streams: &mut Streams<S, K>,
) -> Result<(), Failed>
    requires { streams.old.output_failures < 2 ^ 64 - 1 }
    ensures { EndsWriting result (flat_map (λ word. 32 ∷ word.now) words.now)
        streams.old streams.new }
{
    for word in words {
        match write_both(b" ", word.as_bytes(), streams) {
            Ok(()) => {}
            Err(failed) => return Err(failed),
        }
    }
    Ok(())
}

/// Returns the words before a request that is allowed only if the desk may write.
fn leave<'a>(writes: bool) -> &'a [u8]
    ensures { result.now ≡ leave_text writes }
{
    if writes { b"with --write " } else { b"" }
}
