//! Reads the lines of a session and writes their answers.
ghost use Rattle.std.specs.Prelude.{◌≡◌, false, true, ◌+◌, ◌-◌, ◌^◌, ◌<◌, ◌≤◌, [], Some, Option};
ghost use Rattle.docker_desk.specs.Lines.{with_ahead};
ghost use Rattle.docker_desk.specs.Replies.{answer_meant, answer_bytes};
ghost use Rattle.docker_desk.specs.Answering.{AnswersLines, CountsNext, CountsStreams, LeavesNone, ServesNext, StopsAtEnd, TellsAnswer};
ghost use Rattle.docker_desk.specs.SessionViews.{point_of, setting_of};

use crate::ahead::Ahead;
use crate::answering::answer_line;
use crate::ending::Ending;
use crate::lines::{Asked, InputFault, next_line};
use crate::reply::{Answer, write_reply};
use crate::session::Session;
use crate::session_words::SessionWords;
use cif_line::{Sink, Source};
use docker_host::{Folder, Streams};

/// Answers the lines of an input in order, until the input ends or a device fails. Each answer is
/// complete in memory before its first byte is written, and is written before the next line is
/// read. After a cut line, nothing more is read.
pub fn serve_lines<S: Source, D: Folder, K: Sink>(
    words: &SessionWords<'_>,
    session: &mut Session<D::Seen>,
    streams: &mut Streams<S, K>,
    folder: &mut D,
) -> Ending
    requires input { streams.old.input_failures < 2 ^ 64 - 1 }
    requires none { D.failures folder.old ≡ 0 }
    requires output { streams.old.output_failures < 2 ^ 64 - 1 }
    ensures answers { AnswersLines (setting_of words.now D.names_bytes)
        (point_of D.look_of D.history D.failures session.old folder.old)
        (point_of D.look_of D.history D.failures session.new folder.new)
        streams.old.input streams.old.output streams.new.output
        [] streams.old.exchanges streams.new.exchanges result }
    ensures counted { CountsStreams result streams.old.input_failures streams.new.input_failures
        streams.old.output_failures streams.new.output_failures }
    ensures not_passed { streams.old.ended ≡ false
        → streams.new.passed ≡ streams.old.passed }
    ensures reported { streams.old.ended ≡ false → result ≡ Ending.Ended
        → streams.new.ended ≡ true }
    ensures left { result ≡ Ending.Ended → LeavesNone streams.old.input streams.new.input }
{
    let mut ahead = Ahead::new();
    for _ in 0..u64::MAX {
        let next = serve_next(words, &mut ahead, session, streams, folder);
        if let Some(ending) = next {
            return ending;
        }
    }
    Ending::InputEndless
}

/// Reads one line and writes its answer. Returns why the session ends, if the session ends at this
/// line. Bytes that were read beyond this line are kept in `ahead` for the next call. So each line
/// is answered even if the input never ends.
pub fn serve_next<S: Source, D: Folder, K: Sink>(
    words: &SessionWords<'_>,
    ahead: &mut Ahead,
    session: &mut Session<D::Seen>,
    streams: &mut Streams<S, K>,
    folder: &mut D,
) -> Option<Ending>
    requires input { streams.old.input_failures < 2 ^ 64 - 1 }
    requires few { D.failures folder.old < 2 ^ 64 - 1 }
    requires output { streams.old.output_failures < 2 ^ 64 - 1 }
    ensures serves { ServesNext (setting_of words.now D.names_bytes)
        (point_of D.look_of D.history D.failures session.old folder.old)
        (point_of D.look_of D.history D.failures session.new folder.new)
        ahead.old ahead.new streams.old streams.new result }
    ensures few { D.failures folder.new ≤ D.failures folder.old + 1 }
    ensures counted { CountsNext result streams.old.input_failures streams.new.input_failures
        streams.old.output_failures streams.new.output_failures }
    ensures stops { StopsAtEnd result streams.old.ended streams.new.ended
        streams.old.passed streams.new.passed }
    ensures left { result ≡ Some Ending.Ended
        → LeavesNone (with_ahead ahead.old streams.old.input) streams.new.input }
{
    match next_line(ahead, streams) {
        Ok(Asked::Line(line)) => {
            let answer = answer_line(words, line.as_slice(), session, folder);
            tell_answer(&answer, None, streams)
        }
        Ok(Asked::Bad) => tell_answer(&Answer::Usage, None, streams),
        Ok(Asked::Cut) => tell_answer(&Answer::Usage, Some(Ending::Ended), streams),
        Ok(Asked::End) => Some(Ending::Ended),
        Err(InputFault::Failed) => Some(Ending::InputFailed),
        Err(InputFault::Endless) => Some(Ending::InputEndless),
    }
}

/// Writes an answer. Returns `OutputFailed` if the write fails, and otherwise `next`.
fn tell_answer<S: Source, K: Sink>(
    answer: &Answer,
    next: Option<Ending>,
    streams: &mut Streams<S, K>,
) -> Option<Ending>
    requires { streams.old.output_failures < 2 ^ 64 - 1 }
    ensures { TellsAnswer (answer_bytes (answer_meant answer.now)) next
        streams.old streams.new result }
{
    match write_reply(answer, streams) {
        Ok(()) => next,
        Err(_) => Some(Ending::OutputFailed),
    }
}
