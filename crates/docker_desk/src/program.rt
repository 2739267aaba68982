//! Serves a whole session.
ghost use Rattle.std.specs.Prelude.{◌≡◌, ◌-◌, ◌<◌};
ghost use Rattle.docker_cmd.specs.Words.{texts};
ghost use Rattle.docker_host.specs.SessionHost.{FailedFew};
ghost use Rattle.docker_desk.specs.Serving.{Serves, ServesSession};

use crate::ending::{end_session, tell_failure};
use crate::help::{answer_question, question_in};
use crate::opening::open_session;
use crate::requests::usage;
use crate::serving::serve_lines;
use crate::session_words::session_words_in;
use cif_line::{Sink, Source};
use docker_cmd::Fault;
use docker_host::{Folder, SessionHost, tell_text};
use std::alloc::Global;
use std::mem;

/// Serves a session, or answers the question that the words ask about the program. Returns the exit
/// status.
///
/// The laws in `laws` say what the answers are in terms of the known files, and on which look each
/// draft is based.
pub fn serve<S: Source, D: Folder, K: Sink, L: Sink>(
    alloc: Global,
    words: &[&str],
    host: &mut SessionHost<S, D, K, L>,
) -> u8
    requires few { FailedFew host.old }
    requires none { host.old.folder_failures ≡ 0 }
    ensures { Serves (texts words.now) D.names_bytes host.old host.new result }
{
    if let Some(question) = question_in(words) {
        return answer_question(question, host);
    }
    serve_session(alloc, words, host)
}

/// Serves a session: reads the state in the file that the words name, writes an answer to the
/// output for each line of the input, and returns the exit status. The sink of faults gains a line
/// only if the session can't begin, a stream fails, or changes weren't saved.
fn serve_session<S: Source, D: Folder, K: Sink, L: Sink>(
    alloc: Global,
    words: &[&str],
    host: &mut SessionHost<S, D, K, L>,
) -> u8
    requires few { FailedFew host.old }
    requires none { host.old.folder_failures ≡ 0 }
    ensures { ServesSession (texts words.now) D.names_bytes host.old host.new result }
{
    let Some(named) = session_words_in(words) else {
        tell_text(usage(), &mut host.faults);
        return 2;
    };
    match open_session(alloc, named.name, &mut host.folder) {
        Ok(mut session) => {
            let ending = serve_lines(&named, &mut session, &mut host.streams, &mut host.folder);
            let unsaved = session.desk.is_unsaved();
            // The program ends here. The state isn't freed piece by piece, because the system takes
            // back all of the program's memory at once.
            mem::forget(session);
            end_session(ending, named.may_write & unsaved, &mut host.faults)
        }
        Err(fault) => tell_failure(&Fault::Office(fault), false, &mut host.faults),
    }
}
