//! Serves a session with the words that the system gives the program, whether they could be read or
//! not.
ghost use Rattle.std.specs.Prelude.{◌≡◌, ◌<◌, IfSome, IsNone, length};
ghost use Rattle.docker_cmd.specs.Words.{texts};
ghost use Rattle.docker_host.specs.SessionHost.{FailedFew};
ghost use Rattle.docker_desk.specs.Serving.{Serves, ServesGiven, word_bytes};

use crate::ending::tell_failure;
use crate::program::serve;
use crate::requests::usage;
use arrayvec::ArrayVec;
use cif_line::{Sink, Source};
use docker_cmd::{Fault, JobFault};
use docker_host::{Folder, SessionHost, tell_text};
use std::alloc::Global;

/// The most words that a session can have: `--write`, and the name of the state's file.
const MOST_WORDS: usize = 2;

/// Serves one session with these words, or answers the question that they ask, and returns the exit
/// status. If a word isn't valid UTF-8, serves a session without words, which ends with the usage
/// line. If there was no memory for the words, only reports that.
pub fn serve_given<S: Source, D: Folder, K: Sink, L: Sink>(
    alloc: Global,
    given: Result<Vec<String>, JobFault>,
    host: &mut SessionHost<S, D, K, L>,
) -> u8
    requires few { FailedFew host.old }
    requires none { host.old.folder_failures ≡ 0 }
    ensures { ServesGiven given D.names_bytes host.old host.new result }
{
    match given {
        Ok(words) => serve_strings(alloc, words.as_slice(), host),
        Err(JobFault::Usage) => serve(alloc, &[], host),
        Err(fault) => tell_failure(&Fault::Job(fault), false, &mut host.faults),
    }
}

/// Serves one session with these words, or answers the question that they ask.
fn serve_strings<S: Source, D: Folder, K: Sink, L: Sink>(
    alloc: Global,
    words: &[String],
    host: &mut SessionHost<S, D, K, L>,
) -> u8
    requires few { FailedFew host.old }
    requires none { host.old.folder_failures ≡ 0 }
    ensures { Serves (word_bytes words.now) D.names_bytes host.old host.new result }
{
    match borrowed(words) {
        Some(words) => serve(alloc, words.as_slice(), host),
        None => {
            tell_text(usage(), &mut host.faults);
            2
        }
    }
}

/// Returns the words as borrowed texts, or `None` if there are more words than a session can have.
fn borrowed(words: &[String]) -> Option<ArrayVec<&str, MOST_WORDS>>
    ensures words { IfSome result (λ list. texts list.items ≡ word_bytes words.now) }
    ensures many { IsNone result → 2 < length words.now }
{
    if words.len() > MOST_WORDS {
        return None;
    }
    let mut list = ArrayVec::from_array_in((), [""; MOST_WORDS]);
    list.clear();
    for word in words {
        list.push(word.as_str());
    }
    Some(list)
}
