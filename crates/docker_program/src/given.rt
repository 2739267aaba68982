//! Does the job of a program whose words were read, or couldn't be read.
ghost use Rattle.std.specs.Prelude.{◌≡◌, ◌<◌, IfSome, IsNone, length};
ghost use Rattle.docker_cmd.specs.Words.{texts};
ghost use Rattle.docker_host.specs.Host.{AreFew};
ghost use Rattle.docker_program.specs.Program.{Performs, PerformsGiven, word_bytes};

use crate::fault_report::tell;
use crate::program::perform;
use arrayvec::ArrayVec;
use cif_line::{Sink, Source};
use docker_cmd::{Fault, JobFault};
use docker_host::{Folder, Host};
use std::alloc::Global;

/// The most words that a job can have: its subcommand, and the words after it.
const MOST_WORDS: usize = 4;

/// Does the job that the words name once, and returns the exit status. If the words couldn't be
/// read, does nothing but report the fault.
pub fn perform_given<S: Source, D: Folder, K: Sink, L: Sink>(
    alloc: Global,
    given: Result<Vec<String>, JobFault>,
    host: &mut Host<S, D, K, L>,
) -> u8
    requires few { AreFew host.old }
    ensures { PerformsGiven given D.names_bytes host.old host.new result }
{
    match given {
        Ok(words) => perform_strings(alloc, words.as_slice(), host),
        Err(fault) => tell(&Fault::Job(fault), &mut host.faults),
    }
}

/// Does the job that the words name, and returns the exit status.
fn perform_strings<S: Source, D: Folder, K: Sink, L: Sink>(
    alloc: Global,
    words: &[String],
    host: &mut Host<S, D, K, L>,
) -> u8
    requires few { AreFew host.old }
    ensures { Performs (word_bytes words.now) D.names_bytes host.old host.new result }
{
    match borrowed(words) {
        Some(words) => perform(alloc, words.as_slice(), host),
        None => tell(&Fault::Job(JobFault::Usage), &mut host.faults),
    }
}

/// Returns the words as borrowed texts, or `None` if there are more words than a job can have.
fn borrowed(words: &[String]) -> Option<ArrayVec<&str, MOST_WORDS>>
    ensures words { IfSome result (λ list. texts list.items ≡ word_bytes words.now) }
    ensures many { IsNone result → 4 < length words.now }
{
    if words.len() > MOST_WORDS {
        return None;
    }
    let mut list = ArrayVec::from_array_in((), [""; MOST_WORDS]);
    list.clear();
    for word in words {
        list.push(word.as_str());
    }
    Some(list)
}
