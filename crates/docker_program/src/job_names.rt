//! Finds what the words of a job name: its sources, and the file that it writes.
ghost use Rattle.std.specs.Prelude.{◌≡◌, option_map};
ghost use Rattle.docker_program.specs.SourceNames.{file_and_word, file_or_input, first_word, names_meant, names_of, only_source, second_word, stored_by};

use crate::names::{STDIN, SourceNames};
use docker_cmd::{Job, OutputKind, Sources};

/// Returns the sources that the words of a job name.
pub(crate) fn names(job: &Job) -> SourceNames<'_>
    ensures { names_meant result ≡ names_of job.now }
{
    match job.task().reads() {
        Sources::NoSource => SourceNames::None,
        Sources::CheckedFile | Sources::TakenFile | Sources::OneState | Sources::OlderState => {
            only_source(job.task().writes(), first_word(job))
        }
        Sources::StateAndFile | Sources::TwoStates => {
            file_and_word(first_word(job), second_word(job))
        }
    }
}

/// Returns the name of the file that the job writes, or `None` if the job prints.
pub(crate) fn stored_name(job: &Job) -> Option<&str>
    ensures { option_map (λ name. name.now) result ≡ stored_by job.now }
{
    match job.task().writes() {
        OutputKind::State => Some(first_word(job)),
        OutputKind::Counts | OutputKind::Docker | OutputKind::Files => None,
    }
}

/// Returns the source of a job that has only one source, which `word` names. If the job writes a
/// state, the word is the name of STATE, and names a file even if it is `stdin`.
fn only_source(output: OutputKind, word: &str) -> SourceNames<'_>
    ensures { names_meant result ≡ only_source output word.now }
{
    match output {
        OutputKind::State => SourceNames::File(word),
        OutputKind::Counts | OutputKind::Docker | OutputKind::Files => file_or_input(word),
    }
}

/// Returns the source that a word names: standard input if the word is `stdin`, and otherwise a
/// file.
fn file_or_input(word: &str) -> SourceNames<'_>
    ensures { names_meant result ≡ file_or_input word.now }
{
    if word == STDIN {
        return SourceNames::Stdin;
    }
    SourceNames::File(word)
}

/// Returns two sources: the file with the first name, and whatever the second word names. `stdin`
/// as the second word names standard input.
fn file_and_word<'a>(name: &'a str, word: &'a str) -> SourceNames<'a>
    ensures { names_meant result ≡ file_and_word name.now word.now }
{
    if word == STDIN {
        return SourceNames::FileAndStdin(name);
    }
    SourceNames::Files(name, word)
}

/// Returns the first word after the subcommand.
fn first_word(job: &Job) -> &str
    ensures { result.now ≡ first_word job.now.words }
{
    match job.words() {
        [word, ..] => word.as_str(),
        [] => "",
    }
}

/// Returns the second word after the subcommand.
fn second_word(job: &Job) -> &str
    ensures { result.now ≡ second_word job.now.words }
{
    match job.words() {
        [_, word, ..] => word.as_str(),
        _ => "",
    }
}
