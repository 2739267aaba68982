//! Finds the subcommand that the words name, and the words after it.
ghost use Rattle.std.specs.Prelude.{◌≡◌, ◌≢◌, ◌≤◌, IfOk, Err, length, map, option_map};
ghost use Rattle.std.specs.List.{list_all};
ghost use Rattle.clap.specs.Words.{first_of, found_of, rows_of, subcommand_rows_of};
ghost use Rattle.docker_cmd.specs.Grammar.{found_words, found_in, pair_of};
ghost use Rattle.docker_cmd.specs.Job.{NamesSubcommand, NameNoSubcommand};
ghost use Rattle.docker_cmd.specs.Words.{is_plain_word, texts};

use crate::grammar::matches;
use crate::job_fault::JobFault;
use crate::named::{is_plain, word_named};
use crate::tasks::Subcommand;
use arrayvec::ArrayVec;
use clap::ArgMatches;
use clap::error::ErrorKind;
use std::alloc::Global;

/// The most words that a subcommand can require.
const MOST_WORDS: usize = 3;

/// The words after a subcommand.
pub(crate) type Behind<'a> = ArrayVec<&'a str, MOST_WORDS>;

/// Whether every word is allowed on the command line: none is empty or begins with a hyphen.
pub(crate) fn are_plain(words: &[&str]) -> bool
    ensures { result ≡ list_all (λ word. is_plain_word word.now) words.now }
{
    words.iter().all(|word| is_plain(word))
}

/// Returns the subcommand that the words name, and the words after it. A word that is empty or
/// begins with a hyphen is a usage error: there are no options, and `help` isn't a subcommand. The
/// call may fail with `Memory` even if the words name no subcommand.
pub(crate) fn read_words<'a>(
    alloc: Global,
    words: &'a [&'a str],
) -> Result<(Subcommand, Behind<'a>), JobFault>
    ensures named { IfOk result (λ read. NamesSubcommand (texts words.now) read.0
        (texts read.1.items)) }
    ensures usage { (result ≡ Err JobFault.Usage) → NameNoSubcommand (texts words.now) }
    ensures source { result ≢ Err JobFault.Source }
{
    if !are_plain(words) {
        return Err(JobFault::Usage);
    }
    match matches(alloc, words) {
        Ok(found) => found_subcommand(&found).ok_or(JobFault::Usage),
        Err(error) => Err(fault_at(error.kind())),
    }
}

/// Returns the fault for an error of this kind from `clap`.
fn fault_at(kind: ErrorKind) -> JobFault
    ensures usage { (result ≡ JobFault.Usage) → kind ≢ ErrorKind.OutOfMemory }
    ensures source { result ≢ JobFault.Source }
{
    match kind {
        ErrorKind::OutOfMemory => JobFault::Memory,
        _ => JobFault::Usage,
    }
}

/// Returns the subcommand that `clap` found, and the words after it.
fn found_subcommand<'a>(found: &ArgMatches<'a>) -> Option<(Subcommand, Behind<'a>)>
    ensures { option_map (λ read. pair_of read.0 (texts read.1.items)) result
        ≡ found_in (subcommand_rows_of found.now) }
{
    let (name, words) = found.subcommand()?;
    let subcommand: Subcommand = word_named(name)?;
    let words = words_at(words, subcommand.ids())?;
    Some((subcommand, words))
}

/// Returns the words that `clap` found for these arguments, or `None` if one of them has no word.
fn words_at<'a>(words: &ArgMatches<'a>, ids: &[&str]) -> Option<Behind<'a>>
    requires { length ids.now ≤ 3 }
    ensures { option_map (λ found. texts found.items) result
        ≡ found_words (map (λ id. id.now) ids.now) (rows_of (found_of words.now)) }
{
    let mut found: Behind<'a> = ArrayVec::from_array_in((), [""; MOST_WORDS]);
    found.clear();
    for id in ids {
        found.push(word_at(words, id)?);
    }
    Some(found)
}

/// Returns the word that `clap` found for this argument.
fn word_at<'a>(words: &ArgMatches<'a>, id: &str) -> Option<&'a str>
    ensures { option_map (λ word. word.now) result
        ≡ first_of id.now (rows_of (found_of words.now)) }
{
    words.get_str(id)
}
