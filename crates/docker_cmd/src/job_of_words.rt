//! Finds the job that the words name.
ghost use Rattle.std.specs.Prelude.{◌≡◌, ◌≢◌, ◌↔◌, IfOk, false, Err, map, string_bytes};
ghost use Rattle.docker_cmd.specs.Job.{AskNothing, IsJobOf, NameNoJob};
ghost use Rattle.docker_cmd.specs.Words.{texts};

use crate::job_fault::JobFault;
use crate::jobs::Job;
use crate::named::word_named;
use crate::tasks::Subcommand;
use crate::words::{are_plain, read_words};
use std::alloc::{AllocError, Global};

/// Returns the job that the words name. Fails with `Usage` if the words name no job. Fails with
/// `Memory` only if the words name a job.
pub fn job(alloc: Global, words: &[&str]) -> Result<Job, JobFault>
    ensures job { IfOk result (λ job. IsJobOf (texts words.now) job) }
    ensures usage { (result ≡ Err JobFault.Usage) ↔ NameNoJob (texts words.now) }
    ensures source { result ≢ Err JobFault.Source }
{
    match found_job(alloc, words) {
        Ok(job) => Ok(job),
        Err(JobFault::Memory) if names_job(words) => Err(JobFault::Memory),
        Err(_) => Err(JobFault::Usage),
    }
}

/// Returns the job that `clap` finds in the words. May fail with `Memory`, whether or not the words
/// name a job.
fn found_job(alloc: Global, words: &[&str]) -> Result<Job, JobFault>
    ensures job { IfOk result (λ job. IsJobOf (texts words.now) job) }
    ensures usage { (result ≡ Err JobFault.Usage) → NameNoJob (texts words.now) }
    ensures source { result ≢ Err JobFault.Source }
{
    let (subcommand, words) = read_words(alloc, words)?;
    match subcommand.task(words.as_slice()) {
        Some(task) => Ok(Job::new(task, owned_words(alloc, words.as_slice())?)),
        None => Err(JobFault::Usage),
    }
}

/// Whether the words name a job. Allocates nothing.
fn names_job(words: &[&str]) -> bool
    ensures { (result ≡ false) ↔ NameNoJob (texts words.now) }
{
    let [name, behind @ ..] = words else {
        return false;
    };
    match word_named(name) {
        Some(subcommand) => are_plain(words) && asks(subcommand, behind),
        None => false,
    }
}

/// Whether the words name a task of this subcommand.
fn asks(subcommand: Subcommand, words: &[&str]) -> bool
    ensures { (result ≡ false) ↔ AskNothing subcommand (texts words.now) }
{
    if words.len() != subcommand.ids().len() {
        return false;
    }
    subcommand.task(words).is_some()
}

/// Returns copies of the words, which the job can own.
fn owned_words(alloc: Global, words: &[&str]) -> Result<Vec<String>, AllocError>
    ensures { IfOk result (λ owned. map (λ word. string_bytes word) owned.items ≡ texts words.now) }
{
    let mut owned = Vec::with_capacity(alloc, words.len())?;
    for word in words {
        owned.push(String::from_str(alloc, word)?)?;
    }
    Ok(owned)
}
