//! Calls that allocate memory while they read or carry out a job.

use crate::desk::Desk;
use crate::endings::ending_of;
use crate::texts::{sink, source_of};
use cif_line::Sink;
use docker_cmd::{Fault, Job, JobFault, Prepared, TableWord, emit, job, job_line, prepare, status};
use docker_office::OfficeFault;

/// Whether two words are equal.
fn are_same(one: &str, other: &str) -> bool {
    one == other
}

/// Whether a job has these words. The first word is the subcommand's name.
fn is_of(job: &Job, words: &[&str]) -> bool {
    let Some((first, rest)) = words.split_first() else {
        return false;
    };
    let own = job.words();
    if own.len() != rest.len() {
        return false;
    }
    for (one, other) in own.iter().zip(rest) {
        if !are_same(one.as_str(), other) {
            return false;
        }
    }
    are_same(first, job.subcommand().name())
}

/// Prints whether the status of a fault is 3, which means that memory ran out.
fn report_status(desk: &Desk, fault: Fault) {
    desk.report(status(&fault) == 3, "status 3");
}

/// Prints whether a job has these words.
fn report_job(desk: &Desk, named: Result<Job, JobFault>, words: &[&str]) {
    match named {
        Ok(job) => desk.report(is_of(&job, words), "the job of these words"),
        Err(_) => desk.trouble("refused again"),
    }
}

/// Runs a row whose arguments are the words of a job. The call reads the words as a job.
pub(crate) fn words_of_job(desk: &Desk, words: &[&str]) {
    desk.begin();
    let named = job(desk.alloc(), words);
    desk.end(ending_of(&named));
    match named {
        Ok(_) => report_job(desk, named, words),
        Err(fault) => {
            report_status(desk, Fault::Job(fault));
            report_job(desk, job(desk.alloc(), words), words);
        }
    }
}

/// The line that consists of these words, or `None` if memory runs out.
fn line_of(desk: &Desk, words: &[&str]) -> Option<Vec<u8>> {
    let mut line = Vec::new(desk.alloc());
    for word in words {
        if !line.is_empty() {
            line.push(b' ').ok()?;
        }
        line.extend_from_slice(word.as_bytes()).ok()?;
    }
    line.push(b'\n').ok()?;
    Some(line)
}

/// Runs a row whose arguments are the words of a job. The call reads a line of these words as a
/// job.
pub(crate) fn line_of_job(desk: &Desk, words: &[&str]) {
    match line_of(desk, words) {
        Some(line) => job_of_line(desk, line.as_slice(), words),
        None => desk.trouble("want of memory"),
    }
}

/// Reads a line as a job, and prints whether the job has these words.
fn job_of_line(desk: &Desk, line: &[u8], words: &[&str]) {
    desk.begin();
    let named = job_line(desk.alloc(), &mut source_of(line));
    desk.end(ending_of(&named));
    match named {
        Ok(_) => report_job(desk, named, words),
        Err(fault) => {
            report_status(desk, Fault::Job(fault));
            report_job(desk, job_line(desk.alloc(), &mut source_of(line)), words);
        }
    }
}

/// What a job prepares after it has read two texts.
fn prepared<'a>(
    desk: &Desk,
    job: &'a Job,
    first: &[u8],
    second: &[u8],
) -> Result<Prepared<'a>, OfficeFault> {
    prepare(
        desk.alloc(),
        job,
        &mut source_of(first),
        &mut source_of(second),
    )
}

/// Writes what a job has prepared, and prints whether the written text is the text named `wanted`.
/// Returns the fault if the call is refused and nothing is written.
fn has_written(
    desk: &Desk,
    prepared: &Prepared<'_>,
    wanted: &str,
    is_first: bool,
) -> Option<OfficeFault> {
    let mut kept = sink(desk)?;
    if is_first {
        desk.begin();
    }
    let done = emit(prepared, &mut kept);
    if is_first {
        desk.end(ending_of(&done));
    }
    if let Err(fault) = done {
        if kept.bytes().is_empty() && kept.failures() == 0 {
            return Some(fault);
        }
    }
    desk.report(done.is_ok() && desk.is_text(kept.bytes(), wanted), wanted);
    None
}

/// Writes what a job has prepared. Memory no longer runs out at this point, so the call must not be
/// refused.
fn write_again(desk: &Desk, prepared: &Prepared<'_>, wanted: &str) {
    if has_written(desk, prepared, wanted, false).is_some() {
        desk.trouble("refused again");
    }
}

/// The job with these words. Prints a line if the words aren't a job.
fn job_of(desk: &Desk, words: &[&str]) -> Option<Job> {
    match job(desk.alloc(), words) {
        Ok(named) => Some(named),
        Err(_) => {
            desk.trouble("no job");
            None
        }
    }
}

/// Runs a row with the arguments `FIRST SECOND TEXT WORDS`. The job with these words reads the
/// first two texts, and must then write the third text.
pub(crate) fn read_for_job(desk: &Desk, words: &[&str]) {
    let [first, second, wanted, words @ ..] = words else {
        return desk.trouble("FIRST SECOND TEXT WORDS");
    };
    let (one, other) = (desk.text(first), desk.text(second));
    if let Some(named) = job_of(desk, words) {
        read_texts(
            desk,
            &named,
            [one.as_slice(), other.as_slice()],
            wanted,
            words,
        );
    }
}

/// Lets a job read two texts.
fn read_texts(desk: &Desk, named: &Job, texts: [&[u8]; 2], wanted: &str, words: &[&str]) {
    let [one, other] = texts;
    desk.begin();
    let first = prepared(desk, named, one, other);
    desk.end(ending_of(&first));
    match first {
        Ok(read) => write_again(desk, &read, wanted),
        Err(fault) => {
            report_status(desk, Fault::Office(fault));
            desk.report(is_of(named, words), "the job of these words");
            match prepared(desk, named, one, other) {
                Ok(read) => write_again(desk, &read, wanted),
                Err(_) => desk.trouble("refused again"),
            }
        }
    }
}

/// Runs a row with the arguments `FIRST SECOND TEXT WORDS`. The job with these words has read the
/// first two texts, and must write the third text.
pub(crate) fn write_for_job(desk: &Desk, words: &[&str]) {
    let [first, second, wanted, words @ ..] = words else {
        return desk.trouble("FIRST SECOND TEXT WORDS");
    };
    let (one, other) = (desk.text(first), desk.text(second));
    if let Some(named) = job_of(desk, words) {
        match prepared(desk, &named, one.as_slice(), other.as_slice()) {
            Ok(read) => write_prepared(desk, &read, wanted),
            Err(_) => desk.trouble("a source is refused"),
        }
    }
}

/// Lets a job write what it has prepared. If memory runs out, the job writes a second time.
fn write_prepared(desk: &Desk, prepared: &Prepared<'_>, wanted: &str) {
    if let Some(fault) = has_written(desk, prepared, wanted, true) {
        report_status(desk, Fault::Office(fault));
        desk.report(true, "nothing is written");
        write_again(desk, prepared, wanted);
    }
}
