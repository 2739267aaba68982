//! Reads the job line. A program that is started without words reads its words from the first line
//! of its standard input.
ghost use Rattle.std.specs.Prelude.{◌≡◌, ◌+◌, ◌*◌, ◌-◌, ◌^◌, ◌<◌, ◌≤◌, ◌↔◌, ◌≢◌, ◌++◌, length, Some, IfOk, IsErr, IsSome, OnErr, OnOk, Err, MatchOption, IfSome};
ghost use Rattle.std.specs.List.{position_or_len, before_first, after_first};
ghost use Rattle.cif_device.specs.Device.{IsNotPassed};
ghost use Rattle.cif_device.specs.Device.{CountsFailure};
ghost use Rattle.docker_cmd.specs.Job.{IsJobOf, NameNoJob};
ghost use Rattle.arrayvec.specs.ArrayVec.{array_vec_len};
ghost use Rattle.docker_cmd.specs.JobLine.{HasJob, HasNoJob, HasNoLine, IsLineText, ReadsAtMost, ReadsByte, ReadsJob, ReadsLine, is_space, word_or_none, words_in};
ghost use Rattle.docker_cmd.specs.Words.{texts};

use crate::job_fault::JobFault;
use crate::job_of_words::job;
use crate::jobs::Job;
use arrayvec::ArrayVec;
use cif_line::{Source, is_printable};
use std::alloc::Global;
use std::str;

/// The most bytes that a job line may have, not counting its line feed.
const LONGEST: usize = 255;

/// A job line without its line feed.
type JobLine = ArrayVec<u8, LONGEST>;

/// The most words that a job line can have. A line of 255 bytes has 128 words if each word is one
/// byte long and single spaces separate the words.
const MOST_WORDS: usize = 128;

/// The words of a job line.
type LineWords<'a> = ArrayVec<&'a str, MOST_WORDS>;

/// Returns the job that the first line of a source names. On success the source is left just after
/// the line feed. Fails with `Usage` if the source doesn't begin with a job line, or if the line
/// names no job. Fails with `Memory` only if the line names a job. Reads at most 256 bytes, and
/// nothing after the source has reported its end. On success the source hasn't reported its end, so
/// the caller may read on.
pub fn job_line<S: Source>(alloc: Global, source: &mut S) -> Result<Job, JobFault>
    requires { S.failures source.old < 2 ^ 64 - 1 }
    ensures job { IfOk result (λ job. ReadsJob (S.left source.old) job (S.left source.new)) }
    ensures usage { (result ≡ Err JobFault.Usage) → HasNoJob (S.left source.old) }
    ensures memory { (result ≡ Err JobFault.Memory) → HasJob (S.left source.old) }
    ensures few { ReadsAtMost 256 (S.left source.old) (S.left source.new) }
    ensures failures { CountsFailure (result ≡ Err JobFault.Source)
        (S.failures source.old) (S.failures source.new) }
    ensures not_passed { IsNotPassed (S.ended source.old)
        (S.passed source.old) (S.passed source.new) }
    ensures not_ended { OnOk result (S.ended source.new ≡ S.ended source.old) }
{
    let line = read_line(source)?;
    job_of_line(alloc, line.as_slice())
}

/// Returns the job that a job line names.
fn job_of_line(alloc: Global, line: &[u8]) -> Result<Job, JobFault>
    requires { IsLineText line.now }
    ensures job { IfOk result (λ job. IsJobOf (words_in line.now) job) }
    ensures usage { (result ≡ Err JobFault.Usage) ↔ NameNoJob (words_in line.now) }
    ensures source { result ≢ Err JobFault.Source }
{
    let text = text_of(line);
    let words = words_in(text);
    job(alloc, words.as_slice())
}

/// Returns a job line as text. All its bytes are printable, so it is valid UTF-8.
pub fn text_of(line: &[u8]) -> &str
    requires { IsLineText line.now }
    ensures { result.now ≡ line.now }
{
    match str::from_utf8(line) {
        Ok(text) => text,
        Err(_) => unreachable!(),
    }
}

/// Reads one byte. Returns `None` at the end of the source.
fn read_byte<S: Source>(source: &mut S) -> Result<Option<u8>, JobFault>
    requires { S.failures source.old < 2 ^ 64 - 1 }
    ensures byte { IfOk result (λ byte. ReadsByte (S.left source.old) byte (S.left source.new)) }
    ensures failures { CountsFailure (IsErr result) (S.failures source.old)
        (S.failures source.new) }
    ensures unmoved { OnErr result (S.left source.new ≡ S.left source.old) }
    ensures fault { OnErr result (result ≡ Err JobFault.Source) }
    ensures not_passed { IsNotPassed (S.ended source.old)
        (S.passed source.old) (S.passed source.new) }
    ensures not_ended { IfOk result (λ byte.
        IsSome byte → S.ended source.new ≡ S.ended source.old) }
{
    let mut byte = [0];
    match source.read(&mut byte) {
        Ok(0) => Ok(None),
        Ok(_) => Ok(Some(byte[0])),
        Err(_) => Err(JobFault::Source),
    }
}

/// Returns the text before the first space and the text after it, or `None` if there is no space.
pub fn split_at_space(text: &str) -> Option<(&str, &str)>
    ensures pieces { MatchOption result (position_or_len is_space text.now
        ≡ length text.now) (λ parts.
        (parts.0.now ≡ before_first is_space text.now)
        × (parts.1.now ≡ after_first is_space text.now)
        × (position_or_len is_space text.now < length text.now)) }
    ensures lengths { IfSome result (λ parts.
        length parts.0.now + 1 + length parts.1.now ≡ length text.now) }
{
    text.split_once(' ')
}

/// Appends a piece of a line to the words, unless the piece is empty.
fn push_word<'a>(words: &mut LineWords<'a>, piece: &'a str)
    requires { 0 < length piece.now → array_vec_len words.old < 128 }
    ensures word { texts words.new.items ≡ texts words.old.items ++ word_or_none piece.now }
    ensures len { 2 * array_vec_len words.new
        ≤ 2 * array_vec_len words.old + length piece.now + 1 }
{
    if !piece.is_empty() {
        words.push(piece);
    }
}

/// Returns the words of a line: the pieces between its spaces, without the empty ones.
#[tactic(auto, using(crate::proofs::LineWords::words_at_space, crate::proofs::LineWords::words_without_space))]
fn words_in(line: &str) -> LineWords<'_>
    requires { length line.now ≤ 255 }
    ensures { texts result.items ≡ words_in line.now }
{
    let mut words: LineWords<'_> = ArrayVec::from_array_in((), [""; MOST_WORDS]);
    words.clear();
    let mut rest = line;
    while let Some((word, behind)) = split_at_space(rest) {
        push_word(&mut words, word);
        rest = behind;
    }
    push_word(&mut words, rest);
    words
}

/// Reads the first line of a source, and leaves the source just after the line feed. Fails with
/// `Usage` if the line is too long, has a byte that isn't printable, or has no line feed.
fn read_line<S: Source>(source: &mut S) -> Result<JobLine, JobFault>
    requires { S.failures source.old < 2 ^ 64 - 1 }
    ensures line { IfOk result (λ line. ReadsLine (S.left source.old) line.items
        (S.left source.new)) }
    ensures usage { (result ≡ Err JobFault.Usage) → HasNoLine (S.left source.old) }
    ensures memory { result ≢ Err JobFault.Memory }
    ensures few { ReadsAtMost 256 (S.left source.old) (S.left source.new) }
    ensures failures { CountsFailure (result ≡ Err JobFault.Source)
        (S.failures source.old) (S.failures source.new) }
    ensures not_passed { IsNotPassed (S.ended source.old)
        (S.passed source.old) (S.passed source.new) }
    ensures not_ended { OnOk result (S.ended source.new ≡ S.ended source.old) }
{
    let mut line = JobLine::new();
    for _ in 0..=LONGEST {
        let Some(byte) = read_byte(source)? else {
            return Err(JobFault::Usage);
        };
        if byte == b'\n' {
            return Ok(line);
        }
        if line.is_full() || !is_printable(byte) {
            return Err(JobFault::Usage);
        }
        line.push(byte);
    }
    Err(JobFault::Usage)
}
