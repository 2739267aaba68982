//! Tests of jobs whose words are the first line of a source.
ghost use Rattle.std.specs.Prelude.{None, false};

use crate::compare::{same, same_in};
use cif_line::{Bytes, Failed, Source};
use docker_cmd::{Job, JobFault, Subcommand, Task, job_line};
use std::alloc::Global;
use std::process::Abort;

/// Asserts the words after a job's subcommand.
fn words_are(rt: &impl Abort, job: &Job, wanted: &[&str]) {
    same(rt, job.words().len(), wanted.len());
    for (word, wanted) in job.words().iter().zip(wanted) {
        same(rt, word.as_str(), *wanted);
    }
}

/// Asserts that a job asks for the docker of this timing point on the day with this number.
fn asks_for(rt: &impl Abort, job: &Job, tiploc: &[u8; 7], number: u16) {
    match job.task() {
        Task::Day { place, day } => {
            same(rt, place.bytes(), tiploc);
            same(rt, day.number(), number);
        }
        _ => panic!(rt; "the subcommand"),
    }
}

#[test]
fn a_job_line_before_a_file(rt: HostRuntime) {
    let mut source = Bytes::new(b"day stdin ASHFELD 2024-06-10\nHD", 1);
    let job = job_line(rt.alloc(), &mut source).expect(&rt, "a job");
    same(&rt, source.left(), b"HD".as_slice());
    words_are(&rt, &job, &["stdin", "ASHFELD", "2024-06-10"]);
    asks_for(&rt, &job, b"ASHFELD", 23537);
}

#[test]
fn spaces_around_words(rt: HostRuntime) {
    let mut source = Bytes::new(b"  take  state   stdin \n\n", 5);
    let job = job_line(rt.alloc(), &mut source).expect(&rt, "a job");
    same(&rt, source.left(), b"\n".as_slice());
    same(&rt, job.subcommand(), Subcommand::Take);
    words_are(&rt, &job, &["state", "stdin"]);
}

/// Returns a line with the subcommand `day`, this number of spaces, and then the bytes `end`.
fn line_of(rt: &impl Abort, alloc: Global, spaces: usize, end: &[u8]) -> Vec<u8> {
    let mut line = Vec::new(alloc);
    line.extend_from_slice(b"day").expect(rt, "room");
    for _ in 0..spaces {
        line.push(b' ').expect(rt, "room");
    }
    line.extend_from_slice(b"F ASHFELD 2024-06-10")
        .expect(rt, "room");
    line.extend_from_slice(end).expect(rt, "room");
    line
}

/// Asserts that the line with this number of spaces and these last bytes is refused with this
/// fault. If there is no fault, asserts that the line names a job.
fn fault_is(
    rt: &impl Abort,
    alloc: Global,
    spaces: usize,
    end: &[u8],
    wanted: Option<JobFault>,
    name: &str,
) {
    let line = line_of(rt, alloc, spaces, end);
    let mut source = Bytes::new(line.as_slice(), 9);
    let fault = job_line(alloc, &mut source).err();
    same_in(rt, name, fault, wanted);
}

#[test]
fn lengths_of_a_job_line(rt: HostRuntime) {
    let usage = Some(JobFault::Usage);
    fault_is(&rt, rt.alloc(), 232, b"\n", None, "255 bytes");
    fault_is(&rt, rt.alloc(), 233, b"\n", usage, "256 bytes");
    fault_is(&rt, rt.alloc(), 1, b"", usage, "no line feed");
}

// An endless source. Each of its reads returns the letter a, but no contract says which bytes the
// source holds.
#[derive(Drop)]
struct Endless {
    reads: u16,
}

impl Source for Endless {
    ghost left = { λ _. None };

    ghost failures = { λ _. 0 };

    ghost ended = { λ _. false };

    ghost passed = { λ _. false };

    fn read(&mut self, into: &mut [u8]) -> Result<usize, Failed> {
        let Some(first) = into.first_mut() else {
            return Ok(0);
        };
        *first = b'a';
        self.reads = self.reads.saturating_add(1);
        Ok(1)
    }

    fn failures(&self) -> u64 {
        0
    }
}

#[test]
fn a_source_without_end(rt: HostRuntime) {
    let mut source = Endless { reads: 0 };
    let fault = job_line(rt.alloc(), &mut source).err();
    same(&rt, fault, Some(JobFault::Usage));
    same(&rt, source.reads, 256);
}
