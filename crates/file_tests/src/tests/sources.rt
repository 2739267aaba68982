//! Tests of files that are read from a source.
ghost use Rattle.std.specs.Prelude.{◌<◌};

use super::compare::{prints, same, same_in};
use super::{at, check_morning};
use cif_file::{FileCause, FileFault, FileReadFault, judge_file, read_file};
use cif_line::{Bytes, Endless, Failed, Source};
use std::alloc::Global;
use std::process::Abort;
use test_records::files::MORNING;
use test_records::{HD, TI, text};

/// A source that fails at the end of its bytes and at every later read. Contracts can't refer to
/// its bytes.
#[derive(Drop)]
struct Broken<'a> {
    bytes: &'a [u8],
    failures: u64,
}

impl Source for Broken<'_> {
    ghost use Rattle.std.specs.Prelude.{None, false};

    ghost left = { λ _. None };

    ghost failures = { λ broken. broken.failures };

    ghost ended = { λ _. false };

    ghost passed = { λ _. false };

    fn read(&mut self, into: &mut [u8]) -> Result<usize, Failed> {
        if self.bytes.is_empty() {
            self.failures += 1;
            return Err(Failed);
        }
        let n = into.len().min(self.bytes.len());
        into[..n].copy_from_slice(&self.bytes[..n]);
        self.bytes = &self.bytes[n..];
        Ok(n)
    }

    fn failures(&self) -> u64 {
        self.failures
    }
}

/// Asserts that this text, read in pieces of `step` bytes, is read as `MORNING`. Also asserts that
/// the text is refused if the limit is four records.
fn check_reads(rt: &impl Abort, alloc: Global, text: &[u8], step: usize)
    requires { 0 < step }
{
    let mut source = Bytes::new(text, step);
    let file = read_file(alloc, &mut source, 5).expect(rt, "a file");
    check_morning(rt, file);
    same(rt, source.left().is_empty(), true);
    let mut source = Bytes::new(text, step);
    let fault = read_file(alloc, &mut source, 4).err();
    let too_many = at(5, FileCause::TooMany);
    same(rt, fault, Some(FileReadFault::File(too_many)));
}

#[test]
fn a_file_by_reads_of_any_length(rt: HostRuntime) {
    let whole = text(rt.alloc(), MORNING, b"\n").expect(&rt, "room");
    check_reads(&rt, rt.alloc(), whole.as_slice(), 1);
    check_reads(&rt, rt.alloc(), whole.as_slice(), 7);
    check_reads(&rt, rt.alloc(), whole.as_slice(), 81);
    check_reads(&rt, rt.alloc(), whole.as_slice(), 4096);
}

/// Asserts that `read_file` fails with `Source` if the source fails after these bytes, and that the
/// source has failed once.
fn read_fails(rt: &impl Abort, alloc: Global, bytes: &[u8], name: &str) {
    let mut source = Broken { bytes, failures: 0 };
    let fault = read_file(alloc, &mut source, 5).err();
    same_in(rt, name, fault, Some(FileReadFault::Source));
    same_in(rt, name, source.failures, 1);
}

/// Asserts that `judge_file` fails with `Source` if the source fails after these bytes, and that
/// the source has failed once.
fn judging_fails(rt: &impl Abort, alloc: Global, bytes: &[u8], name: &str) {
    let mut source = Broken { bytes, failures: 0 };
    let fault = judge_file(alloc, &mut source, 5).err();
    same_in(rt, name, fault, Some(FileReadFault::Source));
    same_in(rt, name, source.failures, 1);
}

/// Asserts that `read_file` and `judge_file` both fail with `Source` if the source fails after the
/// first `length` bytes of a text.
fn front_fails(rt: &impl Abort, alloc: Global, text: &[u8], length: usize, name: &str) {
    let bytes = text.get(..length).expect(rt, "a front");
    read_fails(rt, alloc, bytes, name);
    judging_fails(rt, alloc, bytes, name);
}

#[test]
fn sources_that_fail(rt: HostRuntime) {
    let whole = text(rt.alloc(), MORNING, b"\n").expect(&rt, "room");
    front_fails(&rt, rt.alloc(), whole.as_slice(), 0, "0 bytes");
    front_fails(&rt, rt.alloc(), whole.as_slice(), 81, "81 bytes");
    front_fails(&rt, rt.alloc(), whole.as_slice(), 100, "100 bytes");
    front_fails(&rt, rt.alloc(), whole.as_slice(), 405, "405 bytes");
    read_fails(&rt, rt.alloc(), TI, "an open line");
}

/// Asserts that `read_file` and `judge_file` both return this fault for an endless source, read in
/// pieces of `step` bytes.
fn endless_fails(
    rt: &impl Abort,
    alloc: Global,
    first: &[u8],
    again: &[u8],
    limit: u16,
    step: usize,
    fault: FileFault,
)
    requires { 0 < step }
{
    assert!(rt; !again.is_empty());
    let limit = u32::from(limit);
    let mut source = Endless::new(first, again, step);
    let found = read_file(alloc, &mut source, limit).err();
    same(rt, found, Some(FileReadFault::File(fault)));
    let mut source = Endless::new(first, again, step);
    let found = judge_file(alloc, &mut source, limit).err();
    same(rt, found, Some(FileReadFault::File(fault)));
}

/// Like `endless_fails`, but reads the source in pieces of several lengths.
fn check_endless(
    rt: &impl Abort,
    alloc: Global,
    first: &[u8],
    again: &[u8],
    limit: u16,
    fault: FileFault,
) {
    endless_fails(rt, alloc, first, again, limit, 1, fault);
    endless_fails(rt, alloc, first, again, limit, 7, fault);
    endless_fails(rt, alloc, first, again, limit, 4096, fault);
}

#[test]
fn sources_without_end(rt: HostRuntime) {
    let alloc = rt.alloc();
    let header = text(alloc, &[HD], b"\n").expect(&rt, "room");
    let insert = text(alloc, &[TI], b"\n").expect(&rt, "room");
    let (hd, ti) = (header.as_slice(), insert.as_slice());
    check_endless(&rt, alloc, hd, ti, 1000, at(1001, FileCause::TooMany));
    check_endless(&rt, alloc, hd, hd, 1000, at(2, FileCause::Place));
    check_endless(&rt, alloc, ti, ti, 1000, at(1, FileCause::Place));
    check_endless(&rt, alloc, hd, ti, 0, at(1, FileCause::TooMany));
    check_endless(&rt, alloc, b"", b"H", 1000, at(1, FileCause::Length));
}

#[test]
fn printed_read_faults(rt: HostRuntime) {
    let alloc = rt.alloc();
    let bad_field = at(3, FileCause::Field(11));
    prints(&rt, alloc, FileReadFault::Source, "the source failed");
    prints(
        &rt,
        alloc,
        FileReadFault::File(bad_field),
        "record 3: Field 11",
    );
    prints(&rt, alloc, FileReadFault::Memory, "want of memory");
}
