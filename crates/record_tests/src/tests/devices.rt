//! Tests of the devices in memory, and of a sink that fails once. Contracts can't refer to the
//! bytes that this sink has taken.
ghost use Rattle.std.specs.Prelude.{◌-◌, ◌^◌, ◌<◌, ◌≡◌, None};

use super::compare::{prints, same};
use cif_line::{Bytes, Endless, Failed, Fuse, Kept, Memory, Sink, Source, write_all};
use std::process::Abort;

// Asserts that a device has failed this many times. From the clause, the prover concludes that the
// device can count another failure, which the contract of the device's next call requires.
fn failures_are(rt: &impl Abort, failures: u64, wanted: u64)
    ensures { failures ≡ wanted }
{
    assert_eq!(rt; failures, wanted);
}

#[test]
fn reads_by_the_buffer(rt: HostRuntime) {
    let mut source = Bytes::new(b"abcdef", 4);
    let mut into = [0u8; 3];
    same(&rt, source.read(&mut into), Ok(3));
    same(&rt, &into[..], b"abc".as_slice());
    same(&rt, source.left(), b"def".as_slice());
    same(&rt, source.read(&mut into), Ok(3));
    same(&rt, &into[..], b"def".as_slice());
    same(&rt, source.read(&mut into), Ok(0));
    same(&rt, source.left(), b"".as_slice());
    failures_are(&rt, source.failures(), 0);
}

#[test]
fn reads_by_the_step(rt: HostRuntime) {
    let mut source = Bytes::new(b"abcdef", 1);
    let mut into = [0u8; 3];
    same(&rt, source.read(&mut into), Ok(1));
    same(&rt, into[0], b'a');
    same(&rt, source.read(&mut into), Ok(1));
    same(&rt, into[0], b'b');
    same(&rt, source.left(), b"cdef".as_slice());
}

#[test]
fn takes_what_it_has_room_for(rt: HostRuntime) {
    let mut sink = Kept::new(rt.alloc(), 5).expect(&rt, "room");
    same(&rt, sink.write(b"abc"), Ok(3));
    same(&rt, sink.write(b"defg"), Ok(2));
    same(&rt, sink.write(b"fg"), Err(Failed));
    failures_are(&rt, sink.failures(), 1);
    same(&rt, sink.bytes(), b"abcde".as_slice());
}

#[test]
fn writes_the_whole_piece(rt: HostRuntime) {
    let mut sink = Kept::new(rt.alloc(), 5).expect(&rt, "room");
    same(&rt, write_all(&mut sink, b"abc"), Ok(()));
    same(&rt, write_all(&mut sink, b"de"), Ok(()));
    same(&rt, sink.bytes(), b"abcde".as_slice());
    failures_are(&rt, sink.failures(), 0);
}

#[test]
fn stops_when_the_sink_is_full(rt: HostRuntime) {
    let mut sink = Kept::new(rt.alloc(), 5).expect(&rt, "room");
    same(&rt, write_all(&mut sink, b"abcdefg"), Err(Failed));
    same(&rt, sink.bytes(), b"abcde".as_slice());
    failures_are(&rt, sink.failures(), 1);
}

// Reads from a source once, and writes everything that was read to a sink.
fn pass_on<S: Source, K: Sink>(source: &mut S, sink: &mut K) -> Result<usize, Failed>
    requires source { S.failures source.old < 2 ^ 64 - 1 }
    requires sink { K.failures sink.old < 2 ^ 64 - 1 }
{
    let mut piece = [0u8; 4];
    let n = source.read(&mut piece)?;
    write_all(sink, &piece[..n])?;
    Ok(n)
}

#[test]
fn passes_on_through_the_bounds(rt: HostRuntime) {
    let mut source = Bytes::new(b"abcdef", 9);
    let mut sink = Kept::new(rt.alloc(), 6).expect(&rt, "room");
    same(&rt, pass_on(&mut source, &mut sink), Ok(4));
    failures_are(&rt, sink.failures(), 0);
    same(&rt, pass_on(&mut source, &mut sink), Ok(2));
    failures_are(&rt, sink.failures(), 0);
    same(&rt, pass_on(&mut source, &mut sink), Ok(0));
    same(&rt, sink.bytes(), b"abcdef".as_slice());
}

#[test]
fn passes_a_byte_at_a_call_and_fails_at_one(rt: HostRuntime) {
    let mut source = Fuse::new(Bytes::new(b"abc", 9), 2);
    let mut sink = Fuse::new(Kept::new(rt.alloc(), 4).expect(&rt, "room"), 4);
    same(&rt, pass_on(&mut source, &mut sink), Ok(1));
    failures_are(&rt, source.failures(), 0);
    failures_are(&rt, sink.failures(), 0);
    same(&rt, pass_on(&mut source, &mut sink), Err(Failed));
    failures_are(&rt, source.failures(), 1);
    same(&rt, source.device().left(), b"bc".as_slice());
    failures_are(&rt, sink.failures(), 0);
    same(&rt, write_all(&mut sink, b"bcde"), Err(Failed));
    failures_are(&rt, sink.failures(), 1);
    same(&rt, sink.device().bytes(), b"abc".as_slice());
    same(&rt, write_all(&mut sink, b"de"), Err(Failed));
    failures_are(&rt, sink.failures(), 2);
    same(&rt, sink.device().bytes(), b"abcd".as_slice());
}

#[test]
fn gives_a_text_again_and_again(rt: HostRuntime) {
    let mut source = Endless::new(b"ab", b"xyz", 9);
    let mut sink = Kept::new(rt.alloc(), 9).expect(&rt, "room");
    same(&rt, pass_on(&mut source, &mut sink), Ok(4));
    failures_are(&rt, sink.failures(), 0);
    same(&rt, pass_on(&mut source, &mut sink), Ok(4));
    same(&rt, sink.bytes(), b"abxyzxyz".as_slice());
    let mut into = [0u8; 3];
    let mut slow = Endless::new(b"", b"H", 1);
    same(&rt, slow.read(&mut into), Ok(1));
    same(&rt, slow.read(&mut into[1..]), Ok(1));
    same(&rt, &into[..2], b"HH".as_slice());
    failures_are(&rt, slow.failures(), 0);
}

// A sink that takes one byte per write, and whose third write fails. Contracts can't refer to the
// bytes that it has taken.
#[derive(Drop)]
struct FailsOnce {
    writes: u8,
    failures: u64,
}

impl Sink for FailsOnce {
    ghost taken = { λ _. None };

    ghost failures = { λ sink. sink.failures };

    fn write(&mut self, piece: &[u8]) -> Result<usize, Failed> {
        self.writes = self.writes.saturating_add(1);
        if self.writes == 3 {
            self.failures += 1;
            return Err(Failed);
        }
        Ok(piece.len().min(1))
    }

    fn failures(&self) -> u64 {
        self.failures
    }
}

#[test]
fn writes_nothing_after_a_failure(rt: HostRuntime) {
    let mut sink = FailsOnce {
        writes: 0,
        failures: 0,
    };
    same(&rt, write_all(&mut sink, b"abcdef"), Err(Failed));
    failures_are(&rt, sink.failures(), 1);
    same(&rt, sink.writes, 3);
}

#[test]
fn says_what_went_wrong(rt: HostRuntime) {
    prints(&rt, rt.alloc(), Failed, "the device failed");
    prints(&rt, rt.alloc(), Memory, "out of memory");
}
