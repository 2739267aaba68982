//! Tests with devices that fail midway, with sinks that are full, and with sources that never end.
ghost use Rattle.std.specs.Prelude.{◌<◌};

use crate::compare::same;
use crate::offices::{
    at_place, day_of, has, ledger_of, office_of, place_of, text_of, text_of_parts,
};
use cif_file::{FileCause, FileFault};
use cif_line::{Bytes, Endless, Fuse, Kept};
use docker_office::{LedgerOffice, Office, OfficeFault, PlaceOffice, StateCause, StateFault};
use std::alloc::Global;
use std::process::Abort;
use test_records::dockers::ASHFELD_0900;
use test_records::files::*;
use test_records::states::{MORNING_STATE, REVISED_STATE, REVISION_STATE};

/// Asserts the result of sending an office's state, and the bytes that the sink then has. The sink
/// takes one byte per write. Only the write with this number, counted from 1, fails.
fn sends(
    rt: &impl Abort,
    alloc: Global,
    office: &Office,
    write: u64,
    answer: Result<(), OfficeFault>,
    bytes: &[u8],
)
    requires { 0 < write }
{
    let kept = Kept::new(alloc, 311).expect(rt, "room");
    let mut sink = Fuse::new(kept, write);
    same(rt, office.send(&mut sink), answer);
    same(rt, sink.device().bytes(), bytes);
}

/// Returns the first twenty bytes of a text.
fn front_of<'a>(rt: &impl Abort, text: &'a [u8]) -> &'a [u8] {
    text.get(..20).expect(rt, "20 bytes")
}

/// Asserts that these are the first 70 bytes of the docker of Ashfeld.
fn is_front_of_docker(rt: &impl Abort, alloc: Global, bytes: &[u8]) {
    let docker = text_of(rt, alloc, ASHFELD_0900);
    same(
        rt,
        bytes,
        docker.as_slice().get(..70).expect(rt, "70 bytes"),
    );
}

#[test]
fn a_sink_that_fails_once(rt: HostRuntime) {
    let alloc = rt.alloc();
    let office = office_of(&rt, alloc, &[MORNING]);
    let text = text_of_parts(&rt, alloc, MORNING_STATE);
    let front = front_of(&rt, text.as_slice());
    let failed = Err(OfficeFault::Sink);
    sends(&rt, alloc, &office, 21, failed, front);
    sends(&rt, alloc, &office, 312, Ok(()), text.as_slice());
}

/// Lets an office take a file, and returns the result. The source returns one byte per read, and
/// only the read with this number fails.
fn taken(office: &mut Office, text: &[u8], read: u64) -> Result<(), OfficeFault>
    requires { 0 < read }
{
    office.take(&mut Fuse::new(Bytes::new(text, 1), read), 1000)
}

/// Lets an office receive a state, and returns the result. The source returns one byte per read,
/// and only the read with this number fails.
fn received(office: &mut Office, text: &[u8], read: u64) -> Result<(), OfficeFault>
    requires { 0 < read }
{
    office.receive(&mut Fuse::new(Bytes::new(text, 1), read), 1000)
}

/// Lets an office reload a state, and returns the result. The source returns one byte per read, and
/// only the read with this number fails.
fn reloaded(office: &mut Office, text: &[u8], read: u64) -> Result<(), OfficeFault>
    requires { 0 < read }
{
    office.reload(&mut Fuse::new(Bytes::new(text, 1), read), 1000)
}

/// Makes an office for Ashfeld from a source whose read with this number fails. Returns the fault,
/// or `None` if the office is made.
fn read_at_place(rt: &impl Abort, alloc: Global, text: &[u8], read: u64) -> Option<OfficeFault>
    requires { 0 < read }
{
    let mut source = Fuse::new(Bytes::new(text, 1), read);
    let (place, day) = (place_of(rt, "ASHFELD"), day_of(rt, "2024-05-01"));
    PlaceOffice::read(alloc, place, day, &mut source, 1000).err()
}

/// Makes an office with only a ledger from a source whose read with this number fails. Returns the
/// fault, or `None` if the office is made.
fn read_ledger(alloc: Global, text: &[u8], read: u64) -> Option<OfficeFault>
    requires { 0 < read }
{
    let mut source = Fuse::new(Bytes::new(text, 1), read);
    LedgerOffice::read(alloc, &mut source, 1000).err()
}

#[test]
fn a_part_of_a_state_from_a_source_that_fails_once(rt: HostRuntime) {
    let alloc = rt.alloc();
    let known = text_of_parts(&rt, alloc, MORNING_STATE);
    let known = known.as_slice();
    let failed = Some(OfficeFault::Source);
    same(&rt, read_at_place(&rt, alloc, known, 312), failed);
    same(&rt, read_at_place(&rt, alloc, known, 313), None);
    same(&rt, read_ledger(alloc, known, 312), failed);
    same(&rt, read_ledger(alloc, known, 313), None);
}

#[test]
fn a_source_that_fails_once(rt: HostRuntime) {
    let alloc = rt.alloc();
    let mut office = office_of(&rt, alloc, &[REVISION]);
    let text = text_of(&rt, alloc, MORNING);
    let known = text_of_parts(&rt, alloc, MORNING_STATE);
    let failed = Err(OfficeFault::Source);
    same(&rt, taken(&mut office, text.as_slice(), 101), failed);
    same(&rt, received(&mut office, known.as_slice(), 101), failed);
    same(&rt, reloaded(&mut office, known.as_slice(), 312), failed);
    has(&rt, alloc, &office, REVISION_STATE);
    same(&rt, taken(&mut office, text.as_slice(), 407), Ok(()));
    has(&rt, alloc, &office, REVISED_STATE);
    same(&rt, reloaded(&mut office, known.as_slice(), 313), Ok(()));
    has(&rt, alloc, &office, MORNING_STATE);
}

/// Asserts that sending a state to a sink with room for 20 bytes fails, and that the sink is then
/// full.
fn fills_by_send(rt: &impl Abort, alloc: Global, office: &Office) {
    let text = text_of_parts(rt, alloc, MORNING_STATE);
    let mut kept = Kept::new(alloc, 20).expect(rt, "room");
    same(rt, office.send(&mut kept), Err(OfficeFault::Sink));
    same(rt, kept.bytes(), front_of(rt, text.as_slice()));
}

/// Asserts that printing a docker to a sink with room for 70 bytes fails, and that the sink is then
/// full.
fn fills_by_print(rt: &impl Abort, alloc: Global, office: &Office) {
    let place = place_of(rt, "ASHFELD");
    let day = day_of(rt, "2024-06-10");
    let mut kept = Kept::new(alloc, 70).expect(rt, "room");
    let answer = office.print(&place, day, &mut kept);
    same(rt, answer, Err(OfficeFault::Sink));
    is_front_of_docker(rt, alloc, kept.bytes());
}

/// Asserts that an office for Ashfeld fails to print to a sink with room for 70 bytes, and that the
/// sink is then full.
fn fills_at_place(rt: &impl Abort, alloc: Global, office: &Office) {
    let (place, day) = (place_of(rt, "ASHFELD"), day_of(rt, "2024-06-10"));
    let office = at_place(rt, alloc, office, place, day);
    let mut kept = Kept::new(alloc, 70).expect(rt, "room");
    let answer = office.print(&mut kept);
    same(rt, answer, Err(OfficeFault::Sink));
    is_front_of_docker(rt, alloc, kept.bytes());
}

/// Asserts that an office fails to write its list of files to a sink with room for 10 bytes, and
/// that the sink is then full.
fn fills_by_files(rt: &impl Abort, alloc: Global, office: &Office) {
    let mut kept = Kept::new(alloc, 10).expect(rt, "room");
    same(rt, office.files(&mut kept), Err(OfficeFault::Sink));
    same(rt, kept.bytes(), b"2024-06-09".as_slice());
}

/// Asserts that an office with only a ledger fails to write its list of files to a sink with room
/// for 10 bytes, and that the sink is then full.
fn fills_by_ledger(rt: &impl Abort, alloc: Global, office: &Office) {
    let ledger = ledger_of(rt, alloc, office);
    let mut kept = Kept::new(alloc, 10).expect(rt, "room");
    same(rt, ledger.files(&mut kept), Err(OfficeFault::Sink));
    same(rt, kept.bytes(), b"2024-06-09".as_slice());
}

#[test]
fn a_sink_that_is_full(rt: HostRuntime) {
    let office = office_of(&rt, rt.alloc(), &[MORNING]);
    fills_by_send(&rt, rt.alloc(), &office);
    fills_by_print(&rt, rt.alloc(), &office);
    fills_at_place(&rt, rt.alloc(), &office);
    fills_by_files(&rt, rt.alloc(), &office);
    fills_by_ledger(&rt, rt.alloc(), &office);
}

#[test]
fn a_source_without_end(rt: HostRuntime) {
    let mut office = Office::new(rt.alloc());
    let length = FileFault {
        number: 1,
        cause: FileCause::Length,
    };
    let answer = office.take(&mut Endless::new(b"", b"H", 4096), 1000);
    same(&rt, answer, Err(OfficeFault::File(length)));
    let tail = StateFault {
        at: 22,
        cause: StateCause::Tail,
    };
    let answer = office.receive(&mut Endless::new(b"DKS2", b"\0", 4096), 1000);
    same(&rt, answer, Err(OfficeFault::State(tail)));
}
