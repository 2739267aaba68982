//! Tests of the files that a desk takes, the states that it receives, and what it then knows.

ghost use Rattle.std.specs.Prelude.{◌≡◌};

use crate::compare::same;
use crate::desks::{desk_of, ends, prints};
use crate::expected::{ANSWER_0900, ANSWER_0905};
use crate::records::{BOTH_STATE, OPEN, REVISION, REVISION_STATE, lines_text, state_text};
use crate::shelves::shelf_with;
use cif_file::{FileCause, FileFault};
use docker_cmd::OfficeFault;
use docker_desk::Desk;
use docker_host::{Fails, Shelf};
use docker_office::{StateCause, StateFault};
use std::alloc::Global;
use std::process::Abort;
use test_records::states::MORNING_STATE;

/// Has a desk take the file `F2` of a shelf, and returns the result.
fn take(desk: &mut Desk, shelf: &mut Shelf) -> Result<(), OfficeFault>
    requires { shelf.old.failures ≡ 0 }
{
    desk.take("F2", shelf)
}

/// Has a desk take a file with this text, and returns the result.
pub(crate) fn taken(
    rt: &impl Abort,
    alloc: Global,
    desk: &mut Desk,
    text: &[u8],
) -> Result<(), OfficeFault> {
    take(desk, &mut shelf_with(rt, alloc, "F2", text))
}

/// Has a desk receive the state in a file with this text, and returns the result.
fn received(
    rt: &impl Abort,
    alloc: Global,
    desk: &mut Desk,
    name: &str,
    text: &[u8],
) -> Result<(), OfficeFault> {
    desk.receive(name, &mut shelf_with(rt, alloc, "S2", text))
}

#[test]
fn a_file_is_taken(rt: HostRuntime) {
    let alloc = rt.alloc();
    let mut desk = desk_of(&rt, alloc, MORNING_STATE);
    let file = lines_text(&rt, alloc, REVISION);
    same(&rt, taken(&rt, alloc, &mut desk, file.as_slice()), Ok(()));
    prints(&rt, alloc, &mut desk, "2024-06-10", ANSWER_0905);
    same(&rt, taken(&rt, alloc, &mut desk, file.as_slice()), Ok(()));
    ends(&rt, alloc, desk, true, BOTH_STATE);
}

#[test]
fn files_that_are_refused(rt: HostRuntime) {
    let alloc = rt.alloc();
    let mut desk = desk_of(&rt, alloc, MORNING_STATE);
    let open = lines_text(&rt, alloc, OPEN);
    let file = lines_text(&rt, alloc, REVISION);
    let failed = Err(OfficeFault::Source);
    same(&rt, take(&mut desk, &mut Shelf::new(alloc, 0)), failed);
    let no_end = FileFault {
        number: 5,
        cause: FileCause::NoEnd,
    };
    let answer = taken(&rt, alloc, &mut desk, open.as_slice());
    same(&rt, answer, Err(OfficeFault::File(no_end)));
    let mut shelf = shelf_with(&rt, alloc, "F2", file.as_slice());
    shelf.fail(Fails::AfterReading(300));
    same(&rt, take(&mut desk, &mut shelf), failed);
    prints(&rt, alloc, &mut desk, "2024-06-10", ANSWER_0900);
    ends(&rt, alloc, desk, false, MORNING_STATE);
}

#[test]
fn a_state_is_received(rt: HostRuntime) {
    let alloc = rt.alloc();
    let mut desk = desk_of(&rt, alloc, MORNING_STATE);
    let other = state_text(&rt, alloc, REVISION_STATE);
    let answer = received(&rt, alloc, &mut desk, "S2", other.as_slice());
    same(&rt, answer, Ok(()));
    prints(&rt, alloc, &mut desk, "2024-06-10", ANSWER_0905);
    ends(&rt, alloc, desk, true, BOTH_STATE);
}

/// Asserts that a desk refuses a state with this text, and that the desk returns this fault.
fn refuses_state(rt: &impl Abort, alloc: Global, desk: &mut Desk, text: &[u8], fault: StateFault) {
    let fault = OfficeFault::State(fault);
    same(rt, received(rt, alloc, desk, "S2", text), Err(fault));
}

/// Returns a fault at this offset.
fn fault_at(at: u64, cause: StateCause) -> StateFault {
    StateFault { at, cause }
}

#[test]
fn states_that_are_refused(rt: HostRuntime) {
    let alloc = rt.alloc();
    let mut desk = desk_of(&rt, alloc, MORNING_STATE);
    let file = lines_text(&rt, alloc, REVISION);
    refuses_state(
        &rt,
        alloc,
        &mut desk,
        file.as_slice(),
        fault_at(0, StateCause::Mark),
    );
    let mut text = state_text(&rt, alloc, REVISION_STATE);
    text.push(0).expect(&rt, "room");
    refuses_state(
        &rt,
        alloc,
        &mut desk,
        text.as_slice(),
        fault_at(311, StateCause::Tail),
    );
    let cut = text.as_slice().get(..310).expect(&rt, "310 bytes");
    refuses_state(&rt, alloc, &mut desk, cut, fault_at(41, StateCause::Short));
    let answer = received(&rt, alloc, &mut desk, "S3", b"");
    same(&rt, answer, Err(OfficeFault::Source));
    ends(&rt, alloc, desk, false, MORNING_STATE);
}
