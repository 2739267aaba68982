//! What the excerpt of a state keeps of an entry.
ghost use Rattle.std.specs.Prelude.{◌≡◌, IfOk};
ghost use Rattle.docker_model.specs.state.State.{IsOpOf};
ghost use Rattle.docker_laws.specs.Thinning.{excerpt_entry, excerpt_lines, excerpt_op};
ghost use Rattle.cif_change.specs.Meaning.{key_meant};
ghost use Rattle.docker_join.specs.Meaning.{entry_meant, op_meant};
ghost use Rattle.docker_excerpt.specs.Midnights.{IsPutSchedule};

use crate::elsewhere::{ends_elsewhere, with_ends};
use crate::reach::may_reach;
use cif_change::{Body, Key, Lines};
use cif_file::calls_at;
use cif_line::{Day, Tiploc};
use state_text::{Entry, Op};
use std::alloc::{AllocError, Global};

/// The entry, as the excerpt for the place and the day has it. Of a schedule that calls at the place
/// but has no event on the day, only the basic schedule remains, with a made-up origin and terminus.
/// Any other entry is unchanged.
pub(crate) fn excerpt_entry(
    alloc: Global,
    place: &Tiploc,
    day: Day,
    key: &Key,
    entry: Entry,
) -> Result<Entry, AllocError>
    requires { IsOpOf (key_meant key.now) (entry_meant entry).op }
    ensures { IfOk result (λ it. (key_meant key.now, entry_meant it)
        ≡ excerpt_entry place.now day (key_meant key.now, entry_meant entry)) }
{
    let Entry { stamp, op } = entry;
    let op = excerpt_op(alloc, place, day, key, op)?;
    Ok(Entry { stamp, op })
}

/// The op of an entry with this key, as the excerpt has it.
fn excerpt_op(alloc: Global, place: &Tiploc, day: Day, key: &Key, op: Op) -> Result<Op, AllocError>
    requires { IsOpOf (key_meant key.now) (op_meant op) }
    ensures { IfOk result (λ it. op_meant it ≡ excerpt_op place.now day (op_meant op)) }
{
    match op {
        Op::Put(Body::Schedule(lines)) => {
            let lines = excerpt_lines(alloc, place, day, lines)?;
            Ok(Op::Put(Body::Schedule(lines)))
        }
        Op::Put(body) => Ok(Op::Put(body)),
        Op::Lapsed => Ok(Op::Lapsed),
        Op::Deleted => Ok(Op::Deleted),
    }
}

/// The lines of a schedule, as the excerpt has them.
fn excerpt_lines(alloc: Global, place: &Tiploc, day: Day, lines: Lines) -> Result<Lines, AllocError>
    requires { IsPutSchedule lines }
    ensures { IfOk result (λ it. it ≡ excerpt_lines place.now day lines) }
{
    if !calls_at(place, lines.as_slice()) {
        return Ok(lines);
    }
    if may_reach(day, lines.as_slice()) {
        return Ok(lines);
    }
    match lines.as_slice().first() {
        Some(basic) => with_ends(alloc, basic, &ends_elsewhere(place)),
        None => unreachable!(),
    }
}
