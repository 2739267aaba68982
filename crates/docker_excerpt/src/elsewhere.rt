//! Schedules that run near the day of a docker, but have no event at its place on this day.
ghost use Rattle.std.specs.Prelude.{◌≡◌, ◌∷◌, IfOk};
ghost use Rattle.docker_model.specs.records.Record.{IsRecord};
ghost use Rattle.docker_laws.specs.Thinning.{ends_elsewhere};
ghost use Rattle.cif_change.specs.Meaning.{change_meant};
ghost use Rattle.docker_excerpt.specs.Elsewhere as elsewhere;

use cif_change::{Act, Body, Change, Key, Lines, ScheduleKey};
use cif_line::{Line, Tiploc};
use std::alloc::{AllocError, Global};

/// A schedule that runs near the day of a docker, but has no event at its place on this day. Of its
/// lines only the basic schedule is kept.
#[derive(Clone, Copy, Debug)]
pub(crate) struct Elsewhere {
    /// The number of the basic schedule in the file.
    pub number: u32,
    /// The key of the schedule.
    pub key: ScheduleKey,
    /// The basic schedule, with its transaction set to `N`.
    pub basic: Line,
}

impl Elsewhere {
    /// The change that puts this schedule, with these lines as its origin and its terminus.
    pub(crate) fn change(&self, alloc: Global, ends: &[Line; 2]) -> Result<Change, AllocError>
        ensures { IfOk result (λ change.
            change_meant change ≡ elsewhere.with_ends ends.now self.now) }
    {
        let body = with_ends(alloc, &self.basic, ends)?;
        Ok(Change {
            number: self.number,
            key: Key::Schedule(self.key),
            act: Act::Put(Body::Schedule(body)),
        })
    }
}

/// A basic schedule, followed by these lines as its origin and its terminus.
pub(crate) fn with_ends(alloc: Global, basic: &Line, ends: &[Line; 2]) -> Result<Lines, AllocError>
    ensures { IfOk result (λ body. body ≡ basic.now ∷ ends.now) }
{
    let mut body = Vec::with_capacity(alloc, 3)?;
    body.push(*basic)?;
    body.extend_from_slice(ends)?;
    Ok(Lines::of(body))
}

/// A made-up origin and terminus at a TIPLOC that isn't the place.
pub(crate) fn ends_elsewhere(place: &Tiploc) -> [Line; 2]
    ensures { result ≡ ends_elsewhere place.now }
{
    if place.bytes() == b"NOWHERE" {
        return [
            line_of(
                b"LOANOTHER 0000 0000                                                             ",
            ),
            line_of(
                b"LTANOTHER 0000 0000                                                             ",
            ),
        ];
    }
    [
        line_of(
            b"LONOWHERE 0000 0000                                                             ",
        ),
        line_of(
            b"LTNOWHERE 0000 0000                                                             ",
        ),
    ]
}

/// The line of these bytes, which have to be a record.
fn line_of(bytes: &[u8; 80]) -> Line
    requires { IsRecord bytes.now }
    ensures { result ≡ bytes.now }
{
    match Line::of(bytes) {
        Some(line) => line,
        None => unreachable!(),
    }
}
