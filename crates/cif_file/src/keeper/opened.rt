//! A schedule whose lines are being read.
ghost use Rattle.std.specs.Prelude.{◌≡◌, [], ◌∷◌, true, false, IsOk, IsErr, IfOk, IfErr, OnOk, MatchOption, if◌then◌else◌};
ghost use Rattle.docker_model.specs.records.Record.{HasKind, IsRecord};
ghost use Rattle.cif_laws.specs.ScheduleStage.{is_first_line};
ghost use Rattle.docker_model.specs.file.Change.{schedule_named, schedule_body, delete, put};
ghost use Rattle.cif_change.specs.JourneyRead.{progress_meant, HasLines, Advances, FaultsLine, JudgesLine, is_over_by};
ghost use Rattle.cif_line.specs.Kind.{meaning};
ghost use Rattle.cif_change.specs.Meaning.{change_meant, key_meant};

use cif_change::{
    Act, Body, Change, FileCause, Key, Lines, Progress, ScheduleKey, progress_after_basic,
};
use cif_line::{Basic, Kind, Line};
use std::alloc::{AllocError, Global};

/// A schedule whose lines are being read: the record number of its basic schedule, its key, and the
/// progress of its reader.
#[derive(Clone, Copy, PartialEq, Eq, Debug)]
pub struct Opened {
    /// The number of the basic schedule in the file.
    pub number: u32,
    /// The key of the schedule.
    pub key: ScheduleKey,
    /// How far the schedule's lines were read, and whether its basic schedule deletes it.
    pub progress: Progress,
}

impl Opened {
    /// Adds one more line to the schedule. A line that is refused changes nothing.
    pub(crate) fn advance(&mut self, kind: Kind, line: &Line) -> Result<(), FileCause>
        requires record { IsRecord line.now }
        requires kind { HasKind (meaning kind) line.now }
        ensures ok { JudgesLine (progress_meant self.old.progress) line.now (IsOk result) }
        ensures read { OnOk result (Advances self.old.progress line.now self.new.progress) }
        ensures err { IfErr result (FaultsLine (progress_meant self.old.progress) line.now) }
        ensures number { self.new.number ≡ self.old.number }
        ensures key { self.new.key ≡ self.old.key }
        ensures unchanged { IsErr result → self.new ≡ self.old }
    {
        self.progress.advance(kind, line)
    }

    /// Returns this schedule if its terminus was read, which means that its journey is complete.
    /// Otherwise returns `None`.
    pub(crate) fn over(&self) -> Option<Opened>
        ensures { MatchOption result (is_over_by (progress_meant self.now.progress).stage ≡ false)
            (λ over. (over ≡ self.now) ×
            (is_over_by (progress_meant self.now.progress).stage ≡ true)) }
    {
        if self.progress.is_over() {
            Some(*self)
        } else {
            None
        }
    }

    /// Makes the change of the schedule, which puts these lines under the schedule's key or deletes
    /// this key. Returns an error if the allocator refuses memory.
    pub(crate) fn change(self, alloc: Global, lines: &[Line]) -> Result<Change, AllocError>
        ensures { IfOk result (λ change. change_meant change ≡ record {
          number = self.number;
          key = key_meant (Key.Schedule self.key);
          act = if (progress_meant self.progress).deletion then delete else put (schedule_body lines.now);
        }) }
    {
        let act = if self.progress.is_deletion() {
            Act::Delete
        } else {
            Act::Put(Body::Schedule(body_of(alloc, lines)?))
        };
        Ok(Change {
            number: self.number,
            key: Key::Schedule(self.key),
            act,
        })
    }
}

/// Copies the lines, and allocates only the memory that they need. Returns an error if the
/// allocator refuses memory.
pub fn body_of(alloc: Global, lines: &[Line]) -> Result<Lines, AllocError>
    ensures { IfOk result (λ body. body ≡ lines.now) }
{
    let mut body = Vec::with_capacity(alloc, lines.len())?;
    body.extend_from_slice(lines)?;
    Ok(Lines::of(body))
}

/// The schedule that begins with this basic schedule, whose record number is given.
pub(crate) fn opened_schedule(number: u32, view: &Basic<'_>) -> Opened
    requires { is_first_line view.now ≡ true }
    ensures number { result.number ≡ number }
    ensures key { key_meant (Key.Schedule result.key) ≡ schedule_named view.now }
    ensures progress { HasLines (progress_meant result.progress) (view.now ∷ []) }
{
    Opened {
        number,
        key: schedule_key(view),
        progress: progress_after_basic(view),
    }
}

/// The key of the schedule that begins with this basic schedule.
fn schedule_key(view: &Basic<'_>) -> ScheduleKey
    ensures { key_meant (Key.Schedule result) ≡ schedule_named view.now }
{
    ScheduleKey {
        uid: view.uid(),
        runs_from: view.runs_from(),
        stp: view.stp(),
    }
}
