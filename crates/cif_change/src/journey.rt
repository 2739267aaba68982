//! A reader of the lines of one schedule.
ghost use Rattle.std.specs.Prelude.{◌≡◌, ℕ, IsTrue, IsOk, IsErr, IfErr, List, [], ◌∷◌, ◌++◌};
ghost use Rattle.cif_change.specs.JourneyRead.{HasLines, IsScheduleCause, JourneyState, JudgesLine, JudgesWhole, progress_meant};
ghost use Rattle.cif_change.specs.Cause.{cause_meant};

use crate::cause::FileCause;
use crate::progress::Progress;
use cif_line::Line;
use std::marker::Model;

/// A reader of the lines of one schedule: a basic schedule (BS), at most one record of extra
/// details (BX), and a journey. A journey goes from an origin (LO) through intermediate locations
/// (LI), with changes en route (CR), to a terminating location (LT).
#[derive(Debug, Drop)]
pub struct Journey {
    progress: Progress,
}

impl Model for Journey {
    ghost Value = { JourneyState };

    ghost view = { λ journey. progress_meant journey.progress };
}

impl Journey {
    /// A reader that hasn't taken a line yet.
    pub fn new() -> Journey
        ensures { HasLines result [] }
    {
        Journey {
            progress: Progress::new(),
        }
    }

    /// Takes the next line. Refuses the line if no schedule begins with the lines already taken and
    /// then this line. The cause is the first of the following causes that applies. `Kind`: no kind
    /// of record has the line's identity. `Place`: a record of the line's kind can't come next.
    /// `Field`: the line has a bad field, and the cause gives the first column of the leftmost bad
    /// field. `Midnights`: the schedule passes midnight for the third time. After the first line of
    /// a deletion, `Field` and `Midnights` don't apply. If the line is refused, nothing changes.
    pub fn line(&mut self, line: &Line) -> Result<(), FileCause>
        ensures ok { JudgesLine self.old line.now (IsOk result) }
        ensures read { (lines : List (List ℕ)) → HasLines self.old lines → IsOk result →
            HasLines self.new (lines ++ line.now ∷ []) }
        ensures err { (lines : List (List ℕ)) → HasLines self.old lines →
            IfErr result (λ cause. IsScheduleCause lines line.now (cause_meant cause)) }
        ensures unchanged { IsErr result → self.new ≡ self.old }
    {
        self.progress.take(line)
    }

    /// Whether the lines that were taken until now are a whole schedule.
    pub fn complete(&self) -> bool
        ensures { JudgesWhole self.now (IsTrue result) }
    {
        self.progress.complete()
    }
}
