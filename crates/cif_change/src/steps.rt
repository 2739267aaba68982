//! Takes the lines of a schedule, one after another, or refuses them.
ghost use Rattle.std.specs.Prelude.{◌≡◌, ◌==◌, ℕ, ◌↔◌, IsTrue, IsOk, IsErr, IfOk, IfErr, OnOk, Some, true, List, [], ◌∷◌};
ghost use Rattle.docker_model.specs.records.Record.{HasKind, IsRecord, basic_schedule, column};
ghost use Rattle.docker_model.specs.records.Field.{is_deletion};
ghost use Rattle.docker_model.specs.file.File.{follows_basic};
ghost use Rattle.cif_laws.specs.ScheduleStage.{is_sound_next, is_first_line};
ghost use Rattle.cif_laws.specs.RecordCause.{first_line_cause, field_cause};
ghost use Rattle.cif_line.specs.Kind.{meaning};
ghost use Rattle.cif_change.specs.JourneyRead.{HasLines, stage_meant, stage_then, is_over_by, progress_meant, Advances, JudgesLine, FaultsLine, JudgesWhole};
ghost use Rattle.cif_change.specs.Cause.{cause_meant};

use crate::cause::FileCause;
use crate::journey_times::{Clock, times_at};
use crate::progress::Progress;
use crate::stage::ScheduleStage;
use cif_line::{Basic, Kind, Line, Stp, Transaction, basic, kind};

/// How often a schedule may pass midnight.
const MOST_MIDNIGHTS: u8 = 2;

impl Progress {
    /// The progress before the first line.
    pub(crate) fn new() -> Progress
        ensures { HasLines (progress_meant result) [] }
    {
        Progress {
            stage: None,
            deletion: false,
            lacking: false,
            clock: Clock::new(),
        }
    }

    /// Whether the lines that were taken until now are a whole schedule.
    pub fn complete(self) -> bool
        ensures { JudgesWhole (progress_meant self) (IsTrue result) }
    {
        match self.stage {
            Some(stage) => stage.may_end(self.lacking),
            None => false,
        }
    }

    /// Whether the schedule is a deletion, according to its first line. Before the first line the
    /// result is false.
    pub fn is_deletion(self) -> bool
        ensures { result ≡ (progress_meant self).deletion }
    {
        self.deletion
    }

    /// Whether the journey is complete, so that no further line can belong to the schedule.
    pub fn is_over(self) -> bool
        ensures { result ≡ is_over_by (progress_meant self).stage }
    {
        match self.stage {
            Some(stage) => stage.is_over(),
            None => false,
        }
    }

    /// Takes the next line. If no schedule begins with the lines already taken and then this line,
    /// returns the cause and changes nothing.
    pub(crate) fn take(&mut self, line: &Line) -> Result<(), FileCause>
        ensures ok { JudgesLine (progress_meant self.old) line.now (IsOk result) }
        ensures read { OnOk result (Advances self.old line.now self.new) }
        ensures err { IfErr result (FaultsLine (progress_meant self.old) line.now) }
        ensures unchanged { IsErr result → self.new ≡ self.old }
    {
        let _record = line.bytes();
        match kind(line) {
            None => Err(FileCause::Kind),
            Some(kind) => self.advance(kind, line),
        }
    }

    /// Takes the next line, a record of this kind. If no schedule begins with the lines already
    /// taken and then this line, returns the cause and changes nothing.
    pub fn advance(&mut self, kind: Kind, line: &Line) -> Result<(), FileCause>
        requires record { IsRecord line.now }
        requires kind { HasKind (meaning kind) line.now }
        ensures ok { JudgesLine (progress_meant self.old) line.now (IsOk result) }
        ensures read { OnOk result (Advances self.old line.now self.new) }
        ensures err { IfErr result (FaultsLine (progress_meant self.old) line.now) }
        ensures unchanged { IsErr result → self.new ≡ self.old }
    {
        let Some(stage) = self.stage else {
            return self.begin(kind, line);
        };
        match stage.after(kind) {
            None => Err(FileCause::Place),
            Some(next) => self.advance_to(next, kind, line),
        }
    }

    /// Takes the first line, which must be a basic schedule with good fields. Otherwise returns the
    /// cause and changes nothing.
    fn begin(&mut self, kind: Kind, line: &Line) -> Result<(), FileCause>
        requires record { IsRecord line.now }
        requires kind { HasKind (meaning kind) line.now }
        ensures ok { IsOk result ↔ (is_first_line line.now ≡ true) }
        ensures read { OnOk result (HasLines (progress_meant self.new) (line.now ∷ [])) }
        ensures err { IfErr result (λ cause. cause_meant cause ≡ Some (first_line_cause line.now)) }
        ensures unchanged { IsErr result → self.new ≡ self.old }
    {
        match after_first_record(kind, line) {
            Ok(first) => {
                *self = first;
                Ok(())
            }
            Err(cause) => Err(cause),
        }
    }

    /// Takes a line after the first. The line's kind may come next, and `next` is the stage after
    /// the line. Refuses the line only for a bad field or the third midnight, and never refuses a
    /// line of a deletion.
    fn advance_to(&mut self, next: ScheduleStage, kind: Kind, line: &Line) -> Result<(), FileCause>
        requires record { IsRecord line.now }
        requires kind { HasKind (meaning kind) line.now }
        requires follows { follows_basic (Some (meaning kind)) ≡ true }
        requires stage { stage_then (progress_meant self.old).stage (Some (meaning kind)) ≡
            Some (stage_meant next) }
        ensures ok { (lines : List (List ℕ)) → HasLines (progress_meant self.old) lines →
            IsOk result ↔ (is_sound_next lines line.now ≡ true) }
        ensures read { OnOk result (Advances self.old line.now self.new) }
        ensures err { IfErr result (λ cause. cause_meant cause ≡ Some (field_cause line.now)) }
        ensures unchanged { IsErr result → self.new ≡ self.old }
    {
        if self.deletion {
            *self = Progress {
                stage: Some(next),
                deletion: self.deletion,
                lacking: self.lacking,
                clock: self.clock,
            };
            return Ok(());
        }
        let times = times_at(kind, line)?;
        let clock = self.clock.past(times);
        if clock.falls > MOST_MIDNIGHTS {
            return Err(FileCause::Midnights);
        }
        *self = Progress {
            stage: Some(next),
            deletion: self.deletion,
            lacking: self.lacking,
            clock,
        };
        Ok(())
    }
}

/// The progress after the first line. Returns the cause if the line isn't a basic schedule with
/// good fields.
fn after_first_record(kind: Kind, line: &Line) -> Result<Progress, FileCause>
    requires record { IsRecord line.now }
    requires kind { HasKind (meaning kind) line.now }
    ensures ok { IsOk result ↔ (is_first_line line.now ≡ true) }
    ensures read { IfOk result (λ progress. HasLines (progress_meant progress) (line.now ∷ [])) }
    ensures err { IfErr result (λ cause. cause_meant cause ≡ Some (first_line_cause line.now)) }
{
    match kind {
        Kind::BasicSchedule => progress_after_first_basic(line),
        _ => Err(FileCause::Place),
    }
}

/// The progress after a basic schedule as the first line. Returns the cause if the line has a bad
/// field.
fn progress_after_first_basic(line: &Line) -> Result<Progress, FileCause>
    requires record { IsRecord line.now }
    requires kind { HasKind basic_schedule line.now }
    ensures ok { IsOk result ↔ (is_first_line line.now ≡ true) }
    ensures read { IfOk result (λ progress. HasLines (progress_meant progress) (line.now ∷ [])) }
    ensures err { IfErr result (λ cause. cause_meant cause ≡ Some (first_line_cause line.now)) }
{
    let view = basic(line)?;
    Ok(progress_after_basic(&view))
}

/// The progress after a basic schedule with good fields as the first line.
pub fn progress_after_basic(view: &Basic<'_>) -> Progress
    requires { is_first_line view.now ≡ true }
    ensures { HasLines (progress_meant result) (view.now ∷ []) }
{
    let deletion = is_deletion(view);
    let cancellation = is_cancellation(view);
    Progress {
        stage: Some(ScheduleStage::AfterBasic),
        deletion,
        lacking: deletion || cancellation,
        clock: Clock::new(),
    }
}

/// Whether the basic schedule is a deletion: its transaction is `D`.
fn is_deletion(view: &Basic<'_>) -> bool
    ensures { result ≡ is_deletion view.now }
{
    match view.transaction() {
        Transaction::Delete => true,
        Transaction::New => false,
        Transaction::Revise => false,
    }
}

/// Whether the basic schedule is a cancellation: its STP indicator is `C`, so the train doesn't run
/// on the schedule's days.
fn is_cancellation(view: &Basic<'_>) -> bool
    ensures { result ≡ (column 80 view.now == 67) }
{
    match view.stp() {
        Stp::Cancellation => true,
        Stp::New => false,
        Stp::Overlay => false,
        Stp::Permanent => false,
    }
}
