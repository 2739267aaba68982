//! The reader of records: it takes one record after another, and refuses the first record that
//! can't come next in any CIF file.
ghost use Rattle.std.specs.Prelude.{◌≡◌, ℕ, ◌+◌, ◌↔◌, List, [], ◌∷◌, ◌++◌, length, IsOk, IfErr, OnOk, OnErr, MatchOption, Some, true, false, IsTrue};
ghost use Rattle.docker_model.specs.records.Record.{HasKind, IsRecord};
ghost use Rattle.docker_model.specs.file.File.{follows_basic, IsFile};
ghost use Rattle.cif_line.specs.Kind.{meaning};
ghost use Rattle.cif_change.specs.JourneyRead.{FaultsLine, JudgesLine, is_over_by, progress_meant};
ghost use Rattle.cif_file.specs.KeeperRead.{Closes};
ghost use Rattle.cif_file.specs.UnitRead.{IsUnitOf, IsOfSome};
ghost use Rattle.cif_file.specs.EndedRead.{IsEnded};
ghost use Rattle.cif_file.specs.RecordsRead.{HasRecords, StandsBefore, IsWholeBy, GoesOnTo, TakesLine, TakesNext, BeginsAnew, RefusesLine, RefusesUnended};

use crate::file::ended::Ended;
use crate::file::header_line::HeaderLine;
use crate::keeper::ChangeKeeper;
use crate::keeper::opened::{Opened, opened_schedule};
use crate::records::unit::{Unit, unit_of};
use cif_change::FileCause;
use cif_line::{Basic, Kind, Line, header, kind};
use std::alloc::AllocError;

/// How far the reader has come in a file. The stage determines which records may come next.
#[derive(Clone, Copy, PartialEq, Eq, Debug)]
pub(crate) enum FileStage {
    /// Nothing was read: the header must come next.
    BeforeHeader,
    /// The header or a whole unit was read: another unit or the trailer may come next.
    BetweenUnits,
    /// At least one line of this schedule was read, and the schedule may continue.
    InSchedule(Opened),
    /// The trailer was read: nothing may come next.
    AfterEnd,
}

impl FileStage {
    /// Adds one more line to the schedule that is being read. Returns the cause if the schedule
    /// can't continue with this line.
    fn advance(&mut self, kind: Kind, line: &Line) -> Result<(), FileCause>
        requires record { IsRecord line.now }
        requires kind { HasKind (meaning kind) line.now }
        ensures ok { (opened : Opened) → self.old ≡ FileStage.InSchedule opened →
            JudgesLine (progress_meant opened.progress) line.now (IsOk result) }
        ensures read { (opened : Opened) → self.old ≡ FileStage.InSchedule opened →
            OnOk result (GoesOnTo opened line.now self.new) }
        ensures err { (opened : Opened) → self.old ≡ FileStage.InSchedule opened →
            IfErr result (FaultsLine (progress_meant opened.progress) line.now) }
    {
        match self {
            FileStage::InSchedule(opened) => opened.advance(kind, line),
            _ => Err(FileCause::Place),
        }
    }

    /// The schedule that is being read, if its terminus was read. A schedule has no line after its
    /// terminus.
    fn over(&self) -> Option<Opened>
        ensures { (opened : Opened) → self.now ≡ FileStage.InSchedule opened →
            MatchOption result (is_over_by (progress_meant opened.progress).stage ≡ false)
            (λ over. (over ≡ opened) ×
            (is_over_by (progress_meant opened.progress).stage ≡ true)) }
    {
        match self {
            FileStage::InSchedule(opened) => opened.over(),
            _ => None,
        }
    }
}

/// What the reader remembers of the records that it has taken: the stage, the header, and what the
/// keeper has kept.
#[derive(Debug, Drop)]
pub(crate) struct Front<K> {
    header: Option<HeaderLine>,
    stage: FileStage,
    keeper: K,
}

/// Whether records of this kind come within a schedule, after its basic schedule.
fn follows_basic(kind: Kind) -> bool
    ensures { result ≡ follows_basic (Some (meaning kind)) }
{
    match kind {
        Kind::ExtraDetails => true,
        Kind::OriginLocation => true,
        Kind::IntermediateLocation => true,
        Kind::TerminatingLocation => true,
        Kind::ChangeEnRoute => true,
        _ => false,
    }
}

impl<K: ChangeKeeper> Front<K> {
    /// Makes a reader that has read no record.
    pub(crate) fn new(keeper: K) -> Front<K>
        requires { K.keeps keeper [] [] }
        ensures { HasRecords K.keeps result [] }
    {
        Front {
            header: None,
            stage: FileStage::BeforeHeader,
            keeper,
        }
    }

    /// Whether the trailer was read, so that the records are a whole file.
    pub(crate) fn is_ended(&self) -> bool
        ensures { (records : List (List ℕ)) → HasRecords K.keeps self.now records →
            IsTrue result ↔ IsFile records }
    {
        match self.stage {
            FileStage::BeforeHeader => false,
            FileStage::BetweenUnits => false,
            FileStage::InSchedule(_) => false,
            FileStage::AfterEnd => true,
        }
    }

    /// The whole file, if the trailer was read. `count` must be the number of records that were
    /// taken.
    pub(crate) fn into_ended(self, count: u32) -> Option<Ended<K>>
        ensures { (records : List (List ℕ)) → HasRecords K.keeps self records →
            count ≡ length records → MatchOption result (¬ IsFile records)
            (λ ended. IsFile records × IsEnded K.keeps records ended) }
    {
        let Front {
            header,
            stage,
            keeper,
        } = self;
        match stage {
            FileStage::AfterEnd => match header {
                Some(header) => Some(Ended {
                    header,
                    records: count,
                    keeper,
                }),
                None => None,
            },
            FileStage::BeforeHeader => None,
            FileStage::BetweenUnits => None,
            FileStage::InSchedule(_) => None,
        }
    }

    /// Takes the next record, which has the given number. Returns the cause if no file begins with
    /// the earlier records and then this record, or if memory runs out.
    pub(crate) fn take(&mut self, number: u32, line: &Line) -> Result<(), FileCause>
        ensures read { OnOk result (TakesNext K.keeps self.old number line.now self.new) }
        ensures err { IfErr result (RefusesUnended K.keeps K.wants self.old line.now) }
    {
        let _record = line.bytes();
        let Some(kind) = kind(line) else {
            return Err(FileCause::Kind);
        };
        match self.stage {
            FileStage::BeforeHeader => self.take_header(kind, line),
            FileStage::BetweenUnits => self.take_unit(number, kind, line),
            FileStage::InSchedule(opened) => self.take_after(number, opened, kind, line),
            FileStage::AfterEnd => Err(FileCause::After),
        }
    }

    /// Takes the first record, which must be a header with good fields.
    fn take_header(&mut self, kind: Kind, line: &Line) -> Result<(), FileCause>
        requires stage { self.old.stage ≡ FileStage.BeforeHeader }
        requires record { IsRecord line.now }
        requires kind { HasKind (meaning kind) line.now }
        ensures read { OnOk result (TakesLine K.keeps self.old line.now self.new) }
        ensures err { IfErr result (RefusesLine K.keeps K.wants self.old line.now) }
    {
        let Kind::Header = kind else {
            return Err(FileCause::Place);
        };
        let view = header(line)?;
        self.header = Some(HeaderLine::of(&view));
        self.stage = FileStage::BetweenUnits;
        Ok(())
    }

    /// Takes a record that follows the header or a whole unit.
    fn take_unit(&mut self, number: u32, kind: Kind, line: &Line) -> Result<(), FileCause>
        requires stage { self.old.stage ≡ FileStage.BetweenUnits }
        requires record { IsRecord line.now }
        requires kind { HasKind (meaning kind) line.now }
        ensures read { OnOk result (TakesNext K.keeps self.old number line.now self.new) }
        ensures err { IfErr result (RefusesLine K.keeps K.wants self.old line.now) }
    {
        let unit = unit_of(kind, line)?;
        self.add_unit(number, unit)?;
        Ok(())
    }

    /// Takes a record that follows a line of a schedule.
    fn take_after(
        &mut self,
        number: u32,
        opened: Opened,
        kind: Kind,
        line: &Line,
    ) -> Result<(), FileCause>
        requires stage { self.old.stage ≡ FileStage.InSchedule opened }
        requires record { IsRecord line.now }
        requires kind { HasKind (meaning kind) line.now }
        ensures read { OnOk result (TakesNext K.keeps self.old number line.now self.new) }
        ensures err { IfErr result (RefusesLine K.keeps K.wants self.old line.now) }
    {
        if follows_basic(kind) {
            return self.follow(kind, line);
        }
        if !opened.progress.complete() {
            return Err(FileCause::Place);
        }
        let unit = unit_of(kind, line)?;
        self.begin_anew(number, opened, unit)?;
        Ok(())
    }

    /// Takes a record of a kind that comes within a schedule.
    fn follow(&mut self, kind: Kind, line: &Line) -> Result<(), FileCause>
        requires record { IsRecord line.now }
        requires kind { HasKind (meaning kind) line.now }
        requires follows { follows_basic (Some (meaning kind)) ≡ true }
        ensures read { (opened : Opened) → self.old.stage ≡ FileStage.InSchedule opened →
            OnOk result (TakesLine K.keeps self.old line.now self.new) }
        ensures err { (opened : Opened) → self.old.stage ≡ FileStage.InSchedule opened →
            IfErr result (RefusesLine K.keeps K.wants self.old line.now) }
    {
        if let Err(cause) = self.stage.advance(kind, line) {
            return Err(cause);
        }
        match self.add_line(line) {
            Ok(()) => Ok(()),
            Err(_) => Err(FileCause::Memory),
        }
    }

    /// Passes the next line of the schedule to the keeper.
    fn add_line(&mut self, line: &Line) -> Result<(), AllocError>
        ensures read { (opened : Opened) → self.old.stage ≡ FileStage.InSchedule opened →
            (records : List (List ℕ)) →
            StandsBefore K.keeps self.old opened line.now records →
            OnOk result (HasRecords K.keeps self.new (records ++ line.now ∷ [])) }
        ensures wants { OnErr result K.wants }
    {
        self.keeper.add_line(line)?;
        match self.stage.over() {
            Some(opened) => self.close(opened),
            None => Ok(()),
        }
    }

    /// Ends a schedule whose lines are complete: the keeper makes the schedule's change.
    fn close(&mut self, opened: Opened) -> Result<(), AllocError>
        ensures kept { OnOk result (Closes K.keeps self.old.keeper opened self.new.keeper) }
        ensures wants { OnErr result K.wants }
        ensures stage { OnOk result (self.new.stage ≡ FileStage.BetweenUnits) }
        ensures header { self.new.header ≡ self.old.header }
    {
        self.keeper.close(opened)?;
        self.stage = FileStage::BetweenUnits;
        Ok(())
    }

    /// Ends a schedule whose lines are complete, and then takes the record after it, which begins
    /// another unit.
    fn begin_anew(&mut self, number: u32, opened: Opened, unit: Unit<'_>) -> Result<(), AllocError>
        requires stage { self.old.stage ≡ FileStage.InSchedule opened }
        requires unit { IsOfSome unit }
        ensures read { (line : List ℕ) → IsUnitOf line unit.entry → IsWholeBy opened →
            OnOk result (TakesNext K.keeps self.old number line self.new) }
        ensures wants { OnErr result K.wants }
    {
        self.close(opened)?;
        self.add_unit(number, unit)
    }

    /// Takes a record that begins a unit, or the trailer.
    fn add_unit(&mut self, number: u32, unit: Unit<'_>) -> Result<(), AllocError>
        requires { IsOfSome unit }
        ensures read { (line : List ℕ) → IsUnitOf line unit.entry →
            OnOk result (BeginsAnew K.keeps self.old number line self.new) }
        ensures wants { OnErr result K.wants }
    {
        match unit {
            Unit::Single(single) => {
                self.stage = FileStage::BetweenUnits;
                self.keeper.add_single(number, &single)
            }
            Unit::Schedule(view) => self.open(number, &view),
            Unit::Trailer => {
                self.stage = FileStage::AfterEnd;
                Ok(())
            }
        }
    }

    /// Takes a basic schedule, with which a schedule begins.
    fn open(&mut self, number: u32, view: &Basic<'_>) -> Result<(), AllocError>
        requires { IsUnitOf view.now (Unit.Schedule view.now) }
        ensures read { OnOk result (BeginsAnew K.keeps self.old number view.now self.new) }
        ensures wants { OnErr result K.wants }
    {
        let opened = opened_schedule(number, view);
        self.keeper.begin(view)?;
        self.stage = FileStage::InSchedule(opened);
        Ok(())
    }
}
