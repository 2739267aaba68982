//! The parser of a CIF file that arrives in pieces.
ghost use Rattle.std.specs.Prelude.{◌≡◌, ◌≢◌, ◌+◌, ◌-◌, ◌^◌, ◌<◌, ◌≤◌, ◌↔◌, length, IsTrue, [], ◌∷◌, ◌++◌, IsOk, IfOk, IfErr, OnOk, Err};
ghost use Rattle.docker_model.specs.records.Record.{HasKind, IsRecord, trailer};
ghost use Rattle.cif_laws.specs.CompleteLines.{HasNoFeed};
ghost use Rattle.cif_file.specs.ParserRead.{HasRead, HasFailed, HasNotFailed, IsReading, EndsBy, IsLater, NamesLater, IsLast};
ghost use Rattle.cif_file.specs.ParserRead.{NamesLast, GoesOn, TakesUpTo, TellsFault, TellsNoFault, EndsAs, EndsInFault};

use crate::fault::FileFault;
use crate::file::CifFile;
use crate::file::ended::Ended;
use crate::keeper::ChangeKeeper;
use crate::keeper::kept::FileSoFar;
use crate::read::next_record::is_trailer;
use crate::read::text::{split_eighty, split_line, without_return};
use crate::records::{MOST_RECORDS, Records};
use arrayvec::ArrayVec;
use cif_change::FileCause;
use cif_line::Line;
use std::alloc::Global;
use std::marker::Model;

/// How many bytes of a line are kept until its line feed arrives: a record and a carriage return.
const MOST_PARTIAL: usize = 81;

/// What was read of a file: its complete records, and the bytes of a line that hasn't ended yet.
#[derive(Debug, Drop)]
pub(crate) struct FileReading<K> {
    records: Records<K>,
    partial: ArrayVec<u8, MOST_PARTIAL>,
}

/// Appends bytes to a line that hasn't ended yet. Returns false, and appends nothing, if they don't
/// fit.
fn extend(partial: &mut ArrayVec<u8, MOST_PARTIAL>, more: &[u8]) -> bool
    ensures fits { IsTrue result ↔ (length partial.old.items + length more.now ≤ 81) }
    ensures items { IsTrue result → partial.new.items ≡ partial.old.items ++ more.now }
{
    partial.try_extend_from_slice(more).is_ok()
}

/// The fault of a text whose last line is refused with the given fault. If memory runs out at a last
/// line that isn't the trailer, the text lacks its trailer, so its fault is `NoEnd` after this line.
fn fault_at_end(fault: FileFault, line: &[u8]) -> FileFault
    ensures other { fault.cause ≢ FileCause.Memory → result ≡ fault }
    ensures trailer { HasKind trailer line.now → IsRecord line.now → result ≡ fault }
    ensures cut { fault.cause ≡ FileCause.Memory → IsRecord line.now →
        ¬ HasKind trailer line.now → fault.number < 2 ^ 32 - 1 →
        result ≡ record { number = fault.number + 1; cause = FileCause.NoEnd } }
{
    match fault.cause {
        FileCause::Memory => {
            if is_trailer(line) {
                return fault;
            }
            FileFault {
                number: fault.number.saturating_add(1),
                cause: FileCause::NoEnd,
            }
        }
        _ => fault,
    }
}

impl<K: ChangeKeeper> FileReading<K> {
    /// Makes a reader that has read no byte. The file may have at most `limit` records.
    pub(crate) fn new(keeper: K, limit: u32) -> FileReading<K>
        requires limit { limit ≤ MOST_RECORDS }
        requires none { K.keeps keeper [] [] }
        ensures { IsReading K.keeps result limit [] }
    {
        FileReading {
            records: Records::new(keeper, limit),
            partial: ArrayVec::new(),
        }
    }

    /// Takes the last bytes of a line, which are followed by its line feed.
    fn end_line(&mut self, front: &[u8]) -> Result<(), FileFault>
        requires { HasNoFeed front.now }
        ensures read { OnOk result
            (GoesOn (IsReading K.keeps self.old) (front.now ++ 10 ∷ [])
            (IsReading K.keeps self.new)) }
        ensures err { IfErr result
            (TellsFault (IsReading K.keeps self.old) (front.now ++ 10 ∷ [])) }
        ensures later { IfErr result (IsLater K.keeps K.wants self.old) }
    {
        if self.partial.is_empty() {
            return self.records.take(without_return(front));
        }
        if !extend(&mut self.partial, front) {
            return Err(self.records.too_long());
        }
        let taken = self.records.take(without_return(self.partial.as_slice()));
        self.partial.clear();
        taken
    }

    /// Takes further bytes of a line that hasn't ended yet.
    fn keep(&mut self, more: &[u8]) -> Result<(), FileFault>
        requires { HasNoFeed more.now }
        ensures read { OnOk result
            (GoesOn (IsReading K.keeps self.old) more.now (IsReading K.keeps self.new)) }
        ensures err { IfErr result (TellsFault (IsReading K.keeps self.old) more.now) }
        ensures later { IfErr result (IsLater K.keeps K.wants self.old) }
    {
        if !extend(&mut self.partial, more) {
            return Err(self.records.too_long());
        }
        Ok(())
    }

    /// Takes all records that are complete at the start of the text, each with its line end, and
    /// returns the rest of the text. Takes none if an earlier line hasn't ended yet, since the text
    /// then continues that line.
    fn take_records<'a>(&mut self, text: &'a [u8]) -> Result<&'a [u8], FileFault>
        ensures read { IfOk result (λ rest. TakesUpTo
            (IsReading K.keeps self.old) text.now rest.now (IsReading K.keeps self.new)) }
        ensures err { IfErr result (TellsFault (IsReading K.keeps self.old) text.now) }
        ensures later { IfErr result (IsLater K.keeps K.wants self.old) }
    {
        if !self.partial.is_empty() {
            return Ok(text);
        }
        let mut rest = text;
        while let Some((front, behind)) = split_eighty(rest) {
            let Some(line) = Line::of(front) else {
                return Ok(rest);
            };
            self.records.take_line(&line)?;
            rest = behind;
        }
        Ok(rest)
    }

    /// Takes the next piece of the file.
    pub(crate) fn feed(&mut self, piece: &[u8]) -> Result<(), FileFault>
        ensures read { OnOk result
            (GoesOn (IsReading K.keeps self.old) piece.now (IsReading K.keeps self.new)) }
        ensures err { IfErr result (TellsFault (IsReading K.keeps self.old) piece.now) }
        ensures later { IfErr result (IsLater K.keeps K.wants self.old) }
    {
        let mut rest = self.take_records(piece)?;
        while let Some((front, behind)) = split_line(rest) {
            self.end_line(front)?;
            rest = self.take_records(behind)?;
        }
        self.keep(rest)
    }

    /// Ends the input. Returns the file, or the fault of the bytes that were read.
    pub(crate) fn end(self) -> Result<Ended<K>, FileFault>
        ensures ok { IfOk result (EndsBy K.keeps self) }
        ensures err { IfErr result (EndsInFault (IsReading K.keeps self)) }
        ensures later { IfErr result (IsLater K.keeps K.wants self) }
        ensures last { IfErr result (IsLast K.keeps self) }
    {
        let FileReading {
            mut records,
            partial,
        } = self;
        if partial.is_empty() {
            return records.finish();
        }
        let line = without_return(partial.as_slice());
        match records.take(line) {
            Ok(()) => records.finish(),
            Err(fault) => Err(fault_at_end(fault, line)),
        }
    }
}

/// A parser of one file, which arrives in pieces of any length. It keeps the changes of the records
/// that were read until now, and the bytes of a line that hasn't ended yet.
#[derive(Debug, Drop)]
pub struct FileParser {
    reading: FileReading<FileSoFar>,
    fault: Option<FileFault>,
}

impl Model for FileParser {
    ghost use Rattle.cif_file.specs.ParserRead.{ParserState, WasFed};

    ghost Value = { ParserState };

    ghost view = { λ parser. record { reading = parser.reading; fault = parser.fault } };

    ghost invariant = { λ parser.
        WasFed (record { reading = parser.reading; fault = parser.fault }) };
}

impl FileParser {
    /// Makes a parser for a file with at most `limit` records. The limit is at most
    /// [`MOST_RECORDS`].
    pub fn new(alloc: Global, limit: u32) -> FileParser
        requires { limit ≤ MOST_RECORDS }
        ensures { HasRead result limit [] }
    {
        FileParser {
            reading: FileReading::new(FileSoFar::new(alloc), limit),
            fault: None,
        }
    }

    /// Takes the next piece of the file. Returns the fault at a bad record once the record's line
    /// feed or its 82nd byte has arrived. If memory runs out, returns `Memory` at the record that
    /// needed it, and no record up to this one is at fault. In both cases the earlier pieces don't
    /// contain the whole record. After a fault, each later call returns the same fault and takes
    /// nothing.
    pub fn feed(&mut self, piece: &[u8]) -> Result<(), FileFault>
        ensures read { GoesOn (HasRead self.old) piece.now (HasRead self.new) }
        ensures ok { OnOk result (TellsNoFault (HasRead self.old) piece.now) }
        ensures err { IfErr result (TellsFault (HasRead self.old) piece.now) }
        ensures later { IfErr result (NamesLater self.old) }
        ensures clean { IsOk result → HasNotFailed self.new }
        ensures failed { IfErr result (λ fault. HasFailed self.new fault) }
        ensures again { (fault : _) → HasFailed self.old fault → result ≡ Err fault }
        ensures unchanged { (fault : _) → HasFailed self.old fault → self.new ≡ self.old }
    {
        if let Some(fault) = self.fault {
            return Err(fault);
        }
        match self.reading.feed(piece) {
            Ok(()) => Ok(()),
            Err(fault) => {
                self.fault = Some(fault);
                Err(fault)
            }
        }
    }

    /// Ends the input. Returns the file that the pieces form, or the fault of their text. If no
    /// record is at fault, memory may still run out at the last record. A fault that `feed` has
    /// returned is returned again.
    pub fn finish(self) -> Result<CifFile, FileFault>
        ensures ok { IfOk result (EndsAs (HasRead self)) }
        ensures err { IfErr result (EndsInFault (HasRead self)) }
        ensures later { IfErr result (NamesLater self) }
        ensures last { IfErr result (NamesLast self) }
        ensures again { (fault : _) → HasFailed self fault → result ≡ Err fault }
    {
        match self.fault {
            Some(fault) => Err(fault),
            None => match self.reading.end() {
                Ok(ended) => Ok(ended.into_file()),
                Err(fault) => Err(fault),
            },
        }
    }
}
