//! Numbers the records of a file and checks the limit on their number.
ghost use Rattle.std.specs.Prelude.{◌≤◌};

pub(crate) mod front;
pub(crate) mod unit;

use crate::fault::FileFault;
use crate::file::ended::Ended;
use crate::keeper::ChangeKeeper;
use crate::read::next_record::{line_of, take_within};
use crate::records::front::Front;
use cif_change::FileCause;
use cif_line::Line;

/// The greatest number of records that a file may have. A caller's limit can't be higher.
pub const MOST_RECORDS: u32 = 4_294_967_294;

/// The records that were read until now, with the number of the next record and the limit on
/// records.
#[derive(Debug, Drop)]
pub(crate) struct Records<K> {
    limit: u32,
    next: u32,
    front: Front<K>,
    ghost room: { limit ≤ 4294967294 },
    ghost first: { 1 ≤ next },
}

impl<K: ChangeKeeper> Records<K> {
    ghost use Rattle.std.specs.Prelude.{ℕ, ◌+◌, ◌≤◌, ◌<◌, List, [], IfOk, IfErr, OnOk, Some};
    ghost use Rattle.cif_change.specs.Cause.{cause_meant};
    ghost use Rattle.cif_file.specs.ParserRead.{HasCounted, CountsNext, FaultsNext, IsLongNext, IsRefusedNext, EndsCounted, EndsUnended};

    /// Makes a reader that has read no record. The file may have at most `limit` records.
    pub(crate) fn new(keeper: K, limit: u32) -> Records<K>
        requires limit { limit ≤ MOST_RECORDS }
        requires none { K.keeps keeper [] [] }
        ensures { HasCounted K.keeps result limit [] }
    {
        Records {
            limit,
            next: 1,
            front: Front::new(keeper),
        }
    }

    /// Takes the next line, given without its line end.
    pub(crate) fn take(&mut self, bytes: &[u8]) -> Result<(), FileFault>
        ensures read { OnOk result (CountsNext K.keeps self.old bytes.now self.new) }
        ensures err { IfErr result (FaultsNext K.keeps K.wants self.old bytes.now) }
    {
        match line_of(bytes) {
            Ok(line) => self.take_line(&line),
            Err(cause) => Err(self.refused(cause)),
        }
    }

    /// Takes the next line, whose length and bytes have already been checked.
    pub(crate) fn take_line(&mut self, line: &Line) -> Result<(), FileFault>
        ensures read { OnOk result (CountsNext K.keeps self.old line.now self.new) }
        ensures err { IfErr result (FaultsNext K.keeps K.wants self.old line.now) }
    {
        let number = self.next;
        if number > self.limit {
            return Err(FileFault {
                number,
                cause: FileCause::TooMany,
            });
        }
        match take_within(&mut self.front, number, line) {
            Ok(()) => {
                self.next = number + 1;
                Ok(())
            }
            Err(cause) => Err(FileFault { number, cause }),
        }
    }

    /// The fault at the next line if this line has more than 81 bytes.
    pub(crate) fn too_long(&self) -> FileFault
        ensures { (limit : ℕ) (records : List (List ℕ)) →
            HasCounted K.keeps self.now limit records →
            IsLongNext limit records result }
    {
        self.refused(FileCause::Length)
    }

    /// The fault at the next line, which isn't a record. `cause` says why. If the number of the
    /// line is above the limit, the cause of the fault is `TooMany` instead. If the line comes
    /// after the trailer, the cause is `After`.
    fn refused(&self, cause: FileCause) -> FileFault
        ensures { (limit : ℕ) (records : List (List ℕ)) →
            HasCounted K.keeps self.now limit records →
            IsRefusedNext limit records (cause_meant cause) result }
    {
        let first = if self.next > self.limit {
            FileCause::TooMany
        } else if self.front.is_ended() {
            FileCause::After
        } else {
            cause
        };
        FileFault {
            number: self.next,
            cause: first,
        }
    }

    /// Ends the input. Returns the file, or the fault `NoEnd` if there is no trailer.
    pub(crate) fn finish(self) -> Result<Ended<K>, FileFault>
        ensures ok { IfOk result (EndsCounted K.keeps self) }
        ensures err { IfErr result (EndsUnended K.keeps self) }
    {
        let Records { next, front, .. } = self;
        match front.into_ended(next - 1) {
            Some(ended) => Ok(ended),
            None => Err(FileFault {
                number: next,
                cause: FileCause::NoEnd,
            }),
        }
    }
}
