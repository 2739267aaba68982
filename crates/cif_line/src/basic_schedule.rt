//! A basic schedule: a BS record, the first record of a schedule.
ghost use Rattle.std.specs.Prelude.{◌≡◌, ℕ, List};
ghost use Rattle.docker_model.specs.records.Record.{basic_schedule, columns, column, IsTextOfLength};
ghost use Rattle.docker_model.specs.records.Date.{date_number, end_number};
ghost use Rattle.cif_line.specs.View.{IsGood};
ghost use Rattle.cif_line.specs.FieldRead.{unless_deleted};
ghost use Rattle.cif_line.specs.Letter.{transaction_letter, stp_letter};

use crate::day::Day;
use crate::days::Days;
use crate::letter::{Stp, Transaction};
use crate::line::Line;
use crate::uid::Uid;
use crate::until::Until;
use std::marker::Model;

/// A view of a basic schedule (BS) whose checked fields are good. In a deletion neither the runs-to
/// date nor the days-run field is checked.
#[derive(Debug, Drop)]
pub struct Basic<'a> {
    line: &'a Line,
}

impl<'a> Model for Basic<'a> {
    ghost Value = { List ℕ };

    ghost view = { λ basic. basic.line.now };

    ghost invariant = { λ basic. IsGood basic_schedule basic.line.now };
}

#[tactic(auto, using(crate::proofs::GoodFields::basic_fields))]
impl<'a> Basic<'a> {
    /// Makes a view of a line whose fields have already been checked.
    pub(crate) fn of(line: &'a Line) -> Basic<'a>
        requires good { IsGood basic_schedule line.now }
        ensures line { result ≡ line.entry.now }
    {
        Basic { line }
    }

    /// The line of the record.
    pub fn line(&self) -> &'a Line
        ensures line { result.now ≡ self.now }
        ensures good { IsGood basic_schedule self.now }
    {
        self.line
    }

    /// The transaction: column 3.
    pub fn transaction(&self) -> Transaction
        ensures { transaction_letter result ≡ column 3 self.now }
    {
        self.line.transaction()
    }

    /// The UID of the train: columns 4 to 9.
    pub fn uid(&self) -> Uid
        ensures { result ≡ columns 4 9 self.now }
    {
        self.line.uid(4)
    }

    /// The runs-from date, the first day on which the schedule runs: columns 10 to 15.
    pub fn runs_from(&self) -> Day
        ensures { result ≡ date_number (columns 10 15 self.now) }
    {
        self.line.day(10)
    }

    /// The runs-to date, the last day on which the schedule runs: columns 16 to 21. Returns `None`
    /// for a deletion.
    pub fn runs_to(&self) -> Option<Until>
        ensures { result ≡ unless_deleted self.now (end_number (columns 16 21 self.now)) }
    {
        self.line.end_unless_deleted(16)
    }

    /// The weekdays on which the schedule runs: columns 22 to 28. Returns `None` for a deletion.
    pub fn days(&self) -> Option<Days>
        ensures { result ≡ unless_deleted self.now (columns 22 28 self.now) }
    {
        self.line.days_unless_deleted(22)
    }

    /// The train identity: columns 33 to 36.
    pub fn identity(&self) -> &'a [u8; 4]
        ensures value { result.now ≡ columns 33 36 self.now }
        ensures text { IsTextOfLength 4 result.now }
    {
        self.line.field(33)
    }

    /// The STP indicator: column 80.
    pub fn stp(&self) -> Stp
        ensures { stp_letter result ≡ column 80 self.now }
    {
        self.line.stp()
    }
}
