//! An association between two trains: an AA record.
ghost use Rattle.std.specs.Prelude.{◌≡◌, ℕ, List};
ghost use Rattle.docker_model.specs.records.Record.{association, columns, column, IsTextOfLength};
ghost use Rattle.docker_model.specs.records.Date.{date_number, end_number};
ghost use Rattle.cif_line.specs.View.{IsGood};
ghost use Rattle.cif_line.specs.FieldRead.{unless_deleted};
ghost use Rattle.cif_line.specs.Letter.{transaction_letter, stp_letter};

use crate::day::Day;
use crate::days::Days;
use crate::letter::{Stp, Transaction};
use crate::line::Line;
use crate::tiploc_code::Tiploc;
use crate::uid::Uid;
use crate::until::Until;
use std::marker::Model;

/// A view of an association (AA) whose checked fields are good. In a deletion neither the end date
/// nor the days-run field is checked.
#[derive(Debug, Drop)]
pub struct Assoc<'a> {
    line: &'a Line,
}

impl<'a> Model for Assoc<'a> {
    ghost Value = { List ℕ };

    ghost view = { λ assoc. assoc.line.now };

    ghost invariant = { λ assoc. IsGood association assoc.line.now };
}

#[tactic(auto, using(crate::proofs::GoodFields::assoc_fields))]
impl<'a> Assoc<'a> {
    /// Makes a view of a line whose fields have already been checked.
    pub(crate) fn of(line: &'a Line) -> Assoc<'a>
        requires good { IsGood association line.now }
        ensures line { result ≡ line.entry.now }
    {
        Assoc { line }
    }

    /// The line of the record.
    pub fn line(&self) -> &'a Line
        ensures line { result.now ≡ self.now }
        ensures good { IsGood association self.now }
    {
        self.line
    }

    /// The transaction: column 3.
    pub fn transaction(&self) -> Transaction
        ensures { transaction_letter result ≡ column 3 self.now }
    {
        self.line.transaction()
    }

    /// The UID of the base train: columns 4 to 9.
    pub fn base(&self) -> Uid
        ensures { result ≡ columns 4 9 self.now }
    {
        self.line.uid(4)
    }

    /// The UID of the associated train: columns 10 to 15.
    pub fn associated(&self) -> Uid
        ensures { result ≡ columns 10 15 self.now }
    {
        self.line.uid(10)
    }

    /// The first start day of the base train on which the association may apply: columns 16 to 21.
    pub fn start(&self) -> Day
        ensures { result ≡ date_number (columns 16 21 self.now) }
    {
        self.line.day(16)
    }

    /// The last start day of the base train on which the association may apply: columns 22 to 27.
    /// Returns `None` for a deletion.
    pub fn end(&self) -> Option<Until>
        ensures { result ≡ unless_deleted self.now (end_number (columns 22 27 self.now)) }
    {
        self.line.end_unless_deleted(22)
    }

    /// The weekdays on which the base train must start for the association to apply: columns 28 to
    /// 34. Returns `None` for a deletion.
    pub fn days(&self) -> Option<Days>
        ensures { result ≡ unless_deleted self.now (columns 28 34 self.now) }
    {
        self.line.days_unless_deleted(28)
    }

    /// The association category, such as `JJ`, `VV` or `NP`: columns 35 and 36.
    pub fn category(&self) -> &'a [u8; 2]
        ensures value { result.now ≡ columns 35 36 self.now }
        ensures text { IsTextOfLength 2 result.now }
    {
        self.line.field(35)
    }

    /// The date indicator, such as `S`, `N` or `P`: column 37.
    pub fn date_indicator(&self) -> u8
        ensures { result ≡ column 37 self.now }
    {
        self.line.column(37)
    }

    /// The TIPLOC at which the trains are associated: columns 38 to 44.
    pub fn location(&self) -> Tiploc
        ensures { result ≡ columns 38 44 self.now }
    {
        self.line.tiploc(38)
    }

    /// The suffix of the base train's call at the association's TIPLOC: column 45.
    pub fn base_suffix(&self) -> u8
        ensures { result ≡ column 45 self.now }
    {
        self.line.column(45)
    }

    /// The suffix of the associated train's call at the association's TIPLOC: column 46.
    pub fn associated_suffix(&self) -> u8
        ensures { result ≡ column 46 self.now }
    {
        self.line.column(46)
    }

    /// The STP indicator: column 80.
    pub fn stp(&self) -> Stp
        ensures { stp_letter result ≡ column 80 self.now }
    {
        self.line.stp()
    }
}
