//! Readers of fields that several kinds of record share. Each reader must be called only on a line
//! whose field is known to be good.
ghost use Rattle.std.specs.Prelude.{◌≡◌, ◌<◌, ◌≤◌, [], ◌∷◌, true, false};
ghost use Rattle.docker_model.specs.records.Record.{column};
ghost use Rattle.docker_model.specs.records.Date.{is_date, date_number, is_end_date, end_number, is_days};
ghost use Rattle.docker_model.specs.records.Clock.{is_present_time, half_minutes, is_scheduled_time, scheduled_time, is_public_time};
ghost use Rattle.docker_model.specs.records.Field.{is_tiploc, is_transaction, is_stp_letter, is_deletion};
ghost use Rattle.docker_model.specs.records.PrintedTime.{shown_public};
ghost use Rattle.cif_line.specs.FieldRead.{field_at, unless_deleted, public_half_minutes, public_text};
ghost use Rattle.cif_line.specs.Letter.{transaction_letter, stp_letter};

use crate::day::Day;
use crate::days::Days;
use crate::letter::{Stp, Transaction};
use crate::line::Line;
use crate::time::Time;
use crate::tiploc_code::Tiploc;
use crate::uid::Uid;
use crate::until::Until;

impl Line {
    /// The TIPLOC in the seven columns that begin at `first`.
    pub fn tiploc(&self, first: usize) -> Tiploc
        requires from { 0 < first }
        requires within { first ≤ 74 }
        requires good { is_tiploc (field_at first 7 self.now) ≡ true }
        ensures { result ≡ field_at first 7 self.now }
    {
        match Tiploc::from_field(self.field(first)) {
            Some(tiploc) => tiploc,
            None => unreachable!(),
        }
    }

    /// The scheduled time in the five columns that begin at `first`. The columns must not be blank.
    pub fn present_time(&self, first: usize) -> Time
        requires from { 0 < first }
        requires within { first ≤ 76 }
        requires good { is_present_time (field_at first 5 self.now) ≡ true }
        ensures { result ≡ half_minutes (field_at first 5 self.now) }
    {
        Time::from_present(self.field(first))
    }

    /// The scheduled time in the five columns that begin at `first`. Returns `None` if they are
    /// blank.
    pub fn scheduled_time(&self, first: usize) -> Option<Time>
        requires from { 0 < first }
        requires within { first ≤ 76 }
        requires good { is_scheduled_time (field_at first 5 self.now) ≡ true }
        ensures { result ≡ scheduled_time (field_at first 5 self.now) }
    {
        Time::from_scheduled(self.field(first))
    }

    /// The public time, a whole minute, in the four columns that begin at `first`. Returns `None`
    /// if they are blank or `0000`.
    pub fn public_time(&self, first: usize) -> Option<Time>
        requires from { 0 < first }
        requires within { first ≤ 77 }
        requires good { is_public_time (field_at first 4 self.now) ≡ true }
        ensures value { result ≡ public_half_minutes (field_at first 4 self.now) }
        ensures shown { shown_public (field_at first 4 self.now) ≡ public_text result }
    {
        Time::from_public(self.field(first))
    }

    /// The UID in the six columns that begin at `first`.
    pub fn uid(&self, first: usize) -> Uid
        requires from { 0 < first }
        requires within { first ≤ 75 }
        ensures { result ≡ field_at first 6 self.now }
    {
        match Uid::from_field(self.field(first)) {
            Some(uid) => uid,
            None => unreachable!(),
        }
    }

    /// The day in the six columns that begin at `first`, written YYMMDD.
    pub fn day(&self, first: usize) -> Day
        requires from { 0 < first }
        requires within { first ≤ 75 }
        requires good { is_date (field_at first 6 self.now) ≡ true }
        ensures { result ≡ date_number (field_at first 6 self.now) }
    {
        Day::of_date(self.field(first))
    }

    /// The end date in the six columns that begin at `first`. Returns `None` if the transaction is
    /// a deletion.
    pub fn end_unless_deleted(&self, first: usize) -> Option<Until>
        requires from { 0 < first }
        requires within { first ≤ 75 }
        requires good { is_deletion self.now ≡ false →
            is_end_date (field_at first 6 self.now) ≡ true }
        ensures { result ≡ unless_deleted self.now (end_number (field_at first 6 self.now)) }
    {
        if self.is_deletion() {
            return None;
        }
        Some(Until::of_end_date(self.field(first)))
    }

    /// The weekdays in the seven columns that begin at `first`. Returns `None` if the transaction
    /// is a deletion.
    pub fn days_unless_deleted(&self, first: usize) -> Option<Days>
        requires from { 0 < first }
        requires within { first ≤ 74 }
        requires good { is_deletion self.now ≡ false → is_days (field_at first 7 self.now) ≡ true }
        ensures { result ≡ unless_deleted self.now (field_at first 7 self.now) }
    {
        if self.is_deletion() {
            return None;
        }
        Some(Days::of_flags(self.field(first)))
    }

    /// Whether the transaction is a deletion: column 3 is `D`.
    pub fn is_deletion(&self) -> bool
        ensures { result ≡ is_deletion self.now }
    {
        self.column(3) == b'D'
    }

    /// The transaction: column 3.
    pub fn transaction(&self) -> Transaction
        requires good { is_transaction (column 3 self.now ∷ []) ≡ true }
        ensures { transaction_letter result ≡ column 3 self.now }
    {
        match Transaction::from_letter(self.column(3)) {
            Some(transaction) => transaction,
            None => unreachable!(),
        }
    }

    /// The STP indicator: column 80.
    pub fn stp(&self) -> Stp
        requires good { is_stp_letter (column 80 self.now) ≡ true }
        ensures { stp_letter result ≡ column 80 self.now }
    {
        match Stp::from_letter(self.column(80)) {
            Some(stp) => stp,
            None => unreachable!(),
        }
    }
}
