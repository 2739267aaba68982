//! The header of an extract: an HD record.
ghost use Rattle.std.specs.Prelude.{◌≡◌, ◌<◌, ℕ, List};
ghost use Rattle.docker_model.specs.records.Record.{header, columns, column, IsTextOfLength};
ghost use Rattle.docker_model.specs.records.Date.{date_number_day_first};
ghost use Rattle.docker_model.specs.records.Clock.{minute_of};
ghost use Rattle.cif_line.specs.View.{IsGood};
ghost use Rattle.cif_line.specs.Letter.{extract_letter};

use crate::day::Day;
use crate::letter::Extract;
use crate::line::Line;
use crate::time::clock;
use std::marker::Model;

/// A view of a header (HD) whose checked fields are good.
#[derive(Debug, Drop)]
pub struct Header<'a> {
    line: &'a Line,
}

impl<'a> Model for Header<'a> {
    ghost Value = { List ℕ };

    ghost view = { λ head. head.line.now };

    ghost invariant = { λ head. IsGood header head.line.now };
}

#[tactic(auto, using(crate::proofs::GoodFields::header_fields))]
impl<'a> Header<'a> {
    /// Makes a view of a line whose fields have already been checked.
    pub fn of(line: &'a Line) -> Header<'a>
        requires good { IsGood header line.now }
        ensures line { result ≡ line.entry.now }
    {
        Header { line }
    }

    /// The line of the record.
    pub fn line(&self) -> &'a Line
        ensures line { result.now ≡ self.now }
        ensures good { IsGood header self.now }
    {
        self.line
    }

    /// The date of extract: columns 23 to 28.
    pub fn day(&self) -> Day
        ensures { result ≡ date_number_day_first (columns 23 28 self.now) }
    {
        Day::of_date_day_first(self.line.field(23))
    }

    /// The time of extract: columns 29 to 32, as a minute of the day from 0 to 1439.
    pub fn minute(&self) -> u16
        ensures value { result ≡ minute_of (columns 29 32 self.now) }
        ensures bound { result < 1440 }
    {
        let field: &[u8; 4] = self.line.field(29);
        match clock(field) {
            Some(minute) => minute,
            None => unreachable!(),
        }
    }

    /// The current file reference, which identifies this extract: columns 33 to 39.
    pub fn reference(&self) -> &'a [u8; 7]
        ensures value { result.now ≡ columns 33 39 self.now }
        ensures text { IsTextOfLength 7 result.now }
    {
        self.line.field(33)
    }

    /// The last file reference, which identifies the extract before this one: columns 40 to 46.
    pub fn last_reference(&self) -> &'a [u8; 7]
        ensures value { result.now ≡ columns 40 46 self.now }
        ensures text { IsTextOfLength 7 result.now }
    {
        self.line.field(40)
    }

    /// The update indicator, which says whether this is a full extract or an update: column 47.
    pub fn extract(&self) -> Extract
        ensures { extract_letter result ≡ column 47 self.now }
    {
        match Extract::from_letter(self.line.column(47)) {
            Some(extract) => extract,
            None => unreachable!(),
        }
    }
}
