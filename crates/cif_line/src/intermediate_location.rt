//! An intermediate location of a schedule: an LI record.
ghost use Rattle.std.specs.Prelude.{◌≡◌, ℕ, List};
ghost use Rattle.docker_model.specs.records.Record.{intermediate_location, columns, column, IsTextOfLength};
ghost use Rattle.docker_model.specs.records.Clock.{scheduled_time};
ghost use Rattle.docker_model.specs.records.PrintedTime.{shown_public};
ghost use Rattle.cif_line.specs.FieldRead.{public_half_minutes, public_text};
ghost use Rattle.cif_line.specs.CallRead.{AreTimesOf, number_meant};
ghost use Rattle.cif_line.specs.View.{IsGood};

use crate::line::Line;
use crate::time::Time;
use crate::tiploc_code::Tiploc;
use std::marker::Model;

/// The three scheduled times of an intermediate location, in half minutes since midnight. If a
/// field is blank, its number is 2880 or more.
#[derive(Clone, Copy, PartialEq, Eq, Debug)]
pub(crate) struct CallTimes {
    pub arrival: u16,
    pub departure: u16,
    pub pass: u16,
}

/// A view of an intermediate location (LI) whose checked fields are good. It keeps the scheduled
/// times, which were read when the fields were checked.
#[derive(Debug, Drop)]
pub struct Call<'a> {
    line: &'a Line,
    times: CallTimes,
}

impl<'a> Model for Call<'a> {
    ghost Value = { List ℕ };

    ghost view = { λ call. call.line.now };

    ghost invariant = { λ call. IsGood intermediate_location call.line.now ×
        AreTimesOf call.line.now call.times };
}

#[tactic(auto, using(crate::proofs::GoodFields::call_fields))]
impl<'a> Call<'a> {
    /// Makes a view of a line whose fields have already been checked. `times` are the line's
    /// scheduled times.
    pub(crate) fn of(line: &'a Line, times: CallTimes) -> Call<'a>
        requires good { IsGood intermediate_location line.now }
        requires times { AreTimesOf line.now times }
        ensures line { result ≡ line.entry.now }
    {
        Call { line, times }
    }

    /// The TIPLOC of the timing point: columns 3 to 9.
    pub fn tiploc(&self) -> Tiploc
        ensures { result ≡ columns 3 9 self.now }
    {
        self.line.tiploc(3)
    }

    /// The suffix, which distinguishes several calls of one train at a timing point: column 10.
    pub fn suffix(&self) -> u8
        ensures { result ≡ column 10 self.now }
    {
        self.line.column(10)
    }

    /// The scheduled arrival in half minutes: columns 11 to 15. Returns `None` if it is blank.
    pub fn arrival(&self) -> Option<Time>
        ensures { result ≡ scheduled_time (columns 11 15 self.now) }
    {
        Time::from_half_minutes(self.times.arrival)
    }

    /// The scheduled departure in half minutes: columns 16 to 20. Returns `None` if it is blank.
    pub fn departure(&self) -> Option<Time>
        ensures { result ≡ scheduled_time (columns 16 20 self.now) }
    {
        Time::from_half_minutes(self.times.departure)
    }

    /// The scheduled pass in half minutes: columns 21 to 25. Returns `None` if it is blank.
    pub fn pass(&self) -> Option<Time>
        ensures { result ≡ scheduled_time (columns 21 25 self.now) }
    {
        Time::from_half_minutes(self.times.pass)
    }

    /// The scheduled arrival as a number of half minutes. The number is 2880 or more if columns 11
    /// to 15 are blank. Without an `Option`, a reader of many lines needs no branch for a blank.
    pub fn arrival_number(&self) -> u16
        ensures { number_meant result ≡ scheduled_time (columns 11 15 self.now) }
    {
        self.times.arrival
    }

    /// The scheduled departure as a number of half minutes. The number is 2880 or more if columns
    /// 16 to 20 are blank.
    pub fn departure_number(&self) -> u16
        ensures { number_meant result ≡ scheduled_time (columns 16 20 self.now) }
    {
        self.times.departure
    }

    /// The scheduled pass as a number of half minutes. The number is 2880 or more if columns 21 to
    /// 25 are blank.
    pub fn pass_number(&self) -> u16
        ensures { number_meant result ≡ scheduled_time (columns 21 25 self.now) }
    {
        self.times.pass
    }

    /// The public arrival, a whole minute: columns 26 to 29. Returns `None` if it is blank or
    /// `0000`.
    pub fn public_arrival(&self) -> Option<Time>
        ensures value { result ≡ public_half_minutes (columns 26 29 self.now) }
        ensures shown { shown_public (columns 26 29 self.now) ≡ public_text result }
    {
        self.line.public_time(26)
    }

    /// The public departure, a whole minute: columns 30 to 33. Returns `None` if it is blank or
    /// `0000`.
    pub fn public_departure(&self) -> Option<Time>
        ensures value { result ≡ public_half_minutes (columns 30 33 self.now) }
        ensures shown { shown_public (columns 30 33 self.now) ≡ public_text result }
    {
        self.line.public_time(30)
    }

    /// The platform: columns 34 to 36.
    pub fn platform(&self) -> &'a [u8; 3]
        ensures value { result.now ≡ columns 34 36 self.now }
        ensures text { IsTextOfLength 3 result.now }
    {
        self.line.field(34)
    }

    /// The line on which the train departs: columns 37 to 39.
    pub fn track(&self) -> &'a [u8; 3]
        ensures value { result.now ≡ columns 37 39 self.now }
        ensures text { IsTextOfLength 3 result.now }
    {
        self.line.field(37)
    }

    /// The path by which the train arrives: columns 40 to 42.
    pub fn path(&self) -> &'a [u8; 3]
        ensures value { result.now ≡ columns 40 42 self.now }
        ensures text { IsTextOfLength 3 result.now }
    {
        self.line.field(40)
    }
}
