//! The origin of a schedule: an LO record.
ghost use Rattle.std.specs.Prelude.{◌≡◌, ℕ, List};
ghost use Rattle.docker_model.specs.records.Record.{origin_location, columns, column, IsTextOfLength};
ghost use Rattle.docker_model.specs.records.Clock.{half_minutes};
ghost use Rattle.docker_model.specs.records.PrintedTime.{shown_public};
ghost use Rattle.cif_line.specs.FieldRead.{public_half_minutes, public_text};
ghost use Rattle.cif_line.specs.View.{IsGood};

use crate::line::Line;
use crate::time::Time;
use crate::tiploc_code::Tiploc;
use std::marker::Model;

/// A view of an origin (LO) whose checked fields are good. It keeps the scheduled departure, which
/// was read when the fields were checked.
#[derive(Debug, Drop)]
pub struct Origin<'a> {
    line: &'a Line,
    departure: Time,
}

impl<'a> Model for Origin<'a> {
    ghost Value = { List ℕ };

    ghost view = { λ origin. origin.line.now };

    ghost invariant = { λ origin. IsGood origin_location origin.line.now ×
        (origin.departure ≡ half_minutes (columns 11 15 origin.line.now)) };
}

#[tactic(auto, using(crate::proofs::GoodFields::origin_fields))]
impl<'a> Origin<'a> {
    /// Makes a view of a line whose fields have already been checked. `departure` is the line's
    /// scheduled departure.
    pub(crate) fn of(line: &'a Line, departure: Time) -> Origin<'a>
        requires good { IsGood origin_location line.now }
        requires time { departure ≡ half_minutes (columns 11 15 line.now) }
        ensures line { result ≡ line.entry.now }
    {
        Origin { line, departure }
    }

    /// The TIPLOC of the timing point: columns 3 to 9.
    pub fn tiploc(&self) -> Tiploc
        ensures { result ≡ columns 3 9 self.now }
    {
        self.line.tiploc(3)
    }

    /// The suffix, which distinguishes several calls of one train at a timing point: column 10.
    pub fn suffix(&self) -> u8
        ensures { result ≡ column 10 self.now }
    {
        self.line.column(10)
    }

    /// The scheduled departure, in half minutes: columns 11 to 15.
    pub fn departure(&self) -> Time
        ensures { result ≡ half_minutes (columns 11 15 self.now) }
    {
        self.departure
    }

    /// The public departure, a whole minute: columns 16 to 19. Returns `None` if it is blank or
    /// `0000`.
    pub fn public_departure(&self) -> Option<Time>
        ensures value { result ≡ public_half_minutes (columns 16 19 self.now) }
        ensures shown { shown_public (columns 16 19 self.now) ≡ public_text result }
    {
        self.line.public_time(16)
    }

    /// The platform: columns 20 to 22.
    pub fn platform(&self) -> &'a [u8; 3]
        ensures value { result.now ≡ columns 20 22 self.now }
        ensures text { IsTextOfLength 3 result.now }
    {
        self.line.field(20)
    }

    /// The line on which the train departs: columns 23 to 25.
    pub fn track(&self) -> &'a [u8; 3]
        ensures value { result.now ≡ columns 23 25 self.now }
        ensures text { IsTextOfLength 3 result.now }
    {
        self.line.field(23)
    }
}
