//! The terminus of a schedule: an LT record.
ghost use Rattle.std.specs.Prelude.{◌≡◌, ℕ, List};
ghost use Rattle.docker_model.specs.records.Record.{terminating_location, columns, column, IsTextOfLength};
ghost use Rattle.docker_model.specs.records.Clock.{half_minutes};
ghost use Rattle.docker_model.specs.records.PrintedTime.{shown_public};
ghost use Rattle.cif_line.specs.FieldRead.{public_half_minutes, public_text};
ghost use Rattle.cif_line.specs.View.{IsGood};

use crate::line::Line;
use crate::time::Time;
use crate::tiploc_code::Tiploc;
use std::marker::Model;

/// A view of a terminus (LT) whose checked fields are good. It keeps the scheduled arrival, which
/// was read when the fields were checked.
#[derive(Debug, Drop)]
pub struct Terminus<'a> {
    line: &'a Line,
    arrival: Time,
}

impl<'a> Model for Terminus<'a> {
    ghost Value = { List ℕ };

    ghost view = { λ terminus. terminus.line.now };

    ghost invariant = { λ terminus. IsGood terminating_location terminus.line.now ×
        (terminus.arrival ≡ half_minutes (columns 11 15 terminus.line.now)) };
}

#[tactic(auto, using(crate::proofs::GoodFields::terminus_fields))]
impl<'a> Terminus<'a> {
    /// Makes a view of a line whose fields have already been checked. `arrival` is the line's
    /// scheduled arrival.
    pub(crate) fn of(line: &'a Line, arrival: Time) -> Terminus<'a>
        requires good { IsGood terminating_location line.now }
        requires time { arrival ≡ half_minutes (columns 11 15 line.now) }
        ensures line { result ≡ line.entry.now }
    {
        Terminus { line, arrival }
    }

    /// The TIPLOC of the timing point: columns 3 to 9.
    pub fn tiploc(&self) -> Tiploc
        ensures { result ≡ columns 3 9 self.now }
    {
        self.line.tiploc(3)
    }

    /// The suffix, which distinguishes several calls of one train at a timing point: column 10.
    pub fn suffix(&self) -> u8
        ensures { result ≡ column 10 self.now }
    {
        self.line.column(10)
    }

    /// The scheduled arrival, in half minutes: columns 11 to 15.
    pub fn arrival(&self) -> Time
        ensures { result ≡ half_minutes (columns 11 15 self.now) }
    {
        self.arrival
    }

    /// The public arrival, a whole minute: columns 16 to 19. Returns `None` if it is blank or
    /// `0000`.
    pub fn public_arrival(&self) -> Option<Time>
        ensures value { result ≡ public_half_minutes (columns 16 19 self.now) }
        ensures shown { shown_public (columns 16 19 self.now) ≡ public_text result }
    {
        self.line.public_time(16)
    }

    /// The platform: columns 20 to 22.
    pub fn platform(&self) -> &'a [u8; 3]
        ensures value { result.now ≡ columns 20 22 self.now }
        ensures text { IsTextOfLength 3 result.now }
    {
        self.line.field(20)
    }

    /// The path by which the train arrives: columns 23 to 25.
    pub fn path(&self) -> &'a [u8; 3]
        ensures value { result.now ≡ columns 23 25 self.now }
        ensures text { IsTextOfLength 3 result.now }
    {
        self.line.field(23)
    }
}
