//! A change en route: a CR record of a schedule.
ghost use Rattle.std.specs.Prelude.{◌≡◌, ℕ, List};
ghost use Rattle.docker_model.specs.records.Record.{change_en_route, columns, IsTextOfLength};
ghost use Rattle.cif_line.specs.View.{IsGood};

use crate::line::Line;
use std::marker::Model;

/// A view of a change en route (CR). A CR record has no checked field.
#[derive(Debug, Drop)]
pub struct ChangeEnRoute<'a> {
    line: &'a Line,
}

impl<'a> Model for ChangeEnRoute<'a> {
    ghost Value = { List ℕ };

    ghost view = { λ change. change.line.now };

    ghost invariant = { λ change. IsGood change_en_route change.line.now };
}

impl<'a> ChangeEnRoute<'a> {
    /// A view of a line that is a change en route.
    pub(crate) fn of(line: &'a Line) -> ChangeEnRoute<'a>
        requires good { IsGood change_en_route line.now }
        ensures line { result ≡ line.entry.now }
    {
        ChangeEnRoute { line }
    }

    /// The train's identity from the next location onwards: columns 13 to 16.
    pub fn identity(&self) -> &'a [u8; 4]
        ensures value { result.now ≡ columns 13 16 self.now }
        ensures text { IsTextOfLength 4 result.now }
    {
        self.line.field(13)
    }
}
