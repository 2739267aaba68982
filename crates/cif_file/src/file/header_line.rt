//! The header of a CIF file, stored as its line.
ghost use Rattle.std.specs.Prelude.{◌≡◌, ℕ, List};
ghost use Rattle.docker_model.specs.records.Record.{header};
ghost use Rattle.cif_line.specs.View.{IsGood};

use cif_line::{Header, Line};
use std::marker::Model;

/// The line of a header whose checked fields are good.
#[derive(Debug, Drop)]
pub struct HeaderLine {
    line: Line,
}

impl Model for HeaderLine {
    ghost Value = { List ℕ };

    ghost view = { λ header_line. header_line.line };

    ghost invariant = { λ header_line. IsGood header header_line.line };
}

impl HeaderLine {
    /// Copies the line of this header.
    pub(crate) fn of(view: &Header<'_>) -> HeaderLine
        ensures { result ≡ view.now }
    {
        HeaderLine { line: *view.line() }
    }

    /// A view of the header.
    pub fn view(&self) -> Header<'_>
        ensures { result ≡ self.now }
    {
        Header::of(&self.line)
    }
}
