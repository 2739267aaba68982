//! The lines of a schedule.
ghost use Rattle.std.specs.Prelude.{◌≡◌, ◌==◌, ℕ, length, nat_eq, List};
ghost use Rattle.std.specs.Cmp.Lexicographic.{pointwise};
ghost use Rattle.std.specs.Cmp.Rules.{comparing};
ghost use Rattle.std.proofs.Common.{rules};

use crate::same::are_same_lines;
use cif_line::Line;
use std::marker::Model;

/// The lines of one schedule, in the order of the file.
#[derive(Debug, Drop)]
pub struct Lines {
    lines: Vec<Line>,
}

impl Model for Lines {
    ghost Value = { List (List ℕ) };

    ghost view = { λ lines. lines.lines.items };
}

impl Lines {
    /// Makes the lines of a schedule from a vector.
    pub fn of(lines: Vec<Line>) -> Lines
        ensures { result ≡ lines.items }
    {
        Lines { lines }
    }

    /// The lines.
    pub fn as_slice(&self) -> &[Line]
        ensures { result.now ≡ self.now }
    {
        self.lines.as_slice()
    }

    /// How many lines there are.
    pub fn len(&self) -> usize
        ensures { result ≡ length self.now }
    {
        self.lines.len()
    }

    /// Whether there are no lines.
    pub fn is_empty(&self) -> bool
        ensures { result ≡ (length self.now == 0) }
    {
        self.lines.is_empty()
    }
}

impl PartialEq for Lines {
    ghost eq = { pointwise (pointwise nat_eq) };

    ghost laws = { Prim.search (comparing, rules) };

    fn eq(&self, other: &Lines) -> bool {
        are_same_lines(self.as_slice(), other.as_slice())
    }
}

impl Eq for Lines {
    ghost laws = { Prim.search (comparing, rules) };
}
