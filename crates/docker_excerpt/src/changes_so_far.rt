//! All changes of the records that were read until now, whether the changes are kept or dropped.
//! These values exist only for proofs: they take no memory, and their methods do nothing at run
//! time.
ghost use Rattle.std.specs.Prelude.{◌≡◌, [], ◌∷◌, ◌++◌, List};
ghost use Rattle.std.specs.Borrow.{ftrue};
ghost use Rattle.docker_model.specs.file.Change as model;
ghost use Rattle.cif_file.specs.KeeperRead.{change_renewed};
ghost use Rattle.cif_file.specs.SingleChanges.{listed};

use cif_file::{Opened, SingleChanges};
use cif_line::Line;
use std::fmt;
use std::marker::Model;

/// All changes of the records that were read until now.
#[derive(Drop)]
pub(crate) struct ChangesSoFar {
    pub ghost changes: { List model.Change },
}

impl Model for ChangesSoFar {
    ghost also_owns = { λ _. ftrue };
}

/// The lines of the schedule that is being read. The transaction of its first line is set to `N`.
#[derive(Debug, Drop)]
pub(crate) struct OpenLines {
    pub lines: Vec<Line>,
}

impl fmt::Debug for ChangesSoFar {
    fn fmt<W: fmt::Write>(&self, f: &mut fmt::Formatter<W>) -> fmt::Result {
        f.write_str("ChangesSoFar")
    }
}

impl ChangesSoFar {
    /// Returns an empty list of changes: no record has been read yet.
    pub(crate) fn new() -> ChangesSoFar
        ensures { result.changes ≡ [] }
    {
        ChangesSoFar {}
    }

    /// The changes in `_before`, followed by the changes of a record that is a unit by itself.
    pub(crate) fn with_single(_before: &ChangesSoFar, _changes: &SingleChanges) -> ChangesSoFar
        ensures { result.changes ≡ _before.now.changes ++ listed _changes.now }
    {
        ChangesSoFar {}
    }

    /// The changes in `_before`, followed by the change of a schedule with these lines.
    pub(crate) fn with_opened(
        _before: &ChangesSoFar,
        _opened: &Opened,
        _lines: &OpenLines,
    ) -> ChangesSoFar
        ensures { result.changes ≡ _before.now.changes
            ++ change_renewed _opened.now _lines.now.lines.items ∷ [] }
    {
        ChangesSoFar {}
    }
}
