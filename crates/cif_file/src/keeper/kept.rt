//! The keeper that keeps all changes of a file.
ghost use Rattle.std.specs.Prelude.{[], ⊤, OnOk};
ghost use Rattle.cif_file.specs.KeeperRead.{KeepsAll};
ghost use Rattle.cif_file.specs.MadeChanges.{Makes};
ghost use Rattle.cif_file.specs.SingleChanges.{listed};

use crate::keeper::ChangeKeeper;
use crate::keeper::opened::Opened;
use crate::keeper::single::{Single, SingleChanges, changes_of};
use cif_change::Change;
use cif_line::{Basic, Line};
use std::alloc::{AllocError, Global};

/// A keeper of all changes that the records have made until now. It also keeps the lines of the
/// schedule that is being read.
#[derive(Debug, Drop)]
pub(crate) struct FileSoFar {
    alloc: Global,
    lines: Vec<Line>,
    pub(crate) made: Vec<Change>,
}

impl FileSoFar {
    /// A keeper that has kept nothing yet.
    pub(crate) fn new(alloc: Global) -> FileSoFar
        ensures { KeepsAll result [] [] }
    {
        FileSoFar {
            alloc,
            lines: Vec::new(alloc),
            made: Vec::new(alloc),
        }
    }
}

impl ChangeKeeper for FileSoFar {
    ghost keeps = { KeepsAll };

    ghost wants = { ⊤ };

    fn begin(&mut self, basic: &Basic<'_>) -> Result<(), AllocError> {
        self.lines.push(basic.line().as_new())?;
        Ok(())
    }

    fn add_line(&mut self, line: &Line) -> Result<(), AllocError> {
        self.lines.push(*line)?;
        Ok(())
    }

    fn close(&mut self, opened: Opened) -> Result<(), AllocError> {
        let change = opened.change(self.alloc, self.lines.as_slice())?;
        self.made.push(change)?;
        self.lines.clear();
        Ok(())
    }

    fn add_single(&mut self, number: u32, single: &Single<'_>) -> Result<(), AllocError> {
        push_all(&mut self.made, changes_of(number, single))
    }
}

/// Appends the one or two changes of a record that is a unit by itself.
fn push_all(made: &mut Vec<Change>, changes: SingleChanges) -> Result<(), AllocError>
    ensures { OnOk result (Makes made.old (listed changes) made.new) }
{
    let SingleChanges { first, last } = changes;
    if let Some(change) = first {
        made.push(change)?;
    }
    made.push(last)?;
    Ok(())
}
