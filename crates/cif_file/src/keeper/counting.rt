//! The keeper that only counts the changes of a file.
ghost use Rattle.std.specs.Prelude.{◌≡◌, []};
ghost use Rattle.cif_file.specs.KeeperRead.{CountsChanges};

use crate::keeper::ChangeKeeper;
use crate::keeper::opened::Opened;
use crate::keeper::single::{Single, count_changes};
use cif_line::{Basic, Line};
use std::alloc::AllocError;

/// A keeper that only counts the changes that the records have made until now. A record makes at
/// most two changes, so the 64-bit count never overflows.
#[derive(Debug, Drop)]
pub(crate) struct CountingKeeper {
    changes: u64,
}

impl CountingKeeper {
    /// A `CountingKeeper` that has counted no change yet.
    pub(crate) fn new() -> CountingKeeper
        ensures { CountsChanges result [] [] }
    {
        CountingKeeper { changes: 0 }
    }

    /// How many changes were counted.
    pub(crate) fn count(&self) -> u64
        ensures { result ≡ self.now.changes }
    {
        self.changes
    }
}

impl ChangeKeeper for CountingKeeper {
    ghost keeps = { CountsChanges };

    ghost wants = { ⊥ };

    fn begin(&mut self, _basic: &Basic<'_>) -> Result<(), AllocError> {
        Ok(())
    }

    fn add_line(&mut self, _line: &Line) -> Result<(), AllocError> {
        Ok(())
    }

    fn close(&mut self, _opened: Opened) -> Result<(), AllocError> {
        self.changes = self.changes.saturating_add(1);
        Ok(())
    }

    fn add_single(&mut self, _number: u32, single: &Single<'_>) -> Result<(), AllocError> {
        self.changes = self.changes.saturating_add(count_changes(single));
        Ok(())
    }
}
