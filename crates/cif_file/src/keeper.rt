//! Keepers, which decide what a reader keeps of a file's records.
ghost use Rattle.std.specs.Prelude.{ℕ, List, OnOk, OnErr};
ghost use Rattle.docker_model.specs.records.Record.{HasKind};
ghost use Rattle.docker_model.specs.file.Change.{Change};
ghost use Rattle.cif_file.specs.KeeperRead.{Begins, AddsLine, AddsSingle, Closes};
ghost use Rattle.cif_file.specs.UnitRead.{kind_of_single, line_of_single};

pub(crate) mod counting;
pub(crate) mod kept;
pub(crate) mod opened;
pub(crate) mod single;

use crate::keeper::opened::Opened;
use crate::keeper::single::Single;
use cif_line::{Basic, Line};
use std::alloc::AllocError;

/// A keeper, which decides what a reader keeps of a file's records, besides the header and the
/// number of records. A keeper receives every record that makes changes, in the order of the file.
/// [`read_kept`](crate::read_kept) reads a source with any keeper.
pub trait ChangeKeeper: Drop + Sized {
    // Says that the keeper holds these lines of the schedule that is being read, and these changes.
    ghost keeps: { Self → List (List ℕ) → List Change → Type 0 };

    // Says that the keeper may run out of memory.
    ghost wants: { Type 0 };

    /// Receives the basic schedule with which a schedule begins.
    fn begin(&mut self, basic: &Basic<'_>) -> Result<(), AllocError>
        ensures kept { OnOk result (Begins keeps self.old basic.now self.new) }
        ensures wants { OnErr result wants };

    /// Receives a further line of the schedule that is being read.
    fn add_line(&mut self, line: &Line) -> Result<(), AllocError>
        ensures kept { OnOk result (AddsLine keeps self.old line.now self.new) }
        ensures wants { OnErr result wants };

    /// Makes the change of the schedule that is being read, whose lines are complete.
    fn close(&mut self, opened: Opened) -> Result<(), AllocError>
        ensures kept { OnOk result (Closes keeps self.old opened self.new) }
        ensures wants { OnErr result wants };

    /// Makes the changes of a record that is a unit by itself: a TIPLOC record or an association.
    fn add_single(&mut self, number: u32, single: &Single<'_>) -> Result<(), AllocError>
        requires { HasKind (kind_of_single single.now) (line_of_single single.now) }
        ensures kept { OnOk result
            (AddsSingle keeps self.old number (line_of_single single.now) self.new) }
        ensures wants { OnErr result wants };
}
