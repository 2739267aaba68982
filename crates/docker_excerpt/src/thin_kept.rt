//! The keeper that keeps only what the docker of one place on one day may need.
ghost use Rattle.std.specs.Prelude.{◌≡◌, [], ⊤};
ghost use Rattle.docker_excerpt.specs.ThinKept.{KeepsThin};

use crate::changes_so_far::{ChangesSoFar, OpenLines};
use crate::place_day::PlaceDay;
use crate::start_days::runs_near_unless_deleted;
use crate::thinned::Thinned;
use cif_file::{ChangeKeeper, Opened, Single, changes_of};
use cif_line::{Basic, Day, Line, Tiploc};
use std::alloc::{AllocError, Global};
use std::marker::PhantomData;

/// A keeper of only those changes that the docker of one place on one day may need. The keeper also
/// holds the lines of the schedule that is being read, and whether this schedule runs near the day.
/// The type `P` gives the place and the day.
#[derive(Debug, Drop)]
pub(crate) struct ThinSoFar<P> {
    open: OpenLines,
    runs_near: bool,
    thinned: Thinned,
    so_far: ChangesSoFar,
    of: PhantomData<P>,
}

impl<P: PlaceDay> ThinSoFar<P> {
    /// A keeper that has kept nothing yet.
    pub(crate) fn new(alloc: Global, place: Tiploc, day: Day) -> ThinSoFar<P>
        requires place { place ≡ P.place }
        requires day { day ≡ P.day }
        ensures { KeepsThin P.place P.day result [] [] }
    {
        ThinSoFar {
            open: OpenLines {
                lines: Vec::new(alloc),
            },
            runs_near: false,
            thinned: Thinned::new(alloc, place, day),
            so_far: ChangesSoFar::new(),
            of: PhantomData,
        }
    }

    /// The changes that were kept and, for proofs, all changes.
    pub(crate) fn into_kept(self) -> (Thinned, ChangesSoFar)
        ensures thinned { result.0 ≡ self.thinned }
        ensures so_far { result.1 ≡ self.so_far }
    {
        let ThinSoFar {
            thinned,
            so_far,
            ..
        } = self;
        (thinned, so_far)
    }
}

impl<P: PlaceDay> ChangeKeeper for ThinSoFar<P> {
    ghost keeps = { KeepsThin P.place P.day };

    ghost wants = { ⊤ };

    fn begin(&mut self, basic: &Basic<'_>) -> Result<(), AllocError> {
        self.runs_near = runs_near_unless_deleted(basic, self.thinned.day());
        self.open.lines.push(basic.line().as_new())?;
        Ok(())
    }

    fn add_line(&mut self, line: &Line) -> Result<(), AllocError> {
        self.open.lines.push(*line)?;
        Ok(())
    }

    fn close(&mut self, opened: Opened) -> Result<(), AllocError> {
        self.thinned
            .add_opened(opened, self.runs_near, self.open.lines.as_slice())?;
        self.so_far = ChangesSoFar::with_opened(&self.so_far, &opened, &self.open);
        self.open.lines.clear();
        Ok(())
    }

    fn add_single(&mut self, number: u32, single: &Single<'_>) -> Result<(), AllocError> {
        let changes = changes_of(number, single);
        self.so_far = ChangesSoFar::with_single(&self.so_far, &changes);
        self.thinned.add_single(changes)
    }
}
