//! Thin files: what was kept of a CIF file for the docker of one place on one day.
ghost use Rattle.std.specs.Prelude.{◌≡◌, IfOk};
ghost use Rattle.docker_excerpt.specs.ThinRead.{AreThinParts, AreNeededParts, IsThinRead, thin_of_parts, ThinRead};
ghost use Rattle.docker_excerpt.specs.ThinEnded.{thin_parts_ended, thin_ended};

use crate::changes_so_far::ChangesSoFar;
use crate::elsewhere::Elsewhere;
use crate::place_day::PlaceDay;
use crate::thin_kept::ThinSoFar;
use crate::thinned::Thinned;
use crate::wanted::{uids_named, wanted, with_bodies};
use cif_file::{Ended, FileParts};
use cif_line::{Day, Header, Tiploc};
use std::alloc::{AllocError, Global};
use std::marker::Model;

/// What was kept of a CIF file for the docker of one place on one day: the header, and those
/// changes that this docker may need. A thin file must not be used for any other docker. In proofs,
/// its model also includes all changes of the file.
#[derive(Debug, Drop)]
pub struct ThinFile {
    place: Tiploc,
    day: Day,
    parts: FileParts,
    elsewhere: Vec<Elsewhere>,
    so_far: ChangesSoFar,
}

impl Model for ThinFile {
    ghost Value = { ThinRead };

    ghost view = { λ thin.
        thin_of_parts thin.place thin.day thin.so_far.changes thin.parts thin.elsewhere };

    ghost invariant = { λ thin.
        AreThinParts thin.place thin.day thin.so_far.changes thin.parts thin.elsewhere };
}

impl ThinFile {
    /// Makes a thin file from these parts, which were kept for this place and day. `so_far` records
    /// all changes of the file for proofs.
    pub(crate) fn of(
        place: Tiploc,
        day: Day,
        parts: FileParts,
        elsewhere: Vec<Elsewhere>,
        so_far: ChangesSoFar,
    ) -> ThinFile
        requires { AreThinParts place day so_far.changes parts elsewhere }
        ensures { result ≡ thin_of_parts place day so_far.changes parts elsewhere }
    {
        ThinFile {
            place,
            day,
            parts,
            elsewhere,
            so_far,
        }
    }

    /// A view of the file's header.
    pub fn header(&self) -> Header<'_>
        ensures header { result ≡ self.now.file.header_line }
        ensures read { IsThinRead self.now }
    {
        self.parts.header.view()
    }

    /// Takes the thin file apart. The parts have only the kept changes that the docker needs. If a
    /// schedule has no event at the place on the day, the change that puts it has a made-up origin and
    /// terminus.
    pub fn into_needed(self, alloc: Global) -> Result<FileParts, AllocError>
        ensures { IfOk result (AreNeededParts self) }
    {
        let ThinFile {
            place,
            parts,
            elsewhere,
            ..
        } = self;
        let uids = uids_named(alloc, parts.changes.as_slice())?;
        let elsewhere = wanted(elsewhere, uids.as_slice());
        let FileParts {
            header,
            records,
            changes,
        } = parts;
        let changes = with_bodies(alloc, &place, changes, elsewhere)?;
        Ok(FileParts {
            header,
            records,
            changes,
        })
    }
}

/// Makes a thin file from what the keeper kept of a CIF file.
pub(crate) fn thin_of<P: PlaceDay>(ended: Ended<ThinSoFar<P>>) -> ThinFile
    requires { AreThinParts ended.keeper.thinned.place ended.keeper.thinned.day
        ended.keeper.so_far.changes (thin_parts_ended ended) ended.keeper.thinned.elsewhere }
    ensures { result ≡ thin_ended ended }
{
    let Ended {
        header,
        records,
        keeper,
    } = ended;
    let (thinned, so_far) = keeper.into_kept();
    let Thinned {
        place,
        day,
        made,
        elsewhere,
        ..
    } = thinned;
    let parts = FileParts {
        header,
        records,
        changes: made,
    };
    ThinFile::of(place, day, parts, elsewhere, so_far)
}
