//! Ends a draft once a text has been written to it.
ghost use Rattle.std.specs.Prelude.{◌+◌, ◌-◌, ◌^◌, ◌<◌, IsOk};
ghost use Rattle.docker_host.specs.Asked.{EndsDraft};

use crate::folder::{Drafted, Folder};

/// Ends a draft to which a text was written with the result `written`. Replaces the file with the
/// draft if the whole text was written, and otherwise discards the draft. Fails with the fault of
/// the writing, or with `failed` if the draft can't replace the file.
pub fn end_draft<D: Folder, E: Copy>(
    made: Drafted<'_, D::Draft>,
    written: Result<(), E>,
    failed: E,
    folder: &mut D,
) -> Result<(), E>
    requires discard { D.failures folder.old + D.Draft.failures made.draft < 2 ^ 64 }
    requires complete { IsOk written
        → D.failures folder.old + D.Draft.failures made.draft < 2 ^ 64 - 1 }
    ensures { EndsDraft made.entry.name.now (D.Draft.taken made.entry.draft) failed
        (D.history folder.old) (D.history folder.new)
        (D.failures folder.old + D.Draft.failures made.entry.draft) (D.failures folder.new)
        written result }
{
    if let Err(fault) = written {
        folder.discard(made);
        return Err(fault);
    }
    folder.complete(made).map_err(|_| failed)
}
