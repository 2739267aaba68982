//! Folders in memory for the tests.
ghost use Rattle.std.specs.Prelude.{◌≡◌};

use crate::records::{OPEN, REVISION, REVISION_STATE, lines_text, state_text};
use docker_host::Shelf;
use std::alloc::Global;
use std::process::Abort;
use test_records::states::{MORNING_STATE, Parts};

/// Writes a text to a file, as another command would.
pub(crate) fn put(rt: &impl Abort, shelf: &mut Shelf, name: &str, text: &[u8])
    ensures { shelf.new.failures ≡ shelf.old.failures }
{
    shelf.put(name, text).expect(rt, "room");
}

/// Returns a shelf with one file.
pub(crate) fn shelf_with(rt: &impl Abort, alloc: Global, name: &str, text: &[u8]) -> Shelf
    ensures { result.failures ≡ 0 }
{
    let mut shelf = Shelf::new(alloc, 1000);
    put(rt, &mut shelf, name, text);
    shelf
}

/// Returns a shelf with the file `S`. The file holds this state.
pub(crate) fn shelf_of(rt: &impl Abort, alloc: Global, state: Parts) -> Shelf
    ensures { result.failures ≡ 0 }
{
    let text = state_text(rt, alloc, state);
    shelf_with(rt, alloc, "S", text.as_slice())
}

/// Returns the shelf on which most sessions run. Its four files hold the state of the morning
/// train, the revision of the morning train, this revision without its trailer, and the state of
/// the revision.
pub(crate) fn shelf_of_morning(rt: &impl Abort, alloc: Global) -> Shelf
    ensures { result.failures ≡ 0 }
{
    let mut shelf = shelf_of(rt, alloc, MORNING_STATE);
    let revision = lines_text(rt, alloc, REVISION);
    put(rt, &mut shelf, "F2", revision.as_slice());
    let open = lines_text(rt, alloc, OPEN);
    put(rt, &mut shelf, "F3", open.as_slice());
    let other = state_text(rt, alloc, REVISION_STATE);
    put(rt, &mut shelf, "S2", other.as_slice());
    shelf
}

/// Returns the text of the file `S`, or an empty text if there is no such file.
pub(crate) fn text_of(shelf: &Shelf) -> &[u8] {
    match shelf.text("S") {
        Some(text) => text,
        None => b"",
    }
}
