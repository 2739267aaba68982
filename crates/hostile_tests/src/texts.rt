//! Makes files, states and offices from texts, and compares the texts of states.
ghost use Rattle.std.specs.Prelude.{◌≡◌, IfSome};

use crate::desk::Desk;
pub(crate) use cif_file::MOST_RECORDS;
use cif_file::{CifFile, read_pieces};
use cif_line::{Bytes, Day, Kept, Tiploc};
use docker_bytes::{read_state, write_state};
pub(crate) use docker_cmd::MOST_BYTES;
use docker_office::Office;
use docker_state::State;

/// The capacity in bytes of a sink for a written text.
pub(crate) const ROOM: usize = 2000;

/// The number of bytes that a source returns per read, unless a row sets another number.
pub(crate) const STEP: usize = 100;

/// A source that holds this text.
pub(crate) fn source_of<'a>(text: &'a [u8]) -> Bytes<'a> {
    Bytes::new(text, STEP)
}

/// The file with this text. Prints a line if the text isn't the text of a file.
pub(crate) fn file_of(desk: &Desk, text: &[u8]) -> Option<CifFile> {
    match read_pieces(desk.alloc(), &[text], MOST_RECORDS) {
        Ok(file) => Some(file),
        Err(_) => {
            desk.trouble("a file is refused");
            None
        }
    }
}

/// The state with this text. Prints a line and returns an empty state if the text isn't the text of
/// a state.
pub(crate) fn state_of(desk: &Desk, text: &[u8]) -> State {
    match read_state(desk.alloc(), &mut source_of(text), MOST_BYTES) {
        Ok(state) => state,
        Err(_) => {
            desk.trouble("a state is refused");
            State::empty(desk.alloc())
        }
    }
}

/// An office whose state has this text. Prints a line if the text isn't the text of a state.
pub(crate) fn office_of(desk: &Desk, text: &[u8]) -> Office {
    let mut office = Office::new(desk.alloc());
    if office.reload(&mut source_of(text), MOST_BYTES).is_err() {
        desk.trouble("an office's state is refused");
    }
    office
}

/// A sink with room for any text that a row writes. Prints a line if memory runs out.
pub(crate) fn sink(desk: &Desk) -> Option<Kept>
    ensures { IfSome result (λ kept. kept.failures ≡ 0) }
{
    match Kept::new(desk.alloc(), ROOM) {
        Ok(sink) => Some(sink),
        Err(_) => {
            desk.trouble("no room for a text");
            None
        }
    }
}

/// Whether a state is written as this text.
pub(crate) fn has_text(desk: &Desk, state: &State, text: &[u8]) -> bool {
    match sink(desk) {
        Some(mut kept) => write_state(state, &mut kept).is_ok() && kept.bytes() == text,
        None => false,
    }
}

/// Prints the name of a text, and whether the state has this text.
pub(crate) fn compare_state(desk: &Desk, state: &State, name: &str) {
    let text = desk.text(name);
    desk.report(has_text(desk, state, text.as_slice()), name);
}

/// The timing point and the day that these two words name. Prints a line if the first word isn't a
/// TIPLOC or the second word isn't a date.
pub(crate) fn occasion_of(desk: &Desk, place: &str, day: &str) -> Option<(Tiploc, Day)> {
    match (Tiploc::from_text(place), Day::from_iso(day)) {
        (Some(place), Some(day)) => Some((place, day)),
        _ => {
            desk.trouble("no timing point, or no day");
            None
        }
    }
}
