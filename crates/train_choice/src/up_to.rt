//! The lines of a schedule up to its last line at a place.
ghost use Rattle.std.specs.Prelude.{◌≡◌};
ghost use Rattle.train_choice.specs.UpTo.{names_place, up_to_last};

use cif_line::{Line, Tiploc};

/// The lines up to and including the last line at a place. No later line has an event at the place.
/// The search begins at the end.
pub(crate) fn up_to_last<'a>(lines: &'a [Line], place: &Tiploc) -> &'a [Line]
    ensures { result.now ≡ up_to_last place.now lines.entry.now }
{
    let mut rest = lines;
    while let Some((line, before)) = rest.split_last() {
        if names_place(line, place) {
            return rest;
        }
        rest = before;
    }
    rest
}

/// Whether the place is in columns 3 to 9 of the line, where a location record has its TIPLOC.
fn names_place(line: &Line, place: &Tiploc) -> bool
    ensures { result ≡ names_place place.now line.now }
{
    line.bytes()[2..9] == place.bytes()[..]
}
