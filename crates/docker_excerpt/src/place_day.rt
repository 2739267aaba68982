//! The place and the day of a docker, as a type for proofs.
ghost use Rattle.std.specs.Prelude.{ℕ, [], List};

use std::marker::Brand;

/// A place and a day as a type, for proofs only. `ThinSoFar` and `ExcerptingAt` have a type of this
/// trait as a parameter. The readers of files and states must work for any keeper, so their
/// contracts can't mention a place or a day.
pub trait PlaceDay {
    // The TIPLOC of the place.
    ghost place: { List ℕ };

    // The day number.
    ghost day: { ℕ };
}

impl PlaceDay for Brand {
    ghost place = { [] };

    ghost day = { 0 };
}
