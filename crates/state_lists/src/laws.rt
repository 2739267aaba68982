//! Laws of the lists. Each law is the contract of a function with an empty body, so it holds for
//! all values of its variables.
ghost use Rattle.std.specs.Prelude.{◌≡◌, ℕ, List};
ghost use Rattle.docker_model.specs.state.State.{State};
ghost use Rattle.docker_model.specs.state.Table.{Table};
ghost use Rattle.docker_model.specs.lists.KnownText.{IsKnownText};
ghost use Rattle.docker_model.specs.lists.PlacesText.{IsPlacesText};

/// A live table has only one list of timing points.
pub fn one_places_text()
    ensures { (live : Table) (text other : List ℕ) → IsPlacesText live text
        → IsPlacesText live other → text ≡ other }
{}

/// For each state there is only one text that lists what an office with this state knows.
pub fn one_known_text()
    ensures { (state : State) (text other : List ℕ) → IsKnownText state text
        → IsKnownText state other → text ≡ other }
{}
