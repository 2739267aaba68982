//! Lists the timing points in a state, with the number of schedules that call at each. Also prints
//! in a few lines what an office with this state knows.
#![tactic(auto)]

mod known;
pub mod laws;
mod places;
mod tally;

pub use known::{KnownText, known_text};
pub use places::print_places;
