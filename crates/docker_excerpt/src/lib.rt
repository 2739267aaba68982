//! An excerpt is the part of a state that a reader keeps for the docker of one place and one day.
//! To list a state's files, a reader keeps only the ledger.
#![tactic(auto)]

mod changes_so_far;
mod day_walk;
mod elsewhere;
mod excerpt;
mod excerpt_entry;
mod excerpting;
mod given_file;
mod kept_ledger;
mod ledger;
mod midnights;
mod near;
mod needs;
mod place;
mod place_day;
mod reach;
mod reading;
mod start_days;
mod thin_file;
mod thin_kept;
mod thinned;
mod walk;
mod wanted;

pub use excerpt::Excerpt;
pub use excerpting::Excerpting;
pub use kept_ledger::KeptLedger;
pub use ledger::Ledger;
pub use place::ExcerptingAt;
pub use place_day::PlaceDay;
pub use reading::read_thin;
pub use thin_file::ThinFile;
