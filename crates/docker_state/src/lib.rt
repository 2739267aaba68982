//! The state that follows from a set of files and a horizon: the list of the files that count, and
//! the greatest entry for each key. Entries whose bodies ended before the horizon have lapsed.
//! States can be joined in any order, any number of times.
#![tactic(auto)]

mod covers;
mod floor;
mod indexing;
mod item;
mod ledger;
mod live;
mod near;
mod parts;
mod place_rows;
mod rows;
mod sifted;
mod sort;
mod staging;
mod state;
mod timetable;
mod timetable_rows;
mod uid_rows;

pub use docker_join::Merge;
pub use item::LedgerItem;
pub use live::Live;
pub use parts::Parts;
pub use place_rows::PlaceRows;
pub use staging::Staging;
pub use state::State;
pub use timetable::Timetable;
pub use timetable_rows::{TimetableRows, UidSchedules};
