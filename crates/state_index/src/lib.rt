//! Two indexes of a state's rows by place: at which TIPLOCs its live schedules call, and at which
//! its live associations are.
#![tactic(auto)]

mod index;
mod laws;
mod memo;
mod names;
mod place_rows;
mod places;
mod posting;
mod postings;
mod survey;

pub use index::Index;
pub use laws::{indexes_of_rows, one_index_of_rows};
pub use place_rows::IndexedRows;
pub use posting::Posting;
