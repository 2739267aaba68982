//! Stamps, ops and entries with their orders, the lapse of entries whose bodies ended before a
//! horizon, and the join of two tables of entries.
#![tactic(auto)]

mod entry;
mod merge;
mod rows;
mod stamp;
mod table;

pub use entry::{Entry, Op};
pub use merge::{Merge, Pick};
pub use rows::{join_rows, lapse_rows};
pub use stamp::{FileStamp, Stamp};
pub use table::Table;
