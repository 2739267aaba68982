//! The text of a state: the widths of its parts, how the text is written, and how each part is
//! judged after the parts before it have been read. Re-exports states and their contents from
//! `cif_file`, `docker_join` and `docker_state`.
#![tactic(auto)]

mod body;
mod buffer;
mod cause;
mod encode;
mod fields;
pub mod format;
mod given;
mod head;
mod indexing;
mod item;
mod keeper;
mod key;
mod lapsing;
mod length;
mod parts_so_far;
mod received;
mod receiving;
mod schedule;
mod stage;
mod stamp;
mod steps;
mod whole;
mod write;

pub use cause::StateCause;
pub use cif_file::ScheduleKey;
pub use docker_join::{Entry, Op};
pub use docker_state::{LedgerItem, Parts, State};
pub use given::Given;
pub use head::put_head;
pub use indexing::Indexing;
pub use keeper::{Maker, PartKeeper};
pub use lapsing::{HorizonDay, Lapsing};
pub use length::encoded_len;
pub use parts_so_far::PartsSoFar;
pub use received::Received;
pub use receiving::Receiver;
pub use schedule::{Gathered, judged_inner_line, judged_line};
pub use stage::{Stage, Tag};
pub use steps::step;
pub use whole::Whole;
pub use write::write_state;
