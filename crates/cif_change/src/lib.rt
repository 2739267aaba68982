//! What an extract changes: keys, the bodies put under them, and the orders of both. The crate also
//! has the reader of a schedule's lines, and the causes for which a record is refused.
#![tactic(auto)]

mod cause;
mod change;
mod joined;
mod journey;
mod journey_times;
mod key;
mod lines;
mod progress;
mod same;
mod stage;
mod steps;

pub use cause::FileCause;
pub use change::{Act, Body, Change};
pub use cif_line::{Day, Memory, Tiploc};
pub use journey::Journey;
pub use key::{AssocKey, Key, ScheduleKey};
pub use lines::Lines;
pub use progress::Progress;
pub use steps::progress_after_basic;
