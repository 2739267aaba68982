//! Readers of a state's text. Each state has exactly one text, and the readers accept no other text
//! for it. The crate also re-exports the functions that write a text, and the causes for which a
//! text is refused.
#![tactic(auto)]

mod excerpt;
mod fault;
mod join;
mod migration;
mod parser;
mod raised;
mod read;
mod reading;
mod state_parser;

pub use docker_excerpt::{Excerpt, KeptLedger};
pub use excerpt::{read_excerpt, read_ledger};
pub use fault::{StateFault, Step};
pub use join::join_state;
pub use migration::migrate;
pub use raised::read_raised;
pub use read::{ReadFault, read_state, read_unindexed};
pub use state_parser::StateParser;
pub use state_text::{StateCause, encoded_len, write_state};
