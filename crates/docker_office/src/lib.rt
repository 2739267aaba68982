//! Offices and runs. Each office keeps a state, takes files, exchanges states with the other
//! offices, and prints dockers. A run is a list of events at several offices.
#![tactic(auto)]

mod event;
mod excerpt_docker;
mod exchange;
mod fault;
mod files;
pub mod headline;
mod ledger_office;
mod office;
mod place_office;
mod reply;
mod runs;
mod steps;

pub use docker_bytes::{StateCause, StateFault};
pub use event::Event;
pub use exchange::Exchange;
pub use fault::OfficeFault;
pub use ledger_office::LedgerOffice;
pub use office::Office;
pub use place_office::PlaceOffice;
pub use reply::{Reply, RunFault};
pub use runs::run;
