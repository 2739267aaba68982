//! The detailed docker of a timing point and a day: each line with the records that it was made
//! from.
#![tactic(auto)]

mod detailed_line;
mod detailed_list;
mod event_records;
mod known_train;
mod link_records;
mod making;
mod origin;
mod origins;
mod print;
mod record_walk;
mod train_records;

pub use detailed_line::DetailedLine;
pub use detailed_list::DetailedDocker;
pub use docker_day::{DockerFault, State};
pub use making::{detailed_docker, permanent_detailed_docker};
pub use print::write_detailed;
