//! The docker of a timing point and a day: its lines, their order, and its printed text.
#![tactic(auto)]

mod base_calls;
mod bases;
mod clock;
mod detail;
mod docker_line;
mod docker_list;
mod fault;
mod first_event;
mod gathering;
mod link_lines;
mod location;
mod making;
mod portions;
mod print;
mod row_view;
mod starts;
mod train_lines;
mod visit;
mod visits;

pub use cif_change::{Key, ScheduleKey};
pub use clock::clock_text;
pub use detail::Detail;
pub use docker_line::DockerLine;
pub use docker_list::Docker;
pub use docker_state::{LedgerItem, Merge, State};
pub use fault::DockerFault;
pub use making::{docker, docker_in, permanent_docker};
pub use print::{heading, last_line, text_of_line, write_docker};
pub use train_choice::{Occasion, ScheduleView, chosen, falls, runs};
