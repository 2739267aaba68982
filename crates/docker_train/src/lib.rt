//! Which schedule is chosen for a UID on a day, and which extract it came from. The schedule is
//! printed as a heading, the schedule's records and a last line. Also lists the trains that have a
//! train identity and start on a day.
#![tactic(auto)]

mod chosen_train;
mod fault;
mod finding;
pub mod laws;
mod listing;
mod print;
mod stamped;
mod trains;
mod word;

pub use chosen_train::ChosenTrain;
pub use docker_day::{Docker, DockerFault, permanent_docker, write_docker};
pub use fault::TrainFault;
pub use finding::find_train;
pub use print::{print_train, write_train};
pub use trains::print_trains;
pub use word::uid_of_word;
