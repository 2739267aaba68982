//! The commands of the program: which job the words name, what a job reads and writes, and how a
//! fault is reported.
#![tactic(auto)]

mod check_line;
mod fault;
mod fault_line;
mod grammar;
mod holding;
mod job_fault;
mod job_of_words;
mod jobs;
mod line_of_job;
mod named;
mod output;
mod prepared_job;
mod reads;
mod sources;
mod tasks;
mod words;
mod writes;

pub use docker_office::{Office, OfficeFault};
pub use fault::Fault;
pub use fault_line::{FaultText, fault_text, status};
pub use job_fault::JobFault;
pub use job_of_words::job;
pub use jobs::Job;
pub use line_of_job::{job_line, split_at_space, text_of};
pub use named::{TableWord, is_plain, place_and_day, word_named};
pub use output::emit;
pub use prepared_job::{Prepared, prepare};
pub use reads::Sources;
pub use sources::MOST_BYTES;
pub use tasks::{Subcommand, Task};
pub use writes::OutputKind;
