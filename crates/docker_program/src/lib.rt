//! The program `docker` on any devices: it reads the words, does the job that they name, and
//! reports how the job ended.
#![tactic(auto)]

mod fault_report;
mod given;
mod job_names;
mod job_output;
mod job_sources;
pub mod laws;
mod looks;
mod names;
mod program;
mod real_run;
mod request;
mod shelf_runs;

pub use docker_cmd::{Fault, JobFault};
pub use fault_report::tell;
pub use given::perform_given;
pub use program::perform;
pub use real_run::{own_words, run};
pub use shelf_runs::{check_on_a_shelf, take_on_a_shelf};
