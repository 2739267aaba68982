//! Tests with worked examples that need several crates. They check what offices print and send,
//! what runs of events result in, and what commands write. The crate has only tests.
#![tactic(auto)]

#[cfg(test)]
mod commands;
#[cfg(test)]
mod compare;
#[cfg(test)]
mod devices;
#[cfg(test)]
mod dice;
#[cfg(test)]
mod dockers;
#[cfg(test)]
mod fault_lines;
#[cfg(test)]
mod horizons;
#[cfg(test)]
mod job_lines;
#[cfg(test)]
mod jobs;
#[cfg(test)]
mod knowledge;
#[cfg(test)]
mod offices;
#[cfg(test)]
mod printed_faults;
#[cfg(test)]
mod random_runs;
#[cfg(test)]
mod refused_files;
#[cfg(test)]
mod refused_states;
#[cfg(test)]
mod runs;
#[cfg(test)]
mod states;
#[cfg(test)]
mod subcommands;
