//! Tests of a desk by worked examples: the lines that it reads, the requests in them, its answers,
//! what it does with files, and whole sessions. The crate holds only tests.
#![tactic(auto)]

#[cfg(test)]
mod answers;
#[cfg(test)]
mod beginnings;
#[cfg(test)]
mod compare;
#[cfg(test)]
mod desks;
#[cfg(test)]
mod details;
#[cfg(test)]
mod end_recorder;
#[cfg(test)]
mod expected;
#[cfg(test)]
mod failures;
#[cfg(test)]
mod lines;
#[cfg(test)]
mod lists;
#[cfg(test)]
mod permanent;
#[cfg(test)]
mod questions;
#[cfg(test)]
mod records;
#[cfg(test)]
mod requests;
#[cfg(test)]
mod saving;
#[cfg(test)]
mod session_parts;
#[cfg(test)]
mod sessions;
#[cfg(test)]
mod shelves;
#[cfg(test)]
mod taking;
#[cfg(test)]
mod trains;
