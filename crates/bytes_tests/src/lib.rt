//! Worked examples of states and their texts: states are made, joined, written, read, received and
//! migrated. This crate has only tests.
#![tactic(auto)]

#[cfg(test)]
mod tests;
