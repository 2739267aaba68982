//! Worked examples of entries, tables, states and indexes. States are made from files, joined,
//! received, given horizons, and searched for the calls at a place. This crate has only tests.
#![tactic(auto)]

#[cfg(test)]
mod tests;
