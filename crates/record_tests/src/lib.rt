//! Worked examples of devices, fields and records. For each kind of record, they cover its view and
//! its leftmost bad field. This crate has only tests.
#![tactic(auto)]

#[cfg(test)]
mod tests;
