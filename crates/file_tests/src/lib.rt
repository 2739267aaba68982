//! Worked examples of files: texts that are accepted or refused, read whole, in pieces and from
//! sources. This crate has only tests.
#![tactic(auto)]

#[cfg(test)]
mod tests;
