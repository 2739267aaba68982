//! Worked examples of dockers: their lines and the order of the lines, the choice of schedules,
//! midnights, associations, horizons, stamps and printed texts. In other tests, memory runs out
//! while a docker is made. This crate has only tests.
#![tactic(auto)]

#[cfg(test)]
mod tests;
