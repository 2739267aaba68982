//! Worked examples of the schedule that is chosen for a UID on a day: a permanent schedule, its
//! overlay, its cancellation, a new schedule, or none. Further examples are about deletions,
//! revisions, horizons, a full sink, and words that are UIDs. This crate has only tests.
#![tactic(auto)]

#[cfg(test)]
mod tests;
