//! Worked examples of what the whole program promises. Offices take different files, exchange
//! their states, lose one, and still print the same docker. In one example a desk works on a state
//! between the commands.
#![tactic(auto)]

mod commands;
mod desk_and_office;
mod two_offices;

pub use desk_and_office::{Printed, desk_and_office_agree};
pub use two_offices::{Dockers, two_offices_agree};
