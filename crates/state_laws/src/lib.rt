//! Laws of the definitions in `docker_model` for states, for the texts and indexes of states, and
//! for receiving a state. A law is a function with an empty body. Its contract states a fact, which
//! holds for all values of the variables.
#![tactic(auto)]

pub mod index;
pub mod staging;
pub mod state;
pub mod text;
