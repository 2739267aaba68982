//! Laws of the definitions in `docker_model` about records and files. A law is a function with an
//! empty body. Its contract states a fact, which holds for all values of the variables.
#![tactic(auto)]

pub mod file;
