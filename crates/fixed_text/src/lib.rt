//! Texts of a fixed width, put together from pieces.
#![tactic(auto)]

mod text;

pub use text::{put, whole};
