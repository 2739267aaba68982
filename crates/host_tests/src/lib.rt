//! Worked examples of folders: real files, and files in memory. This crate has only tests.
#![tactic(auto)]

#[cfg(test)]
mod compare;
#[cfg(test)]
mod folders;
#[cfg(test)]
mod pipes;
#[cfg(test)]
mod real_files;
#[cfg(test)]
mod shelves;
