//! The letters and the clause list of the encoding: their numbers, and the laws between assignments and runs.
#![tactic(auto)]

pub mod laws;
mod layout;

pub use layout::{Layout, Part};
