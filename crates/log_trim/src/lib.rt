//! Just the lines that some lines of a derivation stand on.
#![tactic(auto)]

pub mod laws;
mod trimming;

pub use trimming::trim;
