//! A log of clauses with hints, each of them a hinted step.
#![tactic(auto)]

pub mod laws;
pub mod log;
mod shared;

pub use log::{Log, LogView};
