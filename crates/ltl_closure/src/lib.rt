//! The negation normal form of a formula, its closure, and the runs of the tableau.
#![tactic(auto)]

mod closure;
mod entry;
mod group;
mod key;
pub mod laws;
mod memo;
mod plan;
mod shared;
mod walk;

pub use closure::Closure;
pub use entry::Entry;
