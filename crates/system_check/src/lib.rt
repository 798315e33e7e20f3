//! Finite systems: what holds of the first state and of each two states in a row, and whether each path
//! satisfies a goal.
#![tactic(auto)]

mod deciding;
mod forms;
mod joining;
pub mod laws;

pub use deciding::{SystemAnswer, decide_system};
pub use joining::{JoinRefused, Joined, join_parts};
