//! Why a conflict came: a walk down the trail resolves reasons into a clause that is learnt, with its hints.
#![tactic(auto)]

mod analyze;
mod graph;
mod marks;
mod minimize;
mod reason;
mod waiting;

pub use analyze::{Cut, Learnt, explain, explain_forced};
pub use graph::ImplicationGraph;
pub use marks::Marks;
