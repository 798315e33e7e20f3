//! Whether clauses and assumptions can be true together, with an assignment or a refuting line of the log.
#![tactic(auto)]

mod choice;
mod known;
mod restart;
mod retention;
mod solve;
mod solver;

pub use cdcl_state::has;
pub use known::{are_consistent, are_known};
pub use solve::Answer;
pub use solver::Solver;
