//! Literals, clauses, hints, and what makes a clause with hints a hinted step.
#![tactic(auto)]

pub mod clause_list;
pub mod clauses;
pub mod laws;
pub mod literal;
pub mod rows;
mod shared;

pub use clause_list::ClauseList;
pub use clauses::Clauses;
pub use literal::{Hint, Letter, Literal};
pub use rows::Rows;
