//! Appends the clauses of a whole step: those of its states, of its pairs and of pruning, one behind the
//! other.
#![tactic(auto)]

mod appending;

pub use appending::append;
