//! Lines with hints that follow one after another from a list of clauses, which is stored nowhere: a clause
//! of the list is named by its number.
#![tactic(auto)]

pub mod derivation;
pub mod laws;
pub mod named_log;
mod shared;

pub use derivation::Derivation;
pub use named_log::NamedLog;
