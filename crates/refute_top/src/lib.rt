//! The program that refutes, from words and bytes to a status and bytes: it looks for claims that refute a
//! formula, and for a trace that satisfies it, or judges a certificate of claims.
#![tactic(auto)]

mod answer;
mod check;
mod output;
mod progress;
mod refute;
mod top;
mod turns;
mod verdict;

pub use report::Status;
pub use top::run;
