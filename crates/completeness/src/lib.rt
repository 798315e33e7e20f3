//! Hinted steps are complete: what a list of clauses entails has lines.
#![tactic(auto)]

pub mod laws;
