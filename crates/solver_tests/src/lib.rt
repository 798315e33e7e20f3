//! Tests of clauses, of logs of clauses, and of the solver.
#![tactic(auto)]

#[cfg(test)]
mod clauses;
#[cfg(test)]
mod literals;
#[cfg(test)]
mod logs;
#[cfg(test)]
mod solving;
