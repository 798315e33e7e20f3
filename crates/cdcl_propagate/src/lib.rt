//! Unit propagation over watched clauses: what the clauses force goes on the trail, until one is false or
//! none is unit.
#![tactic(auto)]

pub mod propagate;
mod units;
mod visit;

pub use units::visit_units;
