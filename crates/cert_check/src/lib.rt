//! A certificate against a formula.
#![tactic(auto)]

mod alone;
mod checking;
pub mod laws;
mod listing;
mod on_demand;
mod targets;
mod together;
pub mod verdict;

pub use checking::check;
pub use verdict::{CheckRefused, Reason, Verdict};
