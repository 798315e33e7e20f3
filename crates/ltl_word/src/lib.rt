//! Traces, and where formulas hold on them.
#![tactic(auto)]

mod json;
pub mod laws;
mod name;
mod shared;
mod state;
mod trace;

pub use json::TraceFault;
pub use name::Name;
pub use shared::all_shared;
pub use state::StateSet;
pub use trace::{States, Trace};
