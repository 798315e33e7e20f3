//! The trace of an accepted run, and the laws of runs.
#![tactic(auto)]

pub mod laws;
mod run_state;
mod showing;
mod tracing;

pub use run_state::{Close, RunState};
pub use tracing::trace_of;
