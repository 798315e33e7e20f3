//! Unsatisfiable cores: which parts of a formula conflict.
#![tactic(auto)]

mod extracting;
pub mod laws;
mod passing;
mod presenting;
mod task;
mod testing;

pub use extracting::core;
pub use presenting::{mark, present};
pub use task::Task;
pub use testing::is_refuted;
