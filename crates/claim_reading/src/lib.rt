//! Claims about single states as formulas that never hold.
#![tactic(auto)]

mod entry_node;
mod entry_sizes;
pub mod laws;
mod lines;
mod printing;

pub use lines::never_lines;
