//! Searches for claims that refute a formula: IC3 that goes backwards from a state to the one before it, on
//! infinite traces over levels of eventualities. Nothing is said of what it finds: whoever asks has it
//! judged.
#![tactic(auto)]

mod asker;
mod backward;
mod blocking;
mod choose;
mod consistent;
mod cube;
mod finish;
mod fixed_point;
mod frames;
mod generalise;
mod lay_out;
mod levels;
mod lift;
mod obligations;
mod prove;
mod run;
mod search;
mod state;
mod trim;

pub use search::{Progress, Search};
