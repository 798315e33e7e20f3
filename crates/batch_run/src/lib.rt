//! Batches: one formula a line, decided by several workers side by side.
#![tactic(auto)]

mod answer;
mod deciding;
mod groups;
pub mod laws;
mod lines;
mod printing;
mod shared;

pub use answer::{LineAnswer, LineOutcome, all_verdicts};
pub use groups::answers;
pub use printing::batch_text;
