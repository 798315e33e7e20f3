//! The words of the command line of both programs: what they ask for, with which options, and the usage
//! lines.
#![tactic(auto)]

mod asked;
mod decimal;
pub mod laws;
mod lines;
mod matching;
mod options;
mod refutation;
mod setting;
mod table;

pub use asked::{Asked, asked_command};
pub use decimal::decimal_number;
pub use lines::{refutation_usage, usage};
pub use matching::{flag, valued};
pub use options::Options;
pub use refutation::{Refutation, asked_refutation};
pub use table::{MAX_BATCH, Range, STEPS};
