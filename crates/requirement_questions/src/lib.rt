//! Questions about several formulas: whether some trace satisfies each of them, with the trace, or with a set
//! of them that none satisfies, as small as can be shown.
#![tactic(auto)]

mod answering;
mod asking;
mod failure;
mod joining;
pub mod laws;
mod leaving;
mod members;
mod parting;
mod questions;
mod replacing;
mod settling;
mod sizing;
mod triggering;
mod turns;

pub use answering::{QuestionAnswer, answer_question};
pub use asking::{SearchOutcome, ask};
pub use failure::first_failure;
pub use leaving::Because;
pub use members::Member;
pub use parting::{Core, core_of};
pub use questions::{DEFAULT_STEPS, Given, Limits, Question, Wanted};
pub use triggering::trigger;
pub use turns::{Attempt, Attempted};
