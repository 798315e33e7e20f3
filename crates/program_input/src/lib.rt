//! The input of a program: its cut at a separator line, and the formula of its text.
#![tactic(auto)]

mod parts;
mod reading;

pub use formula_reading::MAX_TEXT;
pub use parts::{Parts, cut};
pub use reading::{PartReading, read_formula};
