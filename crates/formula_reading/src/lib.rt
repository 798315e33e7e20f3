//! From the bytes of a text to the formula that it reads as, or to the first of its faults.
#![tactic(auto)]

pub mod laws;
mod reading;

pub use reading::{FormulaFault, MAX_TEXT, Reading, read_formula};
