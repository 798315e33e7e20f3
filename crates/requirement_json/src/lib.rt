//! The JSON face of a report about a document of requirements: one object, on one line. It tells the same
//! report as the text of `requirement_report`, but leaves out no answer and no claim, and gives names,
//! sentences and formulas as they are written.
#![tactic(auto)]

mod answers;
mod because;
mod checks;
mod items;
pub mod laws;
mod letters;
mod listing;
mod report;
mod texts;
mod traces;
mod whole;

pub use whole::json;
