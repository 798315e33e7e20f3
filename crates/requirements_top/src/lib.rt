//! The program that answers documents, from words and bytes to a status and bytes: it reads a document of
//! named requirements and says whether they can be met together, what follows from them and what they allow.
#![tactic(auto)]

mod answer;
mod certifying;
mod hints;
mod naming;
mod output;
mod pointing;
mod progress;
mod refusing;
mod reporting;
mod texts;
mod top;
mod words;

pub use report::Status;
pub use top::run;
