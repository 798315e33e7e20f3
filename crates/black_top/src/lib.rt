//! The whole program, from words and bytes to a status and bytes.
#![tactic(auto)]

mod answer;
mod commands;
pub mod laws;
mod output;
mod parts;
mod ring;
mod top;

pub use report::Status;
pub use ring::demo_text;
pub use top::run;
