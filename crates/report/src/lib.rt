//! The output texts: one call for each answer, which adds its text to what is printed.
#![tactic(auto)]

mod fault;
mod lines;
mod past;
mod paths;
mod refusal;
mod states;
mod status;
mod summary;
mod verdict;

pub use fault::Fault;
pub use lines::{line, numbered};
pub use past::{depasted, lifted};
pub use paths::{no_path, path_fails, paths_hold, paths_hold_by};
pub use refusal::refused;
pub use states::answers;
pub use status::Status;
pub use summary::{Shown, Summary, demo};
pub use verdict::{checked, sat, traced, undecided, unsat};
