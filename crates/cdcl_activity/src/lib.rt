//! Which letter is decided next: letters by their activity, and the values that they had last.
#![tactic(auto)]

mod choices;
mod order;

pub use choices::Choices;
