//! The formula that the tokens of a text read as, by a stack of operators and without recursion.
#![tactic(auto)]

mod build;
pub mod laws;
mod meaning;
mod parsing;
mod reduce;
mod stack;
mod step;
mod strength;
mod walking;

pub use parsing::{ParseRefused, parse};
