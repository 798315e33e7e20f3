//! The depths of the tableau, one after another, over one solver, which gets the clauses of the list as the
//! runs that it finds ask for them: what the tableau says of a formula, with what shows it.
#![tactic(auto)]

mod accepting;
mod assuming;
mod closing;
mod deciding;
mod decision;
mod demanded;
mod exploring;
mod growing;
mod inputs;
pub mod laws;
mod limit;
mod listed;
mod looking;
mod questions;
mod rest;
mod showing;
mod unpruning;

pub use deciding::decide;
pub use decision::Decision;
pub use exploring::{Exploration, Explored};
pub use limit::{decide_in_force, limit_in_force};
