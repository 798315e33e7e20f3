//! Formulas without past operators: new names stand for past formulas, and an axiom says what each
//! new name means.
#![tactic(auto)]

mod axiom_row;
mod build;
mod counts;
pub mod laws;
mod lifting;
mod lowering;
mod names;
mod postorder;
mod removal;
mod residue_row;
mod sources;
mod stack;
mod symbol;
mod writer;

pub use lifting::lift;
pub use lowering::lower;
pub use removal::{RemoveRefused, Removed, remove};
