//! The clause list of a formula by the numbers of its clauses, without the list: each clause is worked out
//! from its number, and what parts of the list are asked for is written clause by clause.
#![tactic(auto)]

mod acceptance;
mod appending;
mod found;
mod gate;
mod indexed;
mod link;
mod numbers;
mod operands;
mod pair;
mod place;
mod pruning;
mod request;
mod run;
mod samples;
mod sizes;
mod state;
mod storing;

pub use found::Found;
pub use gate::{GateLiterals, push_gate};
pub use indexed::Indexed;
pub use numbers::{Numbers, PairPart};
pub use operands::{Operands, operands_of};
pub use place::StepSection;
pub use run::Run;
pub use storing::stored;
