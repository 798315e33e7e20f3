//! Lines of a certificate, judged one by one.
#![tactic(auto)]

mod assignment;
mod cuts;
pub mod judge;
mod kept;
pub mod laws;
pub mod lines;
mod listed;
pub mod live;
mod outcome;
mod shared;
pub mod stored;
mod worker;

pub use assignment::Assignment;
pub use judge::{NamedClauses, NamedLines, with_literal};
pub use lines::{Lines, Scratch, check_lines};
pub use listed::{Listed, Rest};
pub use live::LiveChecker;
pub use outcome::ClauseStatus;
pub use stored::StoredClauses;
