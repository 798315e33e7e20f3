//! The trail of a clause solver: the literals that are true, in the order in which they became so, each with
//! its level and its reason, and the letters' values.
#![tactic(auto)]

mod assigned;
mod entries;
mod hints;
mod named;
mod values;

pub use assigned::{Assigned, TrailEntry};
pub use hints::{decode_hint, encode_hint};
pub use named::clause_of;
