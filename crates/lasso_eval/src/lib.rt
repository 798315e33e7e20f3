//! Where a formula holds on a trace: a table of truth values, one row for each node under the
//! root and one column for each position.
//!
//! On an infinite trace a formula whose past operators are nested h deep, a bounded one counted as
//! often as it looks back, repeats with the loop from h loops after the stem on, so the stem and
//! h + 1 loops are all that is looked at. Each row is filled from the rows of the node's children
//! in one pass, or in two where a future operator has to look round the loop, whatever the
//! numbers of a bounded operator are.
#![tactic(auto)]

mod depth;
mod evaluate;
mod extent;
mod local;
mod neighbour;
mod node_row;
mod refused;
mod row;
mod span;
mod window;

pub use evaluate::{holds, values};
pub use refused::EvalRefused;
pub use row::TruthRows;
