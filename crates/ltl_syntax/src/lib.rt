//! Formulas of linear temporal logic with past: a flat table of nodes, and their text.
#![tactic(auto)]

mod fresh;
pub mod laws;
mod marks;
mod node;
mod preorder;
mod printing;
mod replacing;
mod shared;
mod table;

pub use fresh::has_no_fresh;
pub use marks::{MarkedNodes, mark_under};
pub use node::{BinaryOp, Kind, Node, UnaryOp};
pub use preorder::nodes_under;
pub use printing::print;
pub use replacing::replace;
pub use table::{FormulaTable, MAX_SIZE, PushRefused};
