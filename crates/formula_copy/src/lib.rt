//! The tree under a node of one table, put into another: so a formula is made of several tables.
#![tactic(auto)]

mod copying;
mod parts;
mod putting;

pub use copying::{copy, put};
pub use parts::TablePart;
pub use putting::{put_node, put_tree, tree_size};
