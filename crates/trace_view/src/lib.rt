//! A trace as a picture: a grid of truth values, and its text and its timing diagram.
//!
//! A grid has a row for each letter that is asked for and a cell for each state of the trace, of which a loop
//! is shown once. Text and diagram are functions of the grid, and any name can be shown.
#![tactic(auto)]

mod diagram;
mod grid;
mod letters;
mod lines;
mod names;

pub use diagram::svg;
pub use grid::{CELL_LIMIT, Grid, GridRefused};
pub use letters::letters_of;
pub use lines::text;
