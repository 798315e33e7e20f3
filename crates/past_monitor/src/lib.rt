//! Monitors of formulas that do not look ahead: for one state after the other, whether the formula holds at
//! the last one so far.
//!
//! Whether such a formula holds at a position depends on the states up to it alone, so a few earlier values
//! for each operator are all that is kept. A step takes no memory. Its time grows with the formula and with
//! the names in the state, and neither with how many states came before nor with the numbers of a bounded
//! operator.
#![tactic(auto)]

pub mod laws;
mod line;
mod monitor;
mod part;
mod refused;
mod ring;
mod text;
mod under;

pub use line::state_of;
pub use monitor::Monitor;
pub use refused::{MonitorRefused, WatchRefused};
pub use text::watch;
