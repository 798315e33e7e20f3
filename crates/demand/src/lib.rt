//! Clauses on demand: a part of the clause list is put into the solver, what it finds is looked at as a run,
//! and what the run breaks is put in as well, until the run is as it was asked for or there is none. This is
//! temporal induction with constraints on demand, after Eén and Sörensson (2003).
#![tactic(auto)]

mod closing;
mod constraint;
mod difference;
mod entries;
mod fulfilment;
pub mod laws;
mod pruning;
mod reading;
mod refusing;
mod row;
mod values;

pub use closing::close_of;
pub use constraint::Constraint;
pub use difference::first_difference;
pub use pruning::{Pruned, Pruning, prunings};
pub use reading::read_rows;
pub use refusing::refuse_loops;
pub use row::Row;
pub use values::Values;
