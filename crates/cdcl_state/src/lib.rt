//! The state of a clause solver: trail, log and watched clauses together, kept in step as clauses come,
//! conflicts are learnt from and decisions are taken back.
#![tactic(auto)]

mod copy;
mod decide;
mod gather;
mod kept;
mod lettered;
mod named;
mod repeats;
mod state;
mod store;
mod widen;

pub use kept::is_marked;
pub use state::State;
pub use store::has;
