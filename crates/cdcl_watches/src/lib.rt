//! Clauses that are watched by two of their literals: the literals in one buffer, and the lists of the
//! clauses that watch each literal in one pool.
#![tactic(auto)]

mod arena;
mod clause;
mod coded;
mod pool;
mod span;
mod spare;
mod walk;
mod watch_lists;
mod watcher;
mod watches;

pub use arena::Arena;
pub use clause::Clause;
pub use coded::decode;
pub use walk::{Walk, keep, pass, rewatch};
pub use watch_lists::WatchLists;
pub use watcher::Watcher;
pub use watches::{Watches, number};
