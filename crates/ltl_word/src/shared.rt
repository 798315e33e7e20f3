//! Traces may be lent to workers.
use crate::{Name, StateSet, Trace};

fn shares<T: Send + Sync>(_value: &T) {}

/// A trace, a state and a name may be sent to workers and shared among them.
pub fn all_shared(trace: &Trace, state: &StateSet, name: &Name) {
    shares(trace);
    shares(state);
    shares(name);
}
