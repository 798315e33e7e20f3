// Workers read derivations at the same time. These calls stand only where the types are Send and Sync.

use crate::{Derivation, NamedLog};

fn is_shared<T: Send + Sync>(_value: &T) {}

fn are_shared(derivation: &Derivation, log: &NamedLog) {
    is_shared(derivation);
    is_shared(log);
}
