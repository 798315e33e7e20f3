// Workers read logs at the same time. These calls stand only where the types are Send and Sync.

use crate::{Log, LogView};

fn is_shared<T: Send + Sync>(_value: &T) {}

fn are_shared(log: &Log, view: &LogView<'_>) {
    is_shared(log);
    is_shared(view);
}
