// Workers read a text at the same time. These calls stand only where the types are Send and Sync.

use crate::{CertItem, CertView, Hints, Items, LineNumbers, Literals};

fn is_shared<T: Send + Sync>(_value: &T) {}

fn are_shared(view: &CertView<'_>, items: &Items<'_>, item: &CertItem<'_>) {
    is_shared(view);
    is_shared(items);
    is_shared(item);
}

fn lists_are_shared(literals: &Literals<'_>, hints: &Hints<'_>, targets: &LineNumbers<'_>) {
    is_shared(literals);
    is_shared(hints);
    is_shared(targets);
}
