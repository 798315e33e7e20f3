// Checkers and what workers work in may stand in any thread. These calls stand only where the types are
// Send and Sync.

use crate::{ClauseStatus, Lines, LiveChecker, Scratch, StoredClauses};

fn is_shared<T: Send + Sync>(_value: &T) {}

fn are_shared(
    checker: &LiveChecker<'_>,
    scratch: &Scratch,
    lines: &Lines,
    outcome: &ClauseStatus,
    stored: &StoredClauses,
) {
    is_shared(checker);
    is_shared(scratch);
    is_shared(lines);
    is_shared(outcome);
    is_shared(stored);
}
