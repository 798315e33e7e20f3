// Answers may stand in any thread. These calls stand only where the types are Send and Sync.

use crate::{LineAnswer, LineOutcome};

fn is_shared<T: Send + Sync>(_value: &T) {}

fn are_shared(answer: &LineAnswer, outcome: &LineOutcome) {
    is_shared(answer);
    is_shared(outcome);
}
