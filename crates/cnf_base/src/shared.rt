// Workers read clauses at the same time. This call stands only where the type is Send and Sync.

use crate::ClauseList;

fn is_shared<T: Send + Sync>(_value: &T) {}

fn are_shared(list: &ClauseList) {
    is_shared(list);
}
