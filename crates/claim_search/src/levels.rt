// What a run tells on infinite traces. Either it goes round: some state has the carry of an earlier one, and
// what is pending there was fulfilled between them, or nothing is asked of the next state; then there is a
// trace. Or one more level is needed: its eventuality is the one that was longest not met.

use crate::backward::Backward;
use crate::cube::as_number;
use crate::lift::value_in;
use crate::run::state_at;
use crate::state::eventuality;
use cnf_base::Rows;
use std::alloc::AllocError;

/// Whether nothing is asked of the state after this one.
pub fn asks_nothing(backward: &Backward<'_>, state: &[bool]) -> bool {
    for number in backward.closure.nexts() {
        if value_in(state, *number) {
            return false;
        }
    }
    true
}

/// Whether the eventuality of this place is pending in the state.
fn is_pending(backward: &Backward<'_>, state: &[bool], place: usize) -> bool {
    match eventuality(backward.closure, as_number(place)) {
        Some((request, _)) => value_in(state, request),
        None => false,
    }
}

/// Whether it is fulfilled in the state.
fn is_fulfilled(backward: &Backward<'_>, state: &[bool], place: usize) -> bool {
    match eventuality(backward.closure, as_number(place)) {
        Some((_, right)) => value_in(state, right),
        None => false,
    }
}

/// Takes note of what is fulfilled in the state.
fn put_fulfilled(backward: &Backward<'_>, state: &[bool], fulfilled: &mut Vec<bool>) {
    for place in 0..fulfilled.len() {
        if is_fulfilled(backward, state, place) && place < fulfilled.len() {
            fulfilled[place] = true;
        }
    }
}

/// Whether what is pending in the state is fulfilled.
fn is_answered(backward: &Backward<'_>, state: &[bool], fulfilled: &Vec<bool>) -> bool {
    for (place, done) in fulfilled.iter().enumerate() {
        if !*done && is_pending(backward, state, place) {
            return false;
        }
    }
    true
}

/// Whether two states have the same carry.
fn is_same(backward: &Backward<'_>, one: &[bool], other: &[bool]) -> bool {
    for number in &backward.carry {
        if value_in(one, *number) != value_in(other, *number) {
            return false;
        }
    }
    true
}

/// Whether the run, which is told from its last state back, closes at its state of this place: nothing is
/// asked of the next one, or an earlier one has the same carry, and what is pending was fulfilled since.
pub fn closes_at(
    backward: &Backward<'_>,
    run: &Rows<bool>,
    place: usize,
) -> Result<bool, AllocError> {
    let last = state_at(run, place);
    if asks_nothing(backward, last) {
        return Ok(true);
    }
    let mut fulfilled = Vec::new(backward.alloc);
    fulfilled.resize(backward.closure.eventualities().len(), false)?;
    for earlier in place..run.len() {
        let state = state_at(run, earlier);
        if earlier > place && is_same(backward, state, last) {
            if is_answered(backward, last, &fulfilled) {
                return Ok(true);
            }
        }
        put_fulfilled(backward, state, &mut fulfilled);
    }
    Ok(false)
}

/// The longest stretch of the run, told from its last state back, in which the eventuality of this place is
/// not met. Its first state does not count.
fn longest_gap(backward: &Backward<'_>, run: &Rows<bool>, place: usize) -> u64 {
    let mut longest = 0u64;
    let mut gap = 0u64;
    for from in 0..run.len().saturating_sub(1) {
        let state = state_at(run, from);
        let unmet = is_pending(backward, state, place) && !is_fulfilled(backward, state, place);
        gap = if unmet { gap.saturating_add(1) } else { 0 };
        if gap > longest {
            longest = gap;
        }
    }
    longest
}

/// How many levels each eventuality has.
fn uses(backward: &Backward<'_>) -> Result<Vec<u64>, AllocError> {
    let mut counts = Vec::new(backward.alloc);
    counts.resize(backward.closure.eventualities().len(), 0u64)?;
    for own in &backward.sequence {
        if let Some(index) = *own {
            let place = index as usize;
            if place < counts.len() {
                counts[place] = counts[place].saturating_add(1);
            }
        }
    }
    Ok(counts)
}

/// The eventuality of the next level: the one with the longest gap, and of these the one that was used least.
/// None where there are no eventualities.
pub fn next_eventuality(
    backward: &Backward<'_>,
    run: &Rows<bool>,
) -> Result<Option<u32>, AllocError> {
    let counts = uses(backward)?;
    let mut best = None;
    let mut longest = 0u64;
    let mut fewest = u64::MAX;
    for (place, used) in counts.iter().enumerate() {
        let gap = longest_gap(backward, run, place);
        if gap > longest || (gap == longest && *used < fewest) {
            best = Some(as_number(place));
            longest = gap;
            fewest = *used;
        }
    }
    Ok(best)
}
