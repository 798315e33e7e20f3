// Runs: an obligation and those that it comes from are states one after another. A state was found before the
// one that follows it, and its cube leaves open which of its next requests are true; here each has the value
// that its argument has in the next state, and what stands on it follows.

use crate::backward::Backward;
use crate::cube::as_number;
use crate::lift::value_in;
use crate::obligations::Obligations;
use crate::state::entry_of;
use cnf_base::Rows;
use ltl_closure::{Closure, Entry};
use std::alloc::AllocError;

/// The value of the entry of this number by those of its operands, or its own where it has none.
fn value_of(state: &Vec<bool>, number: u32, of: Entry) -> bool {
    match of {
        Entry::True => true,
        Entry::False => false,
        Entry::NotLetter(letter) => !value_in(state, letter),
        Entry::And(left, right) => value_in(state, left) && value_in(state, right),
        Entry::Or(left, right) => value_in(state, left) || value_in(state, right),
        Entry::Until {
            left,
            right,
            request,
        }
        | Entry::Since {
            left,
            right,
            request,
        } => value_in(state, right) || (value_in(state, left) && value_in(state, request)),
        Entry::Release {
            left,
            right,
            request,
        }
        | Entry::Trigger {
            left,
            right,
            request,
        } => value_in(state, right) && (value_in(state, left) || value_in(state, request)),
        _ => value_in(state, number),
    }
}

/// Sets the value of an entry.
fn set_value(state: &mut Vec<bool>, number: u32, value: bool) {
    let index = number as usize;
    if index < state.len() {
        state[index] = value;
    }
}

/// Gives the next requests the values of their arguments in the next state.
fn look_ahead(closure: &Closure<'_>, state: &mut Vec<bool>, next: &[bool]) {
    for number in closure.nexts() {
        if let Entry::Next { argument, .. } = entry_of(closure, *number) {
            set_value(state, *number, value_in(next, argument));
        }
    }
}

/// Gives the entries the values that follow from those of their operands. These have smaller numbers, or are
/// requests.
fn evaluate(closure: &Closure<'_>, state: &mut Vec<bool>) {
    for (place, of) in closure.entries().iter().enumerate() {
        let number = as_number(place).saturating_add(1);
        let value = value_of(state, number, *of);
        set_value(state, number, value);
    }
}

/// The state of the run at this place from its last one back, or none.
pub fn state_at(run: &Rows<bool>, place: usize) -> &[bool] {
    if place < run.len() {
        return run.row(place);
    }
    &[]
}

/// Puts the state before those of the run.
fn put_before(
    backward: &Backward<'_>,
    found: &[bool],
    run: &mut Rows<bool>,
) -> Result<(), AllocError> {
    let mut state = Vec::new(backward.alloc);
    state.extend_from_slice(found)?;
    let count = run.len();
    if count > 0 {
        look_ahead(backward.closure, &mut state, state_at(run, count - 1));
        evaluate(backward.closure, &mut state);
    }
    run.push(&state)
}

/// The run that ends at the obligation, from its last state back to its first.
pub fn run_to(
    backward: &Backward<'_>,
    obligations: &Obligations,
    index: u32,
) -> Result<Rows<bool>, AllocError> {
    let mut run = Rows::new(backward.alloc);
    for own in &obligations.chain_to(backward.alloc, index)? {
        put_before(backward, obligations.state(*own), &mut run)?;
    }
    Ok(run)
}
