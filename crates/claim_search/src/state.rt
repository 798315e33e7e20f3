// What the search sees of states: the numbers of the letters of two neighbours, and the carry, which is all
// that the one has to know of the other: the next requests, and the arguments of the yesterday requests.

use crate::asker::Asker;
use crate::cube::{as_number, signed};
use claim_check::push_step_list;
use cnf_base::{ClauseList, Clauses, Literal};
use ltl_closure::{Closure, Entry};
use std::alloc::{AllocError, Global};

/// The letters of a step behind those of the entries. The first three are those of the list of a step; the
/// others stand for a first and for a last state at the next state, and for its meeting an eventuality.
#[derive(Clone, Copy, Drop)]
pub enum Mark {
    After,
    First,
    Last,
    NextFirst,
    NextLast,
    Meets(u32),
}

/// The number of entries.
pub fn width(closure: &Closure<'_>) -> u32 {
    closure.entries().len() as u32
}

/// The number of eventualities.
pub fn eventuality_count(closure: &Closure<'_>) -> u32 {
    as_number(closure.eventualities().len())
}

/// The literal of such a letter.
pub fn mark_of(closure: &Closure<'_>, of: Mark) -> Literal {
    let place = match of {
        Mark::After => 1,
        Mark::First => 2,
        Mark::Last => 3,
        Mark::NextFirst => 4,
        Mark::NextLast => 5,
        Mark::Meets(eventuality) => eventuality.saturating_add(6),
    };
    signed(
        width(closure).saturating_mul(2).saturating_add(place),
        false,
    )
}

/// The entry of a number from 1 on.
pub fn entry_of(closure: &Closure<'_>, number: u32) -> Entry {
    let entries = closure.entries();
    let index = (number as usize).saturating_sub(1);
    if index < entries.len() {
        return entries[index];
    }
    Entry::True
}

/// The request and the right operand of the eventuality, which is numbered from 0.
pub fn eventuality(closure: &Closure<'_>, index: u32) -> Option<(u32, u32)> {
    let numbers = closure.eventualities();
    let index = index as usize;
    if index >= numbers.len() {
        return None;
    }
    match entry_of(closure, numbers[index]) {
        Entry::Until { right, request, .. } => Some((request, right)),
        _ => None,
    }
}

/// Marks the places, from 0 on, of the entries of the carry.
fn mark_carried(entries: &[Entry], is_carried: &mut Vec<bool>) {
    for (place, of) in entries.iter().enumerate() {
        let carried = match *of {
            Entry::Next { .. } => place,
            Entry::Yesterday { argument, .. } => (argument as usize).saturating_sub(1),
            _ => entries.len(),
        };
        if carried < is_carried.len() {
            is_carried[carried] = true;
        }
    }
}

/// The numbers of the entries of the carry, in their order.
pub fn carry(alloc: Global, closure: &Closure<'_>) -> Result<Vec<u32>, AllocError> {
    let entries = closure.entries();
    let mut is_carried = Vec::new(alloc);
    is_carried.resize(entries.len(), false)?;
    mark_carried(entries, &mut is_carried);
    let mut carry = Vec::new(alloc);
    for (place, carried) in is_carried.iter().enumerate() {
        if *carried {
            carry.push(as_number(place).saturating_add(1))?;
        }
    }
    Ok(carry)
}

/// Puts the list of a step into the solver.
fn load_list(alloc: Global, closure: &Closure<'_>, asker: &mut Asker) -> Result<(), AllocError> {
    let mut list = ClauseList::new(alloc);
    push_step_list(closure, &mut list)?;
    asker.grow(mark_of(closure, Mark::Last).letter.0)?;
    for number in 0..list.count() {
        asker.add(list.clause(number + 1))?;
    }
    Ok(())
}

/// Puts what it means into the solver that the next state is a first or a last one.
fn load_ends(closure: &Closure<'_>, asker: &mut Asker) -> Result<(), AllocError> {
    let width = width(closure);
    let not_first = mark_of(closure, Mark::NextFirst).opposite();
    let not_last = mark_of(closure, Mark::NextLast).opposite();
    asker.add(&[
        not_first,
        signed(width.saturating_add(closure.root()), false),
    ])?;
    for (place, of) in closure.entries().iter().enumerate() {
        let letter = as_number(place).saturating_add(1).saturating_add(width);
        match *of {
            Entry::Yesterday { weak, .. } => asker.add(&[not_first, signed(letter, !weak)])?,
            Entry::Next { weak: false, .. } => asker.add(&[not_last, signed(letter, true)])?,
            _ => {}
        }
    }
    Ok(())
}

/// Puts what the marks of the next state mean into the solver.
fn load_marks(closure: &Closure<'_>, asker: &mut Asker) -> Result<(), AllocError> {
    let width = width(closure);
    let eventualities = eventuality_count(closure);
    asker.grow(mark_of(closure, Mark::Meets(eventualities)).letter.0)?;
    load_ends(closure, asker)?;
    for index in 0..eventualities {
        if let Some((request, right)) = eventuality(closure, index) {
            let not_met = mark_of(closure, Mark::Meets(index)).opposite();
            let request = signed(width.saturating_add(request), true);
            asker.add(&[not_met, request, signed(width.saturating_add(right), false)])?;
        }
    }
    Ok(())
}

/// A solver with the list of a step, which shows the values of the first letters.
pub fn list_asker(alloc: Global, closure: &Closure<'_>, shown: u32) -> Result<Asker, AllocError> {
    let mut asker = Asker::new(alloc, shown)?;
    load_list(alloc, closure, &mut asker)?;
    Ok(asker)
}

/// A solver with the list of a step and what the marks of the next state mean.
pub fn marked_asker(alloc: Global, closure: &Closure<'_>, shown: u32) -> Result<Asker, AllocError> {
    let mut asker = list_asker(alloc, closure, shown)?;
    load_marks(closure, &mut asker)?;
    Ok(asker)
}
