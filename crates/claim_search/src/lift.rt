// Lifting: an obligation's cube has of the carry of the state that was found only what the step to that
// state needs, so that it names more states that would have done as well (Een, Mishchenko and Brayton,
// Efficient implementation of property directed reachability, 2011, who lift by ternary simulation). What
// is needed is found without a question, by justification over entries, which is ours: the value of an entry
// follows from those of some operands, and so on down to letters, yesterday requests and next requests. The
// first two are free to the state; a next request binds the state after it, so each costs one, and of two
// ways to justify a value the cheaper one is taken. An operand's cost counts once for each way to it.

use crate::backward::{Backward, Way};
use crate::cube::{as_number, signed};
use crate::state::{entry_of, eventuality, width};
use cnf_base::Literal;
use ltl_closure::{Closure, Entry};
use std::alloc::{AllocError, Global};

/// The operands from whose values that of an entry follows. There are two at most: 0 stands for none.
type Reason = [u32; 2];

/// The value of an entry in a state, by its number.
pub fn value_in(state: &[bool], number: u32) -> bool {
    let index = number as usize;
    index < state.len() && state[index]
}

/// What it costs to justify the value of each entry of a state, by its number, and how that is done.
#[derive(Drop)]
struct Justification<'s> {
    state: &'s [bool],
    costs: Vec<u32>,
    reasons: Vec<Reason>,
}

impl<'s> Justification<'s> {
    /// Justifies the value of each entry, those of its operands first.
    fn of(
        alloc: Global,
        closure: &Closure<'_>,
        state: &'s [bool],
    ) -> Result<Justification<'s>, AllocError> {
        let mut all = Justification {
            state,
            costs: own_costs(alloc, closure)?,
            reasons: Vec::new(alloc),
        };
        all.reasons.push([0, 0])?;
        for (place, of) in closure.entries().iter().enumerate() {
            let number = as_number(place).saturating_add(1);
            let reason = all.reason(value_in(state, number), *of);
            all.raise(number, reason);
            all.reasons.push(reason)?;
        }
        Ok(all)
    }

    fn cost(&self, number: u32) -> u32 {
        let index = number as usize;
        if index < self.costs.len() {
            return self.costs[index];
        }
        0
    }

    /// Puts what the operands cost on top of what the entry itself does.
    fn raise(&mut self, number: u32, reason: Reason) {
        let cost = self.sum(reason);
        let index = number as usize;
        if index < self.costs.len() {
            self.costs[index] = self.costs[index].saturating_add(cost);
        }
    }

    fn sum(&self, reason: Reason) -> u32 {
        self.cost(reason[0]).saturating_add(self.cost(reason[1]))
    }

    /// Why the entry has this value.
    fn reason(&self, value: bool, of: Entry) -> Reason {
        match of {
            Entry::And(left, right) if value => [left, right],
            Entry::And(left, right) => [self.cheaper(value, left, right), 0],
            Entry::Or(left, right) if value => [self.cheaper(value, left, right), 0],
            Entry::Or(left, right) => [left, right],
            Entry::Until {
                left,
                right,
                request,
            }
            | Entry::Since {
                left,
                right,
                request,
            } => self.of_bound(value, value, left, right, request),
            Entry::Release {
                left,
                right,
                request,
            }
            | Entry::Trigger {
                left,
                right,
                request,
            } => self.of_bound(value, !value, left, right, request),
            _ => [0, 0],
        }
    }

    /// Why an until, a release or the like has this value: where the right operand gives it alone, that one,
    /// or the two others together; else the right one, and one of the others.
    fn of_bound(&self, value: bool, alone: bool, left: u32, right: u32, request: u32) -> Reason {
        if !alone {
            return [right, self.cheaper(value, left, request)];
        }
        let both = [left, request];
        if !self.has(value, right) {
            return both;
        }
        let has_both = self.has(value, left) && self.has(value, request);
        if has_both && self.sum(both) < self.cost(right) {
            return both;
        }
        [right, 0]
    }

    fn has(&self, value: bool, number: u32) -> bool {
        value_in(self.state, number) == value
    }

    /// The one of two entries that has this value, or the cheaper one where both have.
    fn cheaper(&self, value: bool, one: u32, other: u32) -> u32 {
        if !self.has(value, other) {
            return one;
        }
        if self.has(value, one) && self.cost(one) <= self.cost(other) {
            return one;
        }
        other
    }

    fn reason_of(&self, number: u32) -> Reason {
        let index = number as usize;
        if index < self.reasons.len() {
            return self.reasons[index];
        }
        [0, 0]
    }

    /// Marks all that justifies what is marked. Operands have smaller numbers, or are requests.
    fn reach(&self, marks: &mut Vec<bool>) {
        let count = as_number(self.reasons.len());
        for later in 0..count {
            let number = count - later;
            if value_in(marks, number) {
                let reason = self.reason_of(number);
                mark(marks, reason[0]);
                mark(marks, reason[1]);
            }
        }
    }
}

/// What entries cost without their operands, by their numbers: next requests one, others nothing.
fn own_costs(alloc: Global, closure: &Closure<'_>) -> Result<Vec<u32>, AllocError> {
    let mut costs = Vec::new(alloc);
    costs.resize(closure.entries().len().saturating_add(1), 0)?;
    for number in closure.nexts() {
        let index = *number as usize;
        if index < costs.len() {
            costs[index] = 1;
        }
    }
    Ok(costs)
}

/// Marks the entry of this number.
fn mark(marks: &mut Vec<bool>, number: u32) {
    let index = number as usize;
    if index < marks.len() {
        marks[index] = true;
    }
}

/// Marks the arguments of the next requests in the cube.
fn mark_asked(closure: &Closure<'_>, cube: &[Literal], marks: &mut Vec<bool>) {
    for own in cube {
        if let Entry::Next { argument, .. } = entry_of(closure, own.letter.0) {
            mark(marks, argument);
        }
    }
}

/// Marks the arguments of the yesterday requests.
fn mark_remembered(closure: &Closure<'_>, marks: &mut Vec<bool>) {
    for number in closure.yesterdays() {
        if let Entry::Yesterday { argument, .. } = entry_of(closure, *number) {
            mark(marks, argument);
        }
    }
}

impl<'c> Backward<'c> {
    /// The next state that the last question found: the values of its entries by their numbers.
    pub fn found_state(&self) -> Result<Vec<bool>, AllocError> {
        let width = width(self.closure);
        let mut state = Vec::new(self.alloc);
        state.push(false)?;
        for place in 0..width {
            let number = place.saturating_add(1);
            state.push(self.asker.value(number.saturating_add(width)))?;
        }
        Ok(state)
    }

    fn no_marks(&self) -> Result<Vec<bool>, AllocError> {
        let mut marks = Vec::new(self.alloc);
        marks.resize(self.closure.entries().len().saturating_add(1), false)?;
        Ok(marks)
    }

    /// What a first state needs: the formula.
    pub fn first_needs(&self) -> Result<Vec<bool>, AllocError> {
        let mut marks = self.no_marks()?;
        mark(&mut marks, self.closure.root());
        Ok(marks)
    }

    /// What the next state that the last question found needs for a step from the cube, by this way from the
    /// level.
    pub fn step_needs(
        &self,
        cube: &[Literal],
        level: u32,
        way: Way,
    ) -> Result<Vec<bool>, AllocError> {
        let mut marks = self.no_marks()?;
        mark_asked(self.closure, cube, &mut marks);
        if way == Way::Meeting {
            if let Some(number) = self.met_by(level) {
                mark(&mut marks, number);
            }
        }
        Ok(marks)
    }

    /// The entry by which that state meets the eventuality of the level.
    fn met_by(&self, level: u32) -> Option<u32> {
        let (request, right) = eventuality(self.closure, self.eventuality_of(level)?)?;
        if self.asker.value(right.saturating_add(width(self.closure))) {
            return Some(right);
        }
        Some(request)
    }

    /// The cube of the states that have what is needed as this one has it: what justifies that, of the carry,
    /// and the arguments of the yesterday requests.
    pub fn lifted(&self, state: &[bool], needs: Vec<bool>) -> Result<Vec<Literal>, AllocError> {
        let mut marks = needs;
        mark_remembered(self.closure, &mut marks);
        Justification::of(self.alloc, self.closure, state)?.reach(&mut marks);
        let mut cube = Vec::new(self.alloc);
        for number in &self.carry {
            if value_in(&marks, *number) {
                cube.push(signed(*number, !value_in(state, *number)))?;
            }
        }
        Ok(cube)
    }
}
