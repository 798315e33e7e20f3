// A trace without the new names.
ghost use Rattle.std.specs.Prelude.{◌↔◌, ℕ, List, Contains, IfOk};
ghost use Rattle.ltl_syntax.specs.Formula.{Formula};
ghost use Rattle.depast.specs.Lifting.{IsLowered};
ghost use Rattle.depast.specs.Removal.{IsRemoved};
ghost use Rattle.depast.specs.States.{AreOthers, AreLowered};

use crate::removal::Removed;
use ltl_word::{Name, StateSet, States, Trace};
use std::alloc::{AllocError, Global};

/// The trace of the same shape without the new names. Where the trace satisfies the formula without
/// past operators, this one satisfies the formula.
pub fn lower(alloc: Global, removed: &Removed, trace: &Trace) -> Result<Trace, AllocError>
    ensures { (f : Formula) → IsRemoved f removed.now → IfOk result (IsLowered f trace.now) }
{
    let new = new_names(alloc, removed)?;
    match trace {
        Trace::Infinite { stem, loop_part } => {
            let stem = lowered(alloc, &new, stem.as_slice())?;
            let loop_part = lowered(alloc, &new, loop_part.as_slice())?;
            Ok(Trace::Infinite { stem, loop_part })
        }
        Trace::Finite { states } => {
            let states = lowered(alloc, &new, states.as_slice())?;
            Ok(Trace::Finite { states })
        }
    }
}

/// The new names as a set, in which one is found by a halving search.
pub fn new_names(alloc: Global, removed: &Removed) -> Result<StateSet, AllocError>
    ensures { IfOk result (λ new. (name : List ℕ) → Contains new name ↔ Contains removed.now.names name) }
{
    let mut names = Vec::with_capacity(alloc, removed.names().len())?;
    for name in removed.names() {
        names.push(Name::new(alloc, name.text())?)?;
    }
    let new = StateSet::from_names(names)?;
    Ok(new)
}

fn lowered(alloc: Global, new: &StateSet, states: &[StateSet]) -> Result<States, AllocError>
    ensures { IfOk result (AreLowered new.now states.now) }
{
    let mut lowered = Vec::with_capacity(alloc, states.len())?;
    for state in states {
        lowered.push(StateSet::from_names(others(alloc, new, state)?)?)?;
    }
    Ok(States::new(lowered))
}

/// The names of a state that are not new.
pub fn others(alloc: Global, new: &StateSet, state: &StateSet) -> Result<Vec<Name>, AllocError>
    ensures { IfOk result (λ others. AreOthers new.now state.now others.items) }
{
    let mut others = Vec::new(alloc);
    for name in state.names() {
        if !new.has(name.text()) {
            others.push(Name::new(alloc, name.text())?)?;
        }
    }
    Ok(others)
}
