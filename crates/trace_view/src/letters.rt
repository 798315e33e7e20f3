// The letters of a trace.
ghost use Rattle.std.specs.Prelude.{◌≡◌, ◌↔◌, ◌++◌, ℕ, List, IfOk, OnOk, Contains};
ghost use Rattle.ltl_word.specs.State.{IsAscending};
ghost use Rattle.trace_view.specs.Grid.{Occurs};
ghost use Rattle.trace_view.specs.Letters.{all_names};

use ltl_word::{Name, StateSet, Trace};
use std::alloc::{AllocError, Global};

/// The letters that are true in some state, each once and in ascending order of their bytes.
pub fn letters_of(alloc: Global, trace: &Trace) -> Result<StateSet, AllocError>
    ensures ascending { IfOk result IsAscending }
    ensures letters { IfOk result (λ letters.
        (name : List ℕ) → Contains letters name ↔ Occurs trace.now name) }
{
    let mut names = Vec::new(alloc);
    match trace {
        Trace::Infinite { stem, loop_part } => {
            push_states(alloc, stem.as_slice(), &mut names)?;
            push_states(alloc, loop_part.as_slice(), &mut names)?;
        }
        Trace::Finite { states } => push_states(alloc, states.as_slice(), &mut names)?,
    }
    StateSet::from_names(names)
}

fn push_states(alloc: Global, states: &[StateSet], names: &mut Vec<Name>) -> Result<(), AllocError>
    ensures { OnOk result (names.new.items ≡ names.old.items ++ all_names states.now) }
{
    for state in states {
        push_state(alloc, state, names)?;
    }
    Ok(())
}

fn push_state(alloc: Global, state: &StateSet, names: &mut Vec<Name>) -> Result<(), AllocError>
    ensures { OnOk result (names.new.items ≡ names.old.items ++ state.now) }
{
    for name in state.names() {
        names.push(Name::new(alloc, name.text())?)?;
    }
    Ok(())
}
