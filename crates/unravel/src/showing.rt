// The trace of the accepted run that the solver's values give: the states are the values of the letters that
// stand for entries, and the rule that accepts the run closes it.
ghost use Rattle.std.specs.Prelude.{◌≡◌, ◌+◌, ◌≤◌, All, IfOk};
ghost use Rattle.ltl_closure.specs.Entries.{numbers_of, IsNumber};
ghost use Rattle.ltl_run.specs.States.{letters};
ghost use Rattle.cdcl.specs.SolverValue.{value_of};
ghost use Rattle.enc_layout.specs.Letters.{Fits};
ghost use Rattle.enc_layout.specs.Clauses.{layout_of};
ghost use Rattle.unravel.specs.Decision.{IsTraceOfRun, IsModel};
ghost use Rattle.unravel.specs.Depths.{IsShowing};
ghost use Rattle.unravel.specs.Values.{is_letter_entry, values_at, HasRoom, IsRead, AreRead};

use cdcl::Solver;
use enc_layout::Layout;
use ltl_closure::{Closure, Entry};
use ltl_run::{Close, RunState, trace_of};
use ltl_word::Trace;
use std::alloc::{AllocError, Global};

/// The trace of the run of depth + 1 states that the values give, and the rule closes.
pub fn shown_trace(
    alloc: Global,
    closure: &Closure<'_>,
    solver: &Solver,
    depth: u32,
    close: Close,
) -> Result<Trace, AllocError>
    requires few { depth ≤ 1000 }
    requires fits { Fits (layout_of closure.now) depth }
    requires showing { IsShowing closure.now.formula closure.now.kind depth solver.now close }
    ensures run { IfOk result (IsTraceOfRun closure.now.formula closure.now.kind depth) }
    ensures model { IfOk result (IsModel closure.now.formula closure.now.kind) }
{
    let states = read_states(alloc, closure, solver, depth)?;
    trace_of(alloc, closure, &states, close)
}

/// The states 0 to depth.
fn read_states(
    alloc: Global,
    closure: &Closure<'_>,
    solver: &Solver,
    depth: u32,
) -> Result<Vec<RunState>, AllocError>
    requires few { depth ≤ 1000 }
    requires fits { Fits (layout_of closure.now) depth }
    requires room { HasRoom (layout_of closure.now) depth solver.now }
    ensures { IfOk result (λ states. AreRead closure.now.formula closure.now.kind (value_of solver.now)
        (depth + 1) states.items) }
{
    let letters = letter_entries(alloc, closure)?;
    let mut states = Vec::new(alloc);
    for step in 0..depth + 1 {
        states.push(read_state(alloc, closure, solver, &letters, step)?)?;
    }
    Ok(states)
}

/// The numbers of the letters among the entries.
fn letter_entries(alloc: Global, closure: &Closure<'_>) -> Result<Vec<u32>, AllocError>
    ensures { IfOk result (λ numbers. numbers.items ≡ numbers_of closure.now.formula
        (letters closure.now.formula)) }
{
    let entries = closure.entries();
    let mut numbers = Vec::new(alloc);
    for (i, entry) in entries.iter().enumerate() {
        if !is_letter(*entry) {
            continue;
        }
        numbers.push(i as u32 + 1)?;
    }
    Ok(numbers)
}

fn is_letter(entry: Entry) -> bool
    ensures { result ≡ is_letter_entry entry }
{
    match entry {
        Entry::Letter(_) => true,
        Entry::Fresh(_) => true,
        _ => false,
    }
}

/// One state, where the numbers are those of the letters.
fn read_state(
    alloc: Global,
    closure: &Closure<'_>,
    solver: &Solver,
    numbers: &[u32],
    step: u32,
) -> Result<RunState, AllocError>
    requires few { step ≤ 1000 }
    requires fits { Fits (layout_of closure.now) step }
    requires room { HasRoom (layout_of closure.now) step solver.now }
    requires numbers { numbers.now ≡ numbers_of closure.now.formula (letters closure.now.formula) }
    ensures { IfOk result (IsRead closure.now.formula closure.now.kind (value_of solver.now) step) }
{
    let layout = Layout::of(closure);
    let letters = entry_values(alloc, solver, &layout, step, numbers)?;
    let nexts = entry_values(alloc, solver, &layout, step, closure.nexts())?;
    let yesterdays = entry_values(alloc, solver, &layout, step, closure.yesterdays())?;
    Ok(RunState {
        letters,
        nexts,
        yesterdays,
    })
}

/// The values of the entries of these numbers at a step.
fn entry_values(
    alloc: Global,
    solver: &Solver,
    layout: &Layout,
    step: u32,
    numbers: &[u32],
) -> Result<Vec<bool>, AllocError>
    requires few { step ≤ 1000 }
    requires fits { Fits layout.now step }
    requires room { HasRoom layout.now step solver.now }
    requires known { All (IsNumber layout.now.counts.entries) numbers.now }
    ensures { IfOk result (λ values. values.items ≡ values_at layout.now
        (value_of solver.now) step numbers.now) }
{
    let mut values = Vec::new(alloc);
    for number in numbers {
        let entry = layout.entry(step, *number);
        values.push(solver.value(entry.letter))?;
    }
    Ok(values)
}
