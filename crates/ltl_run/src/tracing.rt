// The trace of an accepted run: each state shows the names of its true letters, and the rule by which the run
// is accepted says which states repeat.
ghost use Rattle.std.specs.Prelude.{◌≡◌, ◌+◌, ◌-◌, ◌<◌, All, length, IfOk};
ghost use Rattle.ltl_word.specs.Trace.{IsTrace, IsOfKind};
ghost use Rattle.ltl_word.specs.Holds.{Satisfies};
ghost use Rattle.ltl_closure.specs.Run.{IsRun};
ghost use Rattle.ltl_run.specs.States.{FitsClosure, run_of};
ghost use Rattle.ltl_run.specs.TraceOf.{Accepts, AreShown, GivesTrace, HasStem, closed_by};

use crate::showing::{letter_names, shown_states};
use crate::{Close, RunState};
use ltl_closure::Closure;
use ltl_word::{StateSet, States, Trace};
use std::alloc::{AllocError, Global};

/// The trace of the run of these states, of which the first is state 0.
///
/// `Empty` gives all states and then one state without names for ever, `Loop(l)` the states 0 to l and then
/// those from l + 1 on for ever, and `End` all states as a finite trace.
pub fn trace_of(
    alloc: Global,
    closure: &Closure<'_>,
    states: &[RunState],
    close: Close,
) -> Result<Trace, AllocError>
    requires fits { All (FitsClosure closure.now.formula) states.now }
    requires some { 0 < length states.now }
    requires run { IsRun closure.now.formula (length states.now - 1) (run_of closure.now.formula states.now) }
    requires accepted { Accepts close closure.now.formula (run_of closure.now.formula states.now)
        (length states.now - 1) closure.now.kind }
    ensures gives { IfOk result (GivesTrace closure.now.formula (run_of closure.now.formula states.now)
        (length states.now - 1) close) }
    ensures satisfies { IfOk result (λ t. IsTrace t × IsOfKind t closure.now.kind
        × Satisfies t closure.now.formula) }
{
    let shown = shown_run(alloc, closure, states)?;
    close_states(alloc, shown, close)
}

/// The states of the trace, one for each state of the run.
fn shown_run(
    alloc: Global,
    closure: &Closure<'_>,
    states: &[RunState],
) -> Result<Vec<StateSet>, AllocError>
    requires fits { All (FitsClosure closure.now.formula) states.now }
    requires some { 0 < length states.now }
    ensures { IfOk result (λ shown. AreShown closure.now.formula (run_of closure.now.formula states.now)
        (length states.now - 1) shown.items) }
{
    let table = closure.table();
    // Names are plain, so none is a fresh letter's.
    let _ = table.letters();
    let names = letter_names(alloc, table, closure.entries())?;
    shown_states(alloc, &names, states)
}

fn close_states(alloc: Global, shown: Vec<StateSet>, close: Close) -> Result<Trace, AllocError>
    requires { HasStem close (length shown.items) }
    ensures { IfOk result (λ t. t ≡ closed_by close shown.items) }
{
    match close {
        Close::Empty => {
            let mut loop_part = Vec::new(alloc);
            loop_part.push(StateSet::from_names(Vec::new(alloc))?)?;
            Ok(Trace::Infinite {
                stem: States::new(shown),
                loop_part: States::new(loop_part),
            })
        }
        Close::Loop(last) => {
            let mut stem = shown;
            let loop_part = stem.split_off(last as usize + 1)?;
            Ok(Trace::Infinite {
                stem: States::new(stem),
                loop_part: States::new(loop_part),
            })
        }
        Close::End => Ok(Trace::Finite {
            states: States::new(shown),
        }),
    }
}
