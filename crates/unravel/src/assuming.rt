// How a question is asked, and what it assumes besides its own letter: that the states of some steps are
// there, the last one at least. That of each step since the search was last hard stays assumed, in order, so
// that the solver need not go back over the earlier steps. A state is there only after the one before it, so
// the answer is the same.
ghost use Rattle.std.specs.Prelude.{◌≡◌, ◌≤◌, ◌+◌, ◌++◌, ◌∷◌, ◌⊎◌, [], All, IfOk, OnOk};
ghost use Rattle.cnf_base.specs.Known.{IsKnown};
ghost use Rattle.cdcl.specs.Solving.{IsConsistent};
ghost use Rattle.cdcl.specs.SolverValue.{IsAnswer};
ghost use Rattle.enc_layout.specs.Letters.{Fits};
ghost use Rattle.enc_layout.specs.Clauses.{layout_of};
ghost use Rattle.enc_layout.specs.Assigned.{positive_of};
ghost use Rattle.unravel.specs.Putting.{IsAsked};
ghost use Rattle.unravel.specs.Depths.{AreStatesBelow, AreStatesTo, IsReady, IsStillThrough, letter_of};
ghost use Rattle.unravel.specs.Depths.{IsFoundOrNever};

use crate::inputs::Inputs;
use cdcl::Answer;
use cnf_base::Literal;
use enc_layout::{Layout, Part};
use ltl_closure::Closure;
use std::alloc::AllocError;

/// The search of a depth is hard where it adds this many lines to the log.
const MANY: u64 = 30;

/// What is asked of the runs of a depth.
#[derive(Clone, Copy)]
pub enum Question {
    /// Whether one is accepted.
    Accepted,
    /// Whether one is pruned nowhere.
    Unpruned,
}

/// Asks whether values are found for such a run of depth + 1 states.
pub fn is_found(
    closure: &Closure<'_>,
    inputs: &mut Inputs,
    states: &mut Vec<Literal>,
    depth: u32,
    question: Question,
) -> Result<bool, AllocError>
    requires few { depth ≤ 1000 }
    requires fits { Fits (layout_of closure.now) depth }
    requires ready { IsReady closure.now.formula closure.now.kind depth inputs.old states.old.items }
    ensures still { OnOk result (IsStillThrough closure.now.formula closure.now.kind depth
        inputs.old inputs.new states.old.items states.new.items) }
    ensures answer { IfOk result (IsFoundOrNever closure.now.formula closure.now.kind depth question
        inputs.new.solver) }
{
    let literal = own_literal(closure, depth, question);
    match put(inputs, states, literal)? {
        Answer::Sat => Ok(true),
        Answer::Unsat(_) => Ok(false),
    }
}

/// The literal of the question's own letter.
fn own_literal(closure: &Closure<'_>, depth: u32, question: Question) -> Literal
    requires few { depth ≤ 1000 }
    requires fits { Fits (layout_of closure.now) depth }
    ensures { result ≡ positive_of closure.now.formula closure.now.kind (letter_of depth question) }
{
    let layout = Layout::of(closure);
    match question {
        Question::Accepted => layout.positive(depth, Part::Accepted),
        Question::Unpruned => layout.may_prune().opposite(),
    }
}

/// Asks under the states' literals and one more.
fn put(
    inputs: &mut Inputs,
    states: &mut Vec<Literal>,
    literal: Literal,
) -> Result<Answer, AllocError>
    requires known { All (IsKnown inputs.old.solver.letters) (states.old.items ++ literal ∷ []) }
    requires consistent { IsConsistent (states.old.items ++ literal ∷ []) }
    ensures states { OnOk result (states.new.items ≡ states.old.items) }
    ensures asked { IsAsked inputs.old inputs.new }
    ensures answer { IfOk result (IsAnswer inputs.new.solver (states.old.items ++ literal ∷ [])) }
{
    let count = states.len();
    states.push(literal)?;
    let answer = inputs.solver.solve(states)?;
    states.truncate(count);
    Ok(answer)
}

/// Puts the state of the depth behind those that are assumed.
pub fn assume(
    closure: &Closure<'_>,
    states: &mut Vec<Literal>,
    depth: u32,
) -> Result<(), AllocError>
    requires few { depth ≤ 1000 }
    requires fits { Fits (layout_of closure.now) depth }
    requires states { AreStatesBelow closure.now.formula closure.now.kind depth states.old.items }
    ensures { OnOk result (AreStatesTo closure.now.formula closure.now.kind depth states.new.items) }
{
    let here = Layout::of(closure).positive(depth, Part::Here);
    states.push(here)?;
    Ok(())
}

/// Assumes no state any more where the search was hard: the log had `before` lines before it, and has many
/// more now.
pub fn begin_anew(inputs: &Inputs, before: u64, states: &mut Vec<Literal>)
    ensures { (states.new.items ≡ states.old.items) ⊎ (states.new.items ≡ []) }
{
    if inputs.solver.log().view().lines() >= before.saturating_add(MANY) {
        states.truncate(0);
    }
}
