// The two questions of a depth: whether a run of its length is accepted, and whether one is pruned nowhere.
// Where there is no run at all both are refused, so that need not be asked.
ghost use Rattle.std.specs.Prelude.{◌≤◌, ◌+◌, IfOk, OnOk};
ghost use Rattle.enc_layout.specs.Letters.{Fits};
ghost use Rattle.enc_layout.specs.Clauses.{layout_of};
ghost use Rattle.unravel.specs.Putting.{Keeps};
ghost use Rattle.unravel.specs.Depths.{IsThrough, AreStatesBelow, IsAcceptedAnswer, Tells};

use crate::accepting::accepting_rule;
use crate::assuming::{assume, begin_anew};
use crate::inputs::Inputs;
use crate::unpruning::is_unpruned;
use cnf_base::Literal;
use ltl_closure::Closure;
use ltl_run::Close;
use std::alloc::{AllocError, Global};

/// What the questions of a depth were answered.
#[derive(Clone, Copy)]
pub enum Depth {
    /// A run is accepted by the rule, and the solver's values are those of one.
    Accepted(Close),
    /// No run is accepted, and each is pruned. There may be none.
    Pruned,
    /// No run is accepted, and one is pruned nowhere.
    Open,
}

/// Asks the first question alone: the rule by which a run is accepted, if one is. The states that are assumed
/// go on with that of the depth, and begin anew after a depth whose search is hard.
pub fn ask_accepted(
    alloc: Global,
    closure: &Closure<'_>,
    inputs: &mut Inputs,
    states: &mut Vec<Literal>,
    depth: u32,
) -> Result<Option<Close>, AllocError>
    requires few { depth ≤ 1000 }
    requires fits { Fits (layout_of closure.now) depth }
    requires through { IsThrough closure.now.formula closure.now.kind depth inputs.old }
    requires states { AreStatesBelow closure.now.formula closure.now.kind depth states.old.items }
    ensures through { OnOk result (IsThrough closure.now.formula closure.now.kind depth inputs.new) }
    ensures states { OnOk result (AreStatesBelow closure.now.formula closure.now.kind
        (depth + 1) states.new.items) }
    ensures answer { IfOk result (IsAcceptedAnswer closure.now.formula closure.now.kind depth
        inputs.new.solver) }
{
    let before = inputs.solver.log().view().lines();
    assume(closure, states, depth)?;
    let close = accepting_rule(alloc, closure, inputs, states, depth)?;
    begin_anew(inputs, before, states);
    Ok(close)
}

/// Asks the two questions in their order, up to the first that settles the formula. The states that are
/// assumed go on as with the first question alone.
pub fn ask(
    alloc: Global,
    closure: &Closure<'_>,
    inputs: &mut Inputs,
    states: &mut Vec<Literal>,
    depth: u32,
) -> Result<Depth, AllocError>
    requires few { depth ≤ 1000 }
    requires fits { Fits (layout_of closure.now) depth }
    requires through { IsThrough closure.now.formula closure.now.kind depth inputs.old }
    requires states { AreStatesBelow closure.now.formula closure.now.kind depth states.old.items }
    ensures through { OnOk result (IsThrough closure.now.formula closure.now.kind depth inputs.new) }
    ensures kept { OnOk result (Keeps inputs.old inputs.new) }
    ensures states { OnOk result (AreStatesBelow closure.now.formula closure.now.kind
        (depth + 1) states.new.items) }
    ensures tells { IfOk result (Tells closure.now.formula closure.now.kind depth inputs.new.solver) }
{
    let before = inputs.solver.log().view().lines();
    assume(closure, states, depth)?;
    let rule = accepting_rule(alloc, closure, inputs, states, depth)?;
    if let Some(close) = rule {
        return Ok(Depth::Accepted(close));
    }
    let unpruned = is_unpruned(alloc, closure, inputs, states, depth)?;
    if !unpruned {
        return Ok(Depth::Pruned);
    }
    begin_anew(inputs, before, states);
    Ok(Depth::Open)
}
