// The second question of a depth, whether a run of its length is pruned nowhere, turn by turn as the first:
// where the run that is found is pruned somewhere, how it is at each such state is put in.
ghost use Rattle.std.specs.Prelude.{◌≤◌, IfOk, OnOk};
ghost use Rattle.enc_layout.specs.Letters.{Fits};
ghost use Rattle.enc_layout.specs.Clauses.{layout_of};
ghost use Rattle.unravel.specs.Depths.{IsReady, IsStillThrough, IsUnprunedTurn, IsUnprunedAnswer};

use crate::accepting::TURNS;
use crate::assuming::{Question, is_found};
use crate::demanded::add_prunings;
use crate::inputs::Inputs;
use crate::looking::found_rows;
use crate::rest::add_rest;
use cnf_base::Literal;
use demand::prunings;
use ltl_closure::Closure;
use std::alloc::{AllocError, Global};

/// What a turn comes to.
#[derive(Clone, Copy, Drop)]
pub enum Turn {
    /// There is a run that is pruned nowhere.
    Unpruned,
    /// Each run is pruned.
    Never,
    /// More is put in.
    Again,
}

/// Takes a turn.
fn take_turn(
    alloc: Global,
    closure: &Closure<'_>,
    inputs: &mut Inputs,
    states: &mut Vec<Literal>,
    depth: u32,
) -> Result<Turn, AllocError>
    requires few { depth ≤ 1000 }
    requires fits { Fits (layout_of closure.now) depth }
    requires ready { IsReady closure.now.formula closure.now.kind depth inputs.old states.old.items }
    ensures still { OnOk result (IsStillThrough closure.now.formula closure.now.kind depth
        inputs.old inputs.new states.old.items states.new.items) }
    ensures answer { IfOk result (IsUnprunedTurn closure.now.formula closure.now.kind depth
        inputs.new.solver) }
{
    let found = is_found(closure, inputs, states, depth, Question::Unpruned)?;
    if !found {
        return Ok(Turn::Never);
    }
    let rows = found_rows(alloc, closure, &inputs.solver, depth)?;
    let pruned = prunings(alloc, closure.kind(), &rows)?;
    if pruned.len() == 0 {
        return Ok(Turn::Unpruned);
    }
    add_prunings(closure, depth, &pruned, inputs)?;
    Ok(Turn::Again)
}

/// Asks with the whole list. What is found then is pruned nowhere.
fn end(
    closure: &Closure<'_>,
    inputs: &mut Inputs,
    states: &mut Vec<Literal>,
    depth: u32,
) -> Result<bool, AllocError>
    requires few { depth ≤ 1000 }
    requires fits { Fits (layout_of closure.now) depth }
    requires ready { IsReady closure.now.formula closure.now.kind depth inputs.old states.old.items }
    ensures still { OnOk result (IsStillThrough closure.now.formula closure.now.kind depth
        inputs.old inputs.new states.old.items states.new.items) }
    ensures answer { IfOk result (IsUnprunedAnswer closure.now.formula closure.now.kind depth
        inputs.new.solver) }
{
    add_rest(closure, depth, inputs)?;
    let found = is_found(closure, inputs, states, depth, Question::Unpruned)?;
    Ok(found)
}

/// Whether a run of depth + 1 states is pruned nowhere.
pub fn is_unpruned(
    alloc: Global,
    closure: &Closure<'_>,
    inputs: &mut Inputs,
    states: &mut Vec<Literal>,
    depth: u32,
) -> Result<bool, AllocError>
    requires few { depth ≤ 1000 }
    requires fits { Fits (layout_of closure.now) depth }
    requires ready { IsReady closure.now.formula closure.now.kind depth inputs.old states.old.items }
    ensures still { OnOk result (IsStillThrough closure.now.formula closure.now.kind depth
        inputs.old inputs.new states.old.items states.new.items) }
    ensures answer { IfOk result (IsUnprunedAnswer closure.now.formula closure.now.kind depth
        inputs.new.solver) }
{
    'turns: for _turn in 0..TURNS {
        match take_turn(alloc, closure, inputs, states, depth)? {
            Turn::Unpruned => return Ok(true),
            Turn::Never => return Ok(false),
            Turn::Again => {}
        }
    }
    let answer = end(closure, inputs, states, depth)?;
    Ok(answer)
}
