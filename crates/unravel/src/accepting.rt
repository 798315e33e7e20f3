// The first question of a depth, whether a run of its length is accepted, turn by turn: the solver is asked,
// and the run that it finds is looked at. Where no rule accepts it, what refuses it, and other runs by each
// of its states, is put in, and the question is asked again.
ghost use Rattle.std.specs.Prelude.{◌≤◌, IfOk, OnOk};
ghost use Rattle.enc_layout.specs.Letters.{Fits};
ghost use Rattle.enc_layout.specs.Clauses.{layout_of};
ghost use Rattle.unravel.specs.Depths.{IsReady, IsStillThrough, IsAcceptedTurn, IsAcceptedAnswer};

use crate::assuming::{Question, is_found};
use crate::demanded::add_constraints;
use crate::inputs::Inputs;
use crate::looking::found_rows;
use crate::rest::add_rest;
use cnf_base::Literal;
use demand::{close_of, refuse_loops};
use ltl_closure::Closure;
use ltl_run::Close;
use std::alloc::{AllocError, Global};

/// The number of turns that are taken. Behind the last one the whole list is put in, so the question ends
/// whatever a turn puts in. No question is known that takes a tenth of them.
pub const TURNS: u32 = 2000;

/// What a turn comes to.
#[derive(Clone, Copy)]
pub enum Turn {
    /// The solver's values are those of a run that the rule accepts.
    By(Close),
    /// No run is accepted.
    Never,
    /// More is put in.
    Again,
}

/// Takes a turn. Turns count from 0.
fn take_turn(
    alloc: Global,
    closure: &Closure<'_>,
    inputs: &mut Inputs,
    states: &mut Vec<Literal>,
    depth: u32,
    turn: u32,
) -> Result<Turn, AllocError>
    requires few { depth ≤ 1000 }
    requires fits { Fits (layout_of closure.now) depth }
    requires ready { IsReady closure.now.formula closure.now.kind depth inputs.old states.old.items }
    ensures still { OnOk result (IsStillThrough closure.now.formula closure.now.kind depth
        inputs.old inputs.new states.old.items states.new.items) }
    ensures answer { IfOk result (IsAcceptedTurn closure.now.formula closure.now.kind depth
        inputs.new.solver) }
{
    let found = is_found(closure, inputs, states, depth, Question::Accepted)?;
    if !found {
        return Ok(Turn::Never);
    }
    let rows = found_rows(alloc, closure, &inputs.solver, depth)?;
    match close_of(closure.kind(), &rows) {
        Some(close) => Ok(Turn::By(close)),
        None => {
            let constraints = refuse_loops(alloc, &rows, turn)?;
            add_constraints(closure, depth, &constraints, inputs)?;
            Ok(Turn::Again)
        }
    }
}

/// Asks with the whole list. What is found then is accepted.
fn end(
    alloc: Global,
    closure: &Closure<'_>,
    inputs: &mut Inputs,
    states: &mut Vec<Literal>,
    depth: u32,
) -> Result<Option<Close>, AllocError>
    requires few { depth ≤ 1000 }
    requires fits { Fits (layout_of closure.now) depth }
    requires ready { IsReady closure.now.formula closure.now.kind depth inputs.old states.old.items }
    ensures still { OnOk result (IsStillThrough closure.now.formula closure.now.kind depth
        inputs.old inputs.new states.old.items states.new.items) }
    ensures answer { IfOk result (IsAcceptedAnswer closure.now.formula closure.now.kind depth
        inputs.new.solver) }
{
    add_rest(closure, depth, inputs)?;
    let found = is_found(closure, inputs, states, depth, Question::Accepted)?;
    if !found {
        return Ok(None);
    }
    let rows = found_rows(alloc, closure, &inputs.solver, depth)?;
    match close_of(closure.kind(), &rows) {
        Some(close) => Ok(Some(close)),
        None => unreachable!(),
    }
}

/// The rule by which a run of depth + 1 states is accepted, where one is, and the solver's values are those
/// of this run then.
pub fn accepting_rule(
    alloc: Global,
    closure: &Closure<'_>,
    inputs: &mut Inputs,
    states: &mut Vec<Literal>,
    depth: u32,
) -> Result<Option<Close>, AllocError>
    requires few { depth ≤ 1000 }
    requires fits { Fits (layout_of closure.now) depth }
    requires ready { IsReady closure.now.formula closure.now.kind depth inputs.old states.old.items }
    ensures still { OnOk result (IsStillThrough closure.now.formula closure.now.kind depth
        inputs.old inputs.new states.old.items states.new.items) }
    ensures answer { IfOk result (IsAcceptedAnswer closure.now.formula closure.now.kind depth
        inputs.new.solver) }
{
    'turns: for turn in 0..TURNS {
        match take_turn(alloc, closure, inputs, states, depth, turn)? {
            Turn::By(close) => return Ok(Some(close)),
            Turn::Never => return Ok(None),
            Turn::Again => {}
        }
    }
    let answer = end(alloc, closure, inputs, states, depth)?;
    Ok(answer)
}
