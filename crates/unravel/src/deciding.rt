// The tableau, depth after depth: a depth's clauses are put in as far as its questions ask for them, the
// solver answers these, and the first depth that settles the formula gives the decision. After Geatti,
// Gigante and Montanari, A SAT-based encoding of the one-pass and tree-shaped tableau system for LTL (2019).
ghost use Rattle.std.specs.Prelude.{◌≤◌, IfOk};
ghost use Rattle.ltl_closure.specs.Run.{bound};
ghost use Rattle.enc_layout.specs.Letters.{Fits};
ghost use Rattle.enc_layout.specs.Clauses.{layout_of};
ghost use Rattle.unravel.specs.Decision.{IsDecision, IsUnsat, IsUndecided, HasNoTrace};
ghost use Rattle.unravel.specs.Depths.{IsEmpty};
ghost use Rattle.unravel.specs.Settling.{IsStillOpen, IsClosed, IsOutcome, IsRefuted, IsSettled};

use crate::closing::close;
use crate::decision::Decision;
use crate::growing::grow;
use crate::inputs::Inputs;
use crate::questions::{Depth, ask};
use crate::showing::shown_trace;
use cnf_base::Literal;
use derivation::NamedLog;
use ltl_closure::Closure;
use ltl_word::Trace;
use std::alloc::{AllocError, Global};
use std::mem::replace;

/// Decides the closure's formula over its kind of trace, by depths from 0 up to the limit.
pub fn decide(alloc: Global, closure: &Closure<'_>, limit: u32) -> Result<Decision, AllocError>
    requires few { limit ≤ 1000 }
    requires fits { Fits (layout_of closure.now) limit }
    ensures decision { IfOk result (IsDecision closure.now.formula closure.now.kind limit) }
    ensures none { IfOk result (λ d. IsUnsat d → HasNoTrace closure.now.formula closure.now.kind) }
    ensures settled { IfOk result (λ d. bound closure.now.formula closure.now.kind ≤ limit
        → ¬ IsUndecided d) }
{
    match settle(alloc, closure, limit)? {
        Some(decision) => Ok(decision),
        None => Ok(Decision::Undecided { depth: limit }),
    }
}

/// What a depth comes to.
pub enum Outcome {
    /// A run is accepted, and the trace is that of one.
    Accepted(Trace),
    /// No run is accepted, each is pruned, and these lines close the tableau.
    Pruned(Vec<u64>),
    /// Neither.
    Open,
}

/// The decision at the first depth that settles the formula, if there is one up to the limit.
fn settle(alloc: Global, closure: &Closure<'_>, limit: u32) -> Result<Option<Decision>, AllocError>
    requires few { limit ≤ 1000 }
    requires fits { Fits (layout_of closure.now) limit }
    ensures { IfOk result (IsSettled closure.now.formula closure.now.kind limit) }
{
    let mut inputs = Inputs::new(alloc);
    settle_with(alloc, closure, &mut inputs, limit)
}

/// The same with inputs that nothing was put in yet. One solver lives through all depths, so what it has
/// learnt at one serves the next.
fn settle_with(
    alloc: Global,
    closure: &Closure<'_>,
    inputs: &mut Inputs,
    limit: u32,
) -> Result<Option<Decision>, AllocError>
    requires few { limit ≤ 1000 }
    requires fits { Fits (layout_of closure.now) limit }
    requires empty { IsEmpty inputs.old }
    ensures { IfOk result (IsSettled closure.now.formula closure.now.kind limit) }
{
    enc_layout::laws::numbering();
    let mut states = Vec::new(alloc);
    for depth in 0..limit + 1 {
        match look(alloc, closure, inputs, &mut states, depth)? {
            Outcome::Accepted(trace) => return Ok(Some(Decision::Sat { depth, trace })),
            Outcome::Pruned(targets) => {
                let decision = refuted(alloc, closure, depth, inputs, targets);
                return Ok(Some(decision));
            }
            Outcome::Open => {}
        }
    }
    Ok(None)
}

/// Asks the questions of a depth, where each depth before it is open, and goes on to what shows the answer.
fn look(
    alloc: Global,
    closure: &Closure<'_>,
    inputs: &mut Inputs,
    states: &mut Vec<Literal>,
    depth: u32,
) -> Result<Outcome, AllocError>
    requires few { depth ≤ 1000 }
    requires fits { Fits (layout_of closure.now) depth }
    requires still { IsStillOpen closure.now.formula closure.now.kind depth inputs.old states.old.items }
    ensures { IfOk result (IsOutcome closure.now.formula closure.now.kind depth
        inputs.new states.new.items) }
{
    grow(closure, depth, inputs)?;
    match ask(alloc, closure, inputs, states, depth)? {
        Depth::Accepted(rule) => {
            let trace = shown_trace(alloc, closure, &inputs.solver, depth, rule)?;
            Ok(Outcome::Accepted(trace))
        }
        Depth::Pruned => {
            let targets = close(alloc, closure, &mut inputs.solver, depth)?;
            Ok(Outcome::Pruned(targets))
        }
        Depth::Open => Ok(Outcome::Open),
    }
}

/// Unsatisfiable, by the solver's log under the names of its inputs, and the lines of it that close the
/// tableau. Both are taken from the inputs.
fn refuted(
    alloc: Global,
    closure: &Closure<'_>,
    depth: u32,
    inputs: &mut Inputs,
    targets: Vec<u64>,
) -> Decision
    requires closed { IsClosed closure.now.formula closure.now.kind depth inputs.old targets.items }
    ensures { IsRefuted closure.now.formula closure.now.kind depth result }
{
    let Inputs { solver, names, .. } = replace(inputs, Inputs::new(alloc));
    let log = solver.into_log();
    log.invariant();
    Decision::Unsat {
        depth,
        log: NamedLog::of(log, names),
        targets,
    }
}
