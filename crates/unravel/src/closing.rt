// The lines that close a tableau. The questions of the depths were asked under the states of several steps,
// so their lines may name these as well. Once each is known to be refused, each is asked under its own two
// letters: what was put in when it was refused is in still, and what was learnt refutes it, mostly by
// propagation.
ghost use Rattle.std.specs.Prelude.{◌≡◌, ◌≤◌, IfOk, OnOk};
ghost use Rattle.cdcl.specs.Solving.{IsLonger};
ghost use Rattle.enc_layout.specs.Letters.{Fits, letters_through};
ghost use Rattle.enc_layout.specs.Clauses.{counts, layout_of};
ghost use Rattle.enc_layout.specs.Assigned.{accepted_question, unpruned_question};
ghost use Rattle.enc_layout.specs.Targets.{CloseTableau};
ghost use Rattle.unravel.specs.Depths.{IsRejection, IsPruning, Refuses, AreRefused};

use cdcl::{Answer, Solver};
use enc_layout::{Layout, Part};
use ltl_closure::Closure;
use std::alloc::{AllocError, Global};

/// A line that refutes that a run is accepted at the state.
fn rejection(
    closure: &Closure<'_>,
    solver: &mut Solver,
    depth: u32,
    state: u32,
) -> Result<u64, AllocError>
    requires few { state ≤ 1000 }
    requires fits { Fits (layout_of closure.now) state }
    requires letters { solver.old.letters
        ≡ letters_through closure.now.kind (counts closure.now.formula) depth }
    requires within { state ≤ depth }
    requires refused { Refuses solver.old (accepted_question closure.now.formula closure.now.kind state) }
    ensures letters { solver.new.letters ≡ solver.old.letters }
    ensures longer { IsLonger solver.old.log solver.new.log }
    ensures line { IfOk result (IsRejection closure.now.formula closure.now.kind state solver.new.log.lines) }
{
    let layout = Layout::of(closure);
    let here = layout.positive(state, Part::Here);
    let accepted = layout.positive(state, Part::Accepted);
    match solver.solve(&[here, accepted])? {
        Answer::Sat => unreachable!(),
        Answer::Unsat(line) => Ok(line),
    }
}

/// A line that refutes that a run of depth + 1 states is pruned nowhere.
fn pruning(closure: &Closure<'_>, solver: &mut Solver, depth: u32) -> Result<u64, AllocError>
    requires few { depth ≤ 1000 }
    requires fits { Fits (layout_of closure.now) depth }
    requires letters { solver.old.letters
        ≡ letters_through closure.now.kind (counts closure.now.formula) depth }
    requires refused { Refuses solver.old (unpruned_question closure.now.formula closure.now.kind depth) }
    ensures letters { solver.new.letters ≡ solver.old.letters }
    ensures longer { IsLonger solver.old.log solver.new.log }
    ensures line { IfOk result (IsPruning closure.now.formula closure.now.kind depth solver.new.log.lines) }
{
    let layout = Layout::of(closure);
    let here = layout.positive(depth, Part::Here);
    let unpruned = layout.may_prune().opposite();
    match solver.solve(&[here, unpruned])? {
        Answer::Sat => unreachable!(),
        Answer::Unsat(line) => Ok(line),
    }
}

/// Lines that refute acceptance at each state, and one that refutes the last depth's other question.
pub fn close(
    alloc: Global,
    closure: &Closure<'_>,
    solver: &mut Solver,
    depth: u32,
) -> Result<Vec<u64>, AllocError>
    requires few { depth ≤ 1000 }
    requires fits { Fits (layout_of closure.now) depth }
    requires letters { solver.old.letters
        ≡ letters_through closure.now.kind (counts closure.now.formula) depth }
    requires refused { AreRefused closure.now.formula closure.now.kind depth solver.old }
    ensures letters { OnOk result (solver.new.letters ≡ solver.old.letters) }
    ensures inputs { OnOk result (solver.new.log.inputs ≡ solver.old.log.inputs) }
    ensures targets { IfOk result (λ targets. CloseTableau closure.now.formula closure.now.kind depth
        solver.new.log.lines targets.items) }
{
    enc_layout::laws::numbering();
    let mut targets = Vec::new(alloc);
    for state in 0..depth + 1 {
        let line = rejection(closure, solver, depth, state)?;
        targets.push(line)?;
    }
    let last = pruning(closure, solver, depth)?;
    targets.push(last)?;
    Ok(targets)
}
