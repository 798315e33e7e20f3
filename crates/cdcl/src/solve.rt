// The search: propagate; explain a conflict, learn the clause and go back; decide where nothing is left to
// propagate. While assumptions alone are decided, a conflict or a false assumption is explained by them, and
// that is the answer. A long search begins anew from time to time, and then forgets lines, which the next
// question heeds again. After Marques-Silva and Sakallah, GRASP (1999), and Een and Sorensson, MiniSat
// (2003).
ghost use Rattle.std.specs.Prelude.{◌≡◌, ◌≤◌, ◌+◌, ◌⊎◌, List, length, All, Contains, None, true, IfOk, OnOk};
ghost use Rattle.std.specs.Prelude.{OnErr};
ghost use Rattle.cnf_base.specs.declared.literal.Literal.{Literal};
ghost use Rattle.cnf_base.specs.declared.literal.Hint.{Hint};
ghost use Rattle.cnf_base.specs.Step.{IsHintedStep};
ghost use Rattle.cnf_base.specs.Known.{IsKnown};
ghost use Rattle.clause_log.specs.LogValue.{greatest_u32};
ghost use Rattle.cdcl_state.specs.StateValue.{with_all_lines};
ghost use Rattle.cdcl_state.specs.Turns.{IsFront};
ghost use Rattle.cdcl.specs.Solving.{IsAfter, IsRestarted, IsFound, IsLineOf, IsNegated, IsConsistent};

use crate::choice::{Choice, choose, is_assumed};
use crate::restart::Pace;
use crate::retention::Retention;
use cdcl_analyze::{Cut, Learnt};
use cdcl_state::State;
use cnf_base::{Hint, Literal};
use std::alloc::{AllocError, Global};

/// What a question was answered; the number is a line of the log.
#[derive(Clone, Copy, Drop)]
pub enum Answer {
    Sat,
    Unsat(u64),
}

/// Answers by the line that the one hint names, where that is a line, since it says as much. Else puts the
/// clause behind the lines, and answers by it.
fn finish(state: &mut State, alloc: Global, learnt: &Learnt) -> Result<Answer, AllocError>
    requires step { IsHintedStep state.old.log.inputs state.old.log.lines greatest_u32
        learnt.now.clause.items learnt.now.hints.items }
    requires known { All (IsKnown state.old.letters) learnt.now.clause.items }
    ensures kept { IsAfter state.old state.new }
    ensures near { length state.new.log.lines ≤ length state.old.log.lines + 1 }
    ensures answer { IfOk result (IsLineOf state.new learnt.now.clause.items) }
{
    let hints = learnt.hints.as_slice();
    if hints.len() == 1 {
        if let Hint::Line(line) = hints[0] {
            return Ok(Answer::Unsat(line));
        }
    }
    let line = state.derive(alloc, &learnt.clause, &learnt.hints)?;
    Ok(Answer::Unsat(line))
}

/// Heeds all lines, since one that was forgotten may be what answers this question, and takes back the first
/// decision that is no assumption, with all that came after it. Where the last question forgot lines, it
/// takes back all decisions: each list has to be visited again then, and what is visited on a level above its
/// own would be visited again at each conflict.
fn begin(
    state: &mut State,
    alloc: Global,
    assumptions: &[Literal],
    retention: &mut Retention,
) -> Result<(), AllocError>
    ensures front { OnOk result (IsFront (with_all_lines state.old true) state.new) }
    ensures decided { OnOk result (All (λ e. e.reason ≡ None → Contains assumptions.now e.literal)
        state.new.trail) }
    ensures refused { OnErr result (state.new ≡ state.old) }
{
    state.restore(alloc)?;
    if retention.begin() {
        state.reset();
        return Ok(());
    }
    state.retreat(assumptions);
    Ok(())
}

/// Begins anew where the pace says so, and forgets then what is to be forgotten.
fn restart(
    state: &mut State,
    alloc: Global,
    pace: &mut Pace,
    retention: &mut Retention,
) -> Result<(), AllocError>
    ensures { ((state.new ≡ state.old) × (pace.new.left ≡ pace.old.left))
        ⊎ (IsRestarted state.old state.new × (pace.old.left ≡ pace.new.left + 1)) }
{
    if pace.count() {
        state.reset();
        retention.reduce(state, alloc)?;
    }
    Ok(())
}

/// Asks whether some assignment makes all inputs and assumptions true.
pub fn solve(
    state: &mut State,
    alloc: Global,
    assumptions: &[Literal],
    retention: &mut Retention,
) -> Result<Answer, AllocError>
    requires known { All (IsKnown state.old.letters) assumptions.now }
    requires consistent { IsConsistent assumptions.now }
    ensures kept { IsAfter state.old state.new }
    ensures near { (clause : List Literal) (hints : List Hint) → IsNegated assumptions.now clause
        → IsHintedStep state.old.log.inputs state.old.log.lines greatest_u32 clause hints
        → length state.new.log.lines ≤ length state.old.log.lines + 1 }
    ensures answer { IfOk result (IsFound state.new assumptions.now) }
{
    begin(state, alloc, assumptions, retention)?;
    let mut pace = Pace::new();
    'search: loop {
        let found = state.propagate()?;
        state.invariant();
        match found {
            Some(conflict) => {
                if is_assumed(state, assumptions) {
                    let learnt = state.explain(alloc, conflict, Cut::Decisions)?;
                    return finish(state, alloc, &learnt);
                }
                let learnt = state.analyze(alloc, conflict)?;
                if learnt.clause.len() == 0 {
                    return finish(state, alloc, &learnt);
                }
                retention.note(state, &learnt.places)?;
                state.learn(&learnt)?;
                restart(state, alloc, &mut pace, retention)?;
            }
            None => match choose(state, assumptions) {
                Choice::Assume(literal) => state.decide(literal)?,
                Choice::Search(literal) => state.decide(literal)?,
                Choice::Refuted(literal) => {
                    let learnt = state.explain_false(alloc, literal)?;
                    return finish(state, alloc, &learnt);
                }
                Choice::Done => return Ok(Answer::Sat),
            },
        }
    }
}
