// One formula: a trace that satisfies it, or a certificate that none does.
ghost use Rattle.std.specs.Prelude.{◌<◌, length, IfOk};
ghost use Rattle.ltl_syntax.specs.Table.{tree_at};
ghost use Rattle.requirement_questions.specs.Outcome.{IsOutcome};

use crate::questions::Limits;
use crate::turns::{Attempt, Attempted};
use claim_check::Certificate;
use ltl_closure::Closure;
use ltl_syntax::{FormulaTable, Kind};
use ltl_word::Trace;
use std::alloc::{AllocError, Global};

/// What is found of a formula.
#[derive(Drop)]
pub enum SearchOutcome {
    /// A trace of the kind that satisfies it.
    Possible(Trace),
    /// A lawful certificate: no trace of the kind satisfies it.
    Impossible(Certificate),
    /// Neither within the limits.
    Undecided,
}

/// Looks for a trace of the closure's kind that satisfies its formula, and for claims that refute it, by
/// turns: the answer of the first search that has one.
pub fn ask(
    alloc: Global,
    closure: &Closure<'_>,
    limits: Limits,
) -> Result<SearchOutcome, AllocError>
    ensures { IfOk result (IsOutcome closure.now.formula closure.now.kind) }
{
    let steps = limits.steps as u64;
    let mut attempt = Attempt::begin(alloc, closure)?;
    'turns: for _ in 0..steps {
        let asked = attempt.asked();
        if asked >= steps {
            break;
        }
        match attempt.turn(steps - asked)? {
            Attempted::Possible(trace) => return Ok(SearchOutcome::Possible(trace)),
            Attempted::Impossible(certificate) => return Ok(SearchOutcome::Impossible(certificate)),
            Attempted::Open(next) => attempt = next,
            Attempted::Ended => return Ok(SearchOutcome::Undecided),
        }
    }
    Ok(SearchOutcome::Undecided)
}

/// The same for the formula under a node.
pub fn ask_of(
    alloc: Global,
    table: &FormulaTable,
    root: u32,
    kind: Kind,
    limits: Limits,
) -> Result<SearchOutcome, AllocError>
    requires { root < length table.now.nodes }
    ensures { IfOk result (IsOutcome (tree_at table.now root) kind) }
{
    let closure = Closure::of(alloc, table, root, kind)?;
    ask(alloc, &closure, limits)
}
