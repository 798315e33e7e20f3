ghost use Rattle.std.specs.Prelude.{◌≡◌, [], true};
ghost use Rattle.ltl_syntax.specs.Formula.{Const};
ghost use Rattle.ltl_run.specs.TraceOf.{IsRuleOf};

use ltl_closure::Closure;
use ltl_run::{Close, RunState, trace_of};
use ltl_syntax::{FormulaTable, Kind, Node};
use ltl_word::Trace;
use std::alloc::{AllocError, Global};
use std::process::Abort;

/// A state where there is nothing to give a value to.
fn blank(alloc: Global) -> RunState
    ensures letters { result.letters.items ≡ [] }
    ensures nexts { result.nexts.items ≡ [] }
    ensures yesterdays { result.yesterdays.items ≡ [] }
{
    RunState {
        letters: Vec::new(alloc),
        nexts: Vec::new(alloc),
        yesterdays: Vec::new(alloc),
    }
}

/// The trace of a run of two states of the formula `true`.
fn trace_of_true(alloc: Global, closure: &Closure<'_>, close: Close) -> Result<Trace, AllocError>
    requires formula { closure.now.formula ≡ Const true }
    requires rule { IsRuleOf close 1 closure.now.kind }
{
    let states = [blank(alloc), blank(alloc)];
    trace_of(alloc, closure, &states, close)
}

/// How many states stand in the stem and in the loop, or in the list.
fn lengths(trace: Trace) -> (usize, usize) {
    match trace {
        Trace::Infinite { stem, loop_part } => (stem.as_slice().len(), loop_part.as_slice().len()),
        Trace::Finite { states } => (states.as_slice().len(), 0),
    }
}

/// The formula is pushed, not read from a text: of this table it is known that it is the constant.
fn closed(rt: &impl Abort, alloc: Global, kind: Kind, close: Close) -> (usize, usize)
    requires { IsRuleOf close 1 kind }
{
    let mut table = FormulaTable::new(alloc);
    let root = table.push(Node::Const(true)).expect(rt, "a place");
    let closure = Closure::of(alloc, &table, root, kind).expect(rt, "memory");
    let trace = trace_of_true(alloc, &closure, close).expect(rt, "memory");
    lengths(trace)
}

#[test]
fn closes_by_each_rule(rt: HostRuntime) {
    assert!(rt; closed(&rt, rt.alloc(), Kind::Infinite, Close::Empty) == (2, 1));
    assert!(rt; closed(&rt, rt.alloc(), Kind::Infinite, Close::Loop(0)) == (1, 1));
    assert!(rt; closed(&rt, rt.alloc(), Kind::Finite, Close::End) == (2, 0));
}
