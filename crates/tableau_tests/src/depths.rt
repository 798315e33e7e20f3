// Decisions that were worked by hand.
use crate::formulas::{closure_of, formula};
use enc_layout::Layout;
use ltl_closure::Closure;
use ltl_syntax::Kind;
use std::alloc::Global;
use std::process::Abort;
use unravel::{Decision, decide};

/// Whether there is a trace, where that is known, and the depth.
type Verdict = (Option<bool>, u32);

/// A formula, its kind, the last depth that is tried, and what is decided.
type Row = (&'static str, Kind, u32, Verdict);

const ROWS: &[Row] = &[
    ("p", Kind::Infinite, 8, (Some(true), 0)),
    ("p & !p", Kind::Infinite, 8, (Some(false), 0)),
    ("wX false", Kind::Infinite, 8, (Some(false), 1)),
    ("wX false", Kind::Finite, 8, (Some(true), 0)),
    ("G F p & G !p", Kind::Infinite, 1, (None, 1)),
    ("G F p & G !p", Kind::Infinite, 8, (Some(false), 2)),
    ("G F p & G !p", Kind::Finite, 8, (Some(false), 1)),
];

fn verdict_of(decision: &Decision) -> Verdict {
    match decision {
        Decision::Sat { depth, .. } => (Some(true), *depth),
        Decision::Unsat { depth, .. } => (Some(false), *depth),
        Decision::Undecided { depth } => (None, *depth),
    }
}

fn decided(rt: &impl Abort, alloc: Global, closure: &Closure<'_>, limit: u32) -> Verdict {
    assert!(rt; limit <= 1000);
    assert!(rt; Layout::of(closure).fits(limit));
    verdict_of(&decide(alloc, closure, limit).expect(rt, "memory"))
}

fn decided_of(rt: &impl Abort, alloc: Global, row: &Row) -> Verdict {
    let (table, root) = formula(rt, alloc, row.0);
    let closure = closure_of(rt, alloc, &table, root, row.1);
    decided(rt, alloc, &closure, row.2)
}

#[test]
fn decides(rt: HostRuntime) {
    for row in ROWS {
        let (found, depth) = decided_of(&rt, rt.alloc(), row);
        assert!(rt; found == row.3.0 && depth == row.3.1, "{row:?}");
    }
}
