// Searches for a trace that were worked by hand.
use crate::formulas::{closure_of, formula};
use lasso_eval::holds;
use ltl_syntax::Kind;
use std::alloc::Global;
use std::process::Abort;
use unravel::{Exploration, Explored};

/// A formula, its kind, how many depths are looked at, and the first at which there is a trace.
type Row = (&'static str, Kind, u32, Option<u32>);

const ROWS: &[Row] = &[
    // p and X p hold in a loop of one state behind the first.
    ("X X p", Kind::Infinite, 8, Some(1)),
    ("X X p", Kind::Finite, 8, Some(2)),
    ("X X p", Kind::Finite, 2, None),
    ("p & !p", Kind::Infinite, 4, None),
    ("X true", Kind::Finite, 8, Some(1)),
];

/// The depth at which a trace is found. The formula holds on it.
fn found(rt: &impl Abort, alloc: Global, row: &Row) -> Option<u32> {
    let (table, root) = formula(rt, alloc, row.0);
    let closure = closure_of(rt, alloc, &table, root, row.1);
    assert!(rt; root < table.len());
    let mut search = Exploration::begin(alloc, &closure);
    for _ in 0..row.2 {
        assert!(rt; search.can_go_on());
        match search.explore().expect(rt, "memory") {
            Explored::Found { depth, trace } => {
                let there = holds(alloc, &table, root, &trace).expect(rt, "few cells");
                assert!(rt; there);
                return Some(depth);
            }
            Explored::Open(next) => {
                search = next;
            }
        }
    }
    assert!(rt; search.depth() == row.2);
    None
}

#[test]
fn finds_traces(rt: HostRuntime) {
    for row in ROWS {
        assert!(rt; found(&rt, rt.alloc(), row) == row.3, "{row:?}");
    }
}
