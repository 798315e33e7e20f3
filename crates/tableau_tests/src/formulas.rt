// Formulas of texts, by the reader that the programs have, and their closures.
use formula_reading::{Reading, read_formula};
use ltl_closure::Closure;
use ltl_syntax::{FormulaTable, Kind};
use std::alloc::Global;
use std::process::Abort;

/// The formula that the text reads as: its table, and the number of its root.
pub(crate) fn formula(rt: &impl Abort, alloc: Global, text: &str) -> (FormulaTable, u32) {
    match read_formula(alloc, text.as_bytes()).expect(rt, "memory") {
        Reading::Formula { table, root } => (table, root),
        Reading::Refused(_) => panic!(rt; "no formula: {text}"),
    }
}

pub(crate) fn closure_of<'t>(
    rt: &impl Abort,
    alloc: Global,
    table: &'t FormulaTable,
    root: u32,
    kind: Kind,
) -> Closure<'t> {
    assert!(rt; root < table.len());
    Closure::of(alloc, table, root, kind).expect(rt, "memory")
}
