// Certificates from rows of a table, and formulas from texts. A literal is a number, negative where it is
// negated; a hint is one too, negative where it names a line.
use claim_check::{Certificate, HintedLines, Layer};
use cnf_base::{ClauseList, Hint, Letter, Literal, Rows};
use formula_reading::{Reading, read_formula};
use ltl_syntax::{FormulaTable, Kind};
use std::alloc::{AllocError, Global};
use std::process::Abort;

pub(crate) type LineRow = (&'static [i32], &'static [i32]);

#[derive(Clone, Copy)]
pub(crate) struct LayerRow {
    pub(crate) eventuality: Option<u32>,
    pub(crate) claims: &'static [&'static [i32]],
    pub(crate) base_lines: &'static [LineRow],
    pub(crate) base_targets: &'static [u64],
    pub(crate) step_lines: &'static [LineRow],
    pub(crate) step_targets: &'static [u64],
}

fn literals(alloc: Global, numbers: &[i32]) -> Result<Vec<Literal>, AllocError> {
    let mut literals = Vec::new(alloc);
    for number in numbers {
        literals.push(Literal {
            letter: Letter(number.unsigned_abs()),
            negated: *number < 0,
        })?;
    }
    Ok(literals)
}

fn hints(alloc: Global, numbers: &[i32]) -> Result<Vec<Hint>, AllocError> {
    let mut hints = Vec::new(alloc);
    for number in numbers {
        let named = number.unsigned_abs() as u64;
        hints.push(if *number < 0 {
            Hint::Line(named)
        } else {
            Hint::Clause(named)
        })?;
    }
    Ok(hints)
}

fn push(rt: &impl Abort, alloc: Global, list: &mut ClauseList, numbers: &[i32]) {
    let clause = literals(alloc, numbers).expect(rt, "memory");
    assert!(rt; clause.len() < 100);
    list.push(&clause).expect(rt, "memory");
}

fn claims(rt: &impl Abort, alloc: Global, rows: &[&[i32]]) -> ClauseList {
    let mut list = ClauseList::new(alloc);
    for row in rows {
        push(rt, alloc, &mut list, row);
    }
    list
}

fn lines(rt: &impl Abort, alloc: Global, rows: &[LineRow]) -> HintedLines {
    let mut list = ClauseList::new(alloc);
    let mut all = Rows::new(alloc);
    for row in rows {
        push(rt, alloc, &mut list, row.0);
        let named = hints(alloc, row.1).expect(rt, "memory");
        all.push(&named).expect(rt, "memory");
    }
    HintedLines {
        literals: list,
        hints: all,
    }
}

fn targets(rt: &impl Abort, alloc: Global, numbers: &[u64]) -> Vec<u64> {
    let mut targets = Vec::new(alloc);
    targets.extend_from_slice(numbers).expect(rt, "memory");
    targets
}

fn layer(rt: &impl Abort, alloc: Global, row: &LayerRow) -> Layer {
    Layer {
        eventuality: row.eventuality,
        claims: claims(rt, alloc, row.claims),
        base_lines: lines(rt, alloc, row.base_lines),
        base_targets: targets(rt, alloc, row.base_targets),
        step_lines: lines(rt, alloc, row.step_lines),
        step_targets: targets(rt, alloc, row.step_targets),
    }
}

pub(crate) fn certificate(
    rt: &impl Abort,
    alloc: Global,
    kind: Kind,
    rows: &[LayerRow],
    close: &[LineRow],
    target: u64,
) -> Certificate {
    let mut layers = Vec::new(alloc);
    for row in rows {
        layers.push(layer(rt, alloc, row)).expect(rt, "memory");
    }
    Certificate {
        kind,
        layers,
        lines: lines(rt, alloc, close),
        target,
    }
}

/// The formula that the text reads as: its table, and the number of its root.
pub(crate) fn formula(rt: &impl Abort, alloc: Global, text: &str) -> (FormulaTable, u32) {
    match read_formula(alloc, text.as_bytes()).expect(rt, "memory") {
        Reading::Formula { table, root } => (table, root),
        Reading::Refused(_) => panic!(rt; "no formula: {text}"),
    }
}
