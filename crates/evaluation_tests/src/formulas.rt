// Formulas of texts, by the reader that the programs have.
use formula_reading::{Reading, read_formula};
use ltl_syntax::{FormulaTable, Node};
use std::alloc::Global;
use std::process::Abort;
use std::test::Fail;

/// The formula that the text reads as: its table, and the number of its root.
pub(crate) fn formula(
    rt: &impl Abort,
    alloc: Global,
    text: &str,
) -> Result<(FormulaTable, u32), Fail> {
    match read_formula(alloc, text.as_bytes())? {
        Reading::Formula { table, root } => Ok((table, root)),
        Reading::Refused(_) => panic!(rt; "no formula: {text}"),
    }
}

/// The number of the node, which is pushed.
pub(crate) fn push(rt: &impl Abort, table: &mut FormulaTable, node: Node) -> Result<u32, Fail> {
    assert!(rt; table.may_push(node));
    Ok(table.push(node)?)
}
