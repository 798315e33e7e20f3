// Where a formula fails first on a trace.
ghost use Rattle.std.specs.Prelude.{◌≡◌, ℕ, ◌+◌, ◌<◌, ◌≤◌, length, Err, IfOk};
ghost use Rattle.ltl_syntax.specs.Table.{tree_at};
ghost use Rattle.ltl_word.specs.Trace.{IsTrace};
ghost use Rattle.ltl_word.specs.Holds.{Satisfies};
ghost use Rattle.lasso_eval.specs.Cells.{AreTooMany, cells, max_cells};
ghost use Rattle.lasso_eval.specs.Rows.{row_at, AreValues};
ghost use Rattle.requirement_questions.specs.Failure.{IsFirstFailure, FailsFirst, IsFirstFalse};

use crate::triggering::always_child;
use lasso_eval::{EvalRefused, TruthRows, values};
use ltl_syntax::FormulaTable;
use ltl_word::Trace;
use std::alloc::Global;

/// None where the trace satisfies the formula. Else the first position, from 0, at which `f` fails where it is
/// `G f`, and 0 where it is another.
pub fn first_failure(
    alloc: Global,
    table: &FormulaTable,
    root: u32,
    trace: &Trace,
) -> Result<Option<u32>, EvalRefused>
    requires root { root < length table.now.nodes }
    requires trace { IsTrace trace.now }
    ensures first { IfOk result (IsFirstFailure trace.now (tree_at table.now root)) }
    ensures many { (a : ℕ) → result ≡ Err (EvalRefused.Cells a)
        → AreTooMany trace.now (tree_at table.now root) a }
{
    let rows = values(alloc, table, root, trace)?;
    if rows.at(root, 0) {
        return Ok(None);
    }
    let position = failing(table, root, trace, &rows);
    Ok(Some(position))
}

/// Where it fails first, where it does.
fn failing(table: &FormulaTable, root: u32, trace: &Trace, rows: &TruthRows) -> u32
    requires root { root < length table.now.nodes }
    requires trace { IsTrace trace.now }
    requires many { length rows.now ≡ root + 1 }
    requires rows { AreValues table.now root trace.now rows.now }
    requires few { cells trace.now (tree_at table.now root) ≤ max_cells }
    requires fails { ¬ Satisfies trace.now (tree_at table.now root) }
    ensures { FailsFirst trace.now (tree_at table.now root) result }
{
    let Some(part) = always_child(table.node(root)) else {
        return 0;
    };
    first_false(rows, part)
}

/// The first position at which the node's formula is false, or the end of the row.
fn first_false(rows: &TruthRows, node: u32) -> u32
    requires there { node < length rows.now }
    requires few { length (row_at rows.now node) < 4294967295 }
    ensures { IsFirstFalse (row_at rows.now node) result }
{
    let count = rows.positions(node) as u32;
    'positions: for position in 0..count {
        if !rows.at(node, position) {
            return position;
        }
    }
    count
}
