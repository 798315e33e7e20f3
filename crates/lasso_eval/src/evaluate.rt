// The evaluation of a formula on a trace, row by row.
ghost use Rattle.std.specs.Prelude.{◌≡◌, ◌+◌, ◌<◌, ◌≤◌, ◌↔◌, ℕ, [], length, IfOk, OnOk, IsTrue, Err};
ghost use Rattle.ltl_syntax.specs.Table.{tree_at};
ghost use Rattle.ltl_syntax.specs.Under.{IsUnder, AreMarksUnder};
ghost use Rattle.ltl_word.specs.Trace.{IsTrace};
ghost use Rattle.ltl_word.specs.Holds.{Satisfies};
ghost use Rattle.ltl_word.specs.Depth.{past_depth};
ghost use Rattle.lasso_eval.specs.Cells.{cells, max_cells, AreTooMany};
ghost use Rattle.lasso_eval.specs.Rows.{AreValues, Tells, row_at};
ghost use Rattle.lasso_eval.specs.Extent.{IsExtent};

use crate::EvalRefused;
use crate::depth::{columns_of, depth_under, loop_start_of};
use crate::extent::Extent;
use crate::node_row::node_row;
use crate::row::{Row, TruthRows};
use ltl_syntax::{FormulaTable, mark_under};
use ltl_word::Trace;
use std::alloc::{AllocError, Global};

const MAX_CELLS: u128 = 67_108_864;

/// Where each formula under the root holds, at the states of a finite trace, or in the stem and
/// in one loop more than past operators are nested.
pub fn values(
    alloc: Global,
    table: &FormulaTable,
    root: u32,
    trace: &Trace,
) -> Result<TruthRows, EvalRefused>
    requires root { root < length table.now.nodes }
    requires trace { IsTrace trace.now }
    ensures ok { IfOk result (AreValues table.now root trace.now) }
    ensures length { IfOk result (λ rows. length rows ≡ root + 1) }
    ensures others { IfOk result (λ rows. (number : ℕ) → ¬ IsUnder table.now root number
        → row_at rows number ≡ []) }
    ensures few { OnOk result (cells trace.now (tree_at table.now root) ≤ max_cells) }
    ensures many { (a : ℕ) → result ≡ Err (EvalRefused.Cells a)
        → AreTooMany trace.now (tree_at table.now root) a }
{
    table.invariant();
    let under = mark_under(alloc, table, root)?;
    let depth = depth_under(alloc, table, root)?;
    let columns = columns_of(trace, depth);
    let cells = under.count as u128 * columns;
    if cells > MAX_CELLS {
        return Err(EvalRefused::Cells(cells));
    }
    let columns = columns as usize;
    let extent = Extent {
        depth,
        columns,
        loop_start: loop_start_of(trace, depth, columns),
    };
    let rows = filled(alloc, table, root, &under.marks, trace, extent)?;
    Ok(TruthRows::new(rows))
}

// The rows up to the root, each filled where its node is marked.
fn filled(
    alloc: Global,
    table: &FormulaTable,
    root: u32,
    marks: &[bool],
    trace: &Trace,
    extent: Extent,
) -> Result<Vec<Row>, AllocError>
    requires root { root < length table.now.nodes }
    requires length { length marks.now ≡ root + 1 }
    requires marks { AreMarksUnder table.now root marks.now }
    requires extent { IsExtent trace.now extent }
    requires depth { extent.depth ≡ past_depth (tree_at table.now root) }
    ensures length { IfOk result (λ rows. length rows.items ≡ root + 1) }
    ensures each { IfOk result (λ rows. (number : ℕ) → IsUnder table.now root number
        → Tells trace.now extent.depth (tree_at table.now number) (row_at rows.items number)) }
    ensures others { IfOk result (λ rows. (number : ℕ) → ¬ IsUnder table.now root number
        → row_at rows.items number ≡ []) }
{
    table.invariant();
    let mut rows = Vec::with_capacity(alloc, root as usize + 1)?;
    for number in 0..root + 1 {
        if marks[number as usize] {
            let row = node_row(alloc, table, number, &rows, trace, extent)?;
            rows.push(row)?;
        } else {
            rows.push(Row::empty(alloc))?;
        }
    }
    Ok(rows)
}

/// Whether the formula under the root holds at position 0.
pub fn holds(
    alloc: Global,
    table: &FormulaTable,
    root: u32,
    trace: &Trace,
) -> Result<bool, EvalRefused>
    requires root { root < length table.now.nodes }
    requires trace { IsTrace trace.now }
    ensures ok { IfOk result (λ answer. IsTrue answer ↔ Satisfies trace.now (tree_at table.now root)) }
    ensures few { OnOk result (cells trace.now (tree_at table.now root) ≤ max_cells) }
    ensures many { (a : ℕ) → result ≡ Err (EvalRefused.Cells a)
        → AreTooMany trace.now (tree_at table.now root) a }
{
    Ok(values(alloc, table, root, trace)?.at(root, 0))
}
