// The row of a node, from the rows of its children.
ghost use Rattle.std.specs.Prelude.{◌≡◌, ◌<◌, ◌≤◌, ℕ, length, IfOk, IsTrue, slice_get, Some};
ghost use Rattle.ltl_syntax.specs.declared.node.Node.{Node as NodeSpec};
ghost use Rattle.ltl_syntax.specs.Formula.{Unary, Binary};
ghost use Rattle.ltl_syntax.specs.Table.{tree_at, has_child};
ghost use Rattle.ltl_word.specs.Depth.{past_depth};
ghost use Rattle.lasso_eval.specs.Cells.{max_cells};
ghost use Rattle.lasso_eval.specs.Rows.{Tells, row_at};
ghost use Rattle.lasso_eval.specs.Extent.{IsExtent};
ghost use Rattle.lasso_eval.specs.Following.{FollowsOne, FollowsTwo};

use crate::extent::Extent;
use crate::local::{Connective, connective_row, constant_row, letter_row, not_row};
use crate::neighbour::{next_row, yesterday_row};
use crate::row::Row;
use crate::span::{Span, future_row, past_row};
use crate::window::{earlier_row, later_row};
use ltl_syntax::{BinaryOp, FormulaTable, Node, UnaryOp};
use ltl_word::Trace;
use std::alloc::{AllocError, Global};

/// The row of a node whose children have theirs.
pub fn node_row(
    alloc: Global,
    table: &FormulaTable,
    number: u32,
    rows: &[Row],
    trace: &Trace,
    extent: Extent,
) -> Result<Row, AllocError>
    requires there { number < length table.now.nodes }
    requires place { number ≡ length rows.now }
    requires extent { IsExtent trace.now extent }
    requires deep { past_depth (tree_at table.now number) ≤ extent.depth }
    requires children { (node : NodeSpec) (child : ℕ) → child < number
        → slice_get table.now.nodes number ≡ Some node → IsTrue (has_child child node)
        → Tells trace.now extent.depth (tree_at table.now child) (row_at rows.now child) }
    ensures { IfOk result (Tells trace.now extent.depth (tree_at table.now number)) }
{
    match table.node(number) {
        Node::Const(value) => constant_row(alloc, value, extent.columns),
        Node::Letter(letter) => letter_row(alloc, table.name_of(letter), trace, extent.columns),
        Node::Fresh(fresh) => {
            let name = format!(in alloc; "{{{fresh}}}")?;
            letter_row(alloc, &name, trace, extent.columns)
        }
        Node::Unary(op, a) => unary_row(alloc, op, rows[a as usize].cells(), extent.loop_start),
        Node::Binary(op, a, b) => {
            let a = rows[a as usize].cells();
            let b = rows[b as usize].cells();
            binary_row(alloc, op, a, b, extent.loop_start)
        }
    }
}

// The row of an operator of one operand.
fn unary_row(alloc: Global, op: UnaryOp, a: &[bool], loop_start: usize) -> Result<Row, AllocError>
    requires within { loop_start ≤ length a.now }
    requires few { length a.now ≤ max_cells }
    ensures { IfOk result (FollowsOne op a.now loop_start) }
{
    match op {
        UnaryOp::Not => not_row(alloc, a),
        UnaryOp::Next => next_row(alloc, a, loop_start, false),
        UnaryOp::WeakNext => next_row(alloc, a, loop_start, true),
        UnaryOp::Eventually => future_row(alloc, Span::Eventually, a, a, loop_start),
        UnaryOp::Always => future_row(alloc, Span::Always, a, a, loop_start),
        UnaryOp::Yesterday => yesterday_row(alloc, a, false),
        UnaryOp::WeakYesterday => yesterday_row(alloc, a, true),
        UnaryOp::Once => past_row(alloc, Span::Eventually, a, a),
        UnaryOp::Historically => past_row(alloc, Span::Always, a, a),
        UnaryOp::NextTimes(n) => later_row(alloc, true, n, n, a, loop_start),
        UnaryOp::YesterdayTimes(n) => earlier_row(alloc, true, n, n, a),
        UnaryOp::EventuallyIn(first, last) => later_row(alloc, true, first, last, a, loop_start),
        UnaryOp::AlwaysIn(first, last) => later_row(alloc, false, first, last, a, loop_start),
        UnaryOp::OnceIn(first, last) => earlier_row(alloc, true, first, last, a),
        UnaryOp::HistoricallyIn(first, last) => earlier_row(alloc, false, first, last, a),
    }
}

// The row of an operator of two operands.
fn binary_row(
    alloc: Global,
    op: BinaryOp,
    a: &[bool],
    b: &[bool],
    loop_start: usize,
) -> Result<Row, AllocError>
    requires same { length a.now ≡ length b.now }
    requires within { loop_start ≤ length a.now }
    ensures { IfOk result (FollowsTwo op a.now b.now loop_start) }
{
    match op {
        BinaryOp::And => connective_row(alloc, Connective::And, a, b),
        BinaryOp::Or => connective_row(alloc, Connective::Or, a, b),
        BinaryOp::Implies => connective_row(alloc, Connective::Implies, a, b),
        BinaryOp::Iff => connective_row(alloc, Connective::Iff, a, b),
        BinaryOp::Until => future_row(alloc, Span::Until, a, b, loop_start),
        BinaryOp::Release => future_row(alloc, Span::Release, a, b, loop_start),
        BinaryOp::WeakUntil => future_row(alloc, Span::WeakUntil, a, b, loop_start),
        BinaryOp::StrongRelease => future_row(alloc, Span::StrongRelease, a, b, loop_start),
        BinaryOp::Since => past_row(alloc, Span::Until, a, b),
        BinaryOp::Trigger => past_row(alloc, Span::Release, a, b),
    }
}
