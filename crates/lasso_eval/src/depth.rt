// How deep past operators are nested, and how many positions that takes.
ghost use Rattle.std.specs.Prelude.{◌≡◌, ◌+◌, ◌*◌, ◌^◌, ◌<◌, ◌≤◌, length, max, IfOk};
ghost use Rattle.ltl_syntax.specs.Formula.{Formula, Unary, Binary};
ghost use Rattle.ltl_syntax.specs.Table.{tree_at};
ghost use Rattle.ltl_word.specs.Depth.{past_depth};
ghost use Rattle.lasso_eval.specs.Cells.{columns, loop_start};
ghost use Rattle.lasso_eval.specs.Extent.{AreDepths};

use ltl_syntax::{BinaryOp, FormulaTable, Node, UnaryOp};
use ltl_word::Trace;
use std::alloc::{AllocError, Global};

/// How deep past operators are nested under the root, a bounded one as often as it looks back.
pub fn depth_under(alloc: Global, table: &FormulaTable, root: u32) -> Result<u32, AllocError>
    requires { root < length table.now.nodes }
    ensures depth { IfOk result (λ depth. depth ≡ past_depth (tree_at table.now root)) }
    ensures small { IfOk result (λ depth. depth ≤ 255 * root) }
{
    let mut depths = Vec::with_capacity(alloc, root as usize)?;
    for number in 0..root {
        let depth = depth_of(table, number, &depths);
        depths.push(depth)?;
    }
    Ok(depth_of(table, root, &depths))
}

// The depth of a node, from those of the nodes before it.
fn depth_of(table: &FormulaTable, number: u32, depths: &[u32]) -> u32
    requires there { number < length table.now.nodes }
    requires place { number ≡ length depths.now }
    requires known { AreDepths table.now depths.now }
    ensures depth { result ≡ past_depth (tree_at table.now number) }
    ensures small { result ≤ 255 * number }
{
    // A table has at most 16,384 nodes, so that no sum below passes its type.
    let _nodes = table.len();
    match table.node(number) {
        Node::Const(_) | Node::Letter(_) | Node::Fresh(_) => 0,
        Node::Unary(op, a) => depths[a as usize] + past_of_one(op),
        Node::Binary(op, a, b) => depths[a as usize].max(depths[b as usize]) + past_of_two(op),
    }
}

// How much deeper an operator makes its operand.
fn past_of_one(op: UnaryOp) -> u32
    ensures deeper { (f : Formula) → past_depth (Unary op f) ≡ past_depth f + result }
    ensures small { result ≤ 255 }
{
    match op {
        UnaryOp::YesterdayTimes(n) => n as u32,
        UnaryOp::OnceIn(_, last) | UnaryOp::HistoricallyIn(_, last) => last as u32,
        UnaryOp::Yesterday | UnaryOp::WeakYesterday | UnaryOp::Once | UnaryOp::Historically => 1,
        _ => 0,
    }
}

fn past_of_two(op: BinaryOp) -> u32
    ensures deeper { (f g : Formula) → past_depth (Binary op f g)
        ≡ max (past_depth f) (past_depth g) + result }
    ensures small { result ≤ 1 }
{
    match op {
        BinaryOp::Since | BinaryOp::Trigger => 1,
        _ => 0,
    }
}

/// The number of positions that tell all about a formula of this depth.
pub fn columns_of(trace: &Trace, depth: u32) -> u128
    requires { depth ≤ 255 * 16384 }
    ensures count { result ≡ columns trace.now depth }
    ensures small { result < 2 ^ 90 }
{
    match trace {
        Trace::Infinite { stem, loop_part } => {
            stem.as_slice().len() as u128 + (depth as u128 + 1) * loop_part.as_slice().len() as u128
        }
        Trace::Finite { states } => states.as_slice().len() as u128,
    }
}

/// The column to which this number of columns comes back.
pub fn loop_start_of(trace: &Trace, depth: u32, count: usize) -> usize
    requires { count ≡ columns trace.now depth }
    ensures { result ≡ loop_start trace.now depth }
{
    match trace {
        Trace::Infinite { stem: _, loop_part } => count - loop_part.as_slice().len(),
        Trace::Finite { states: _ } => count,
    }
}
