// What triggers a requirement of the form `G (a -> b)`.
ghost use Rattle.std.specs.Prelude.{◌≡◌, ◌<◌, length, IfOk};
ghost use Rattle.ltl_syntax.specs.Table.{tree_at};
ghost use Rattle.ltl_syntax.specs.Formula.{Unary};
ghost use Rattle.ltl_syntax.specs.declared.node.UnaryOp.TheVariants.{Eventually};
ghost use Rattle.requirement_questions.specs.Trigger.{always_child, condition_child, HasTrigger, IsTrigger};

use formula_copy::{put_node, put_tree};
use ltl_syntax::{BinaryOp, FormulaTable, Node, UnaryOp};
use std::alloc::{AllocError, Global};

/// `F a` for `G (a -> b)`, as a table and the number of its root, and none for each other formula.
pub fn trigger(
    alloc: Global,
    table: &FormulaTable,
    root: u32,
) -> Result<Option<(FormulaTable, u32)>, AllocError>
    requires { root < length table.now.nodes }
    ensures { IfOk result (IsTrigger (tree_at table.now root)) }
{
    let Some(condition) = condition_of(table, root) else {
        return Ok(None);
    };
    let made = eventually(alloc, table, condition)?;
    Ok(Some(made))
}

/// The number of `a` where the formula is `G (a -> b)`.
fn condition_of(table: &FormulaTable, root: u32) -> Option<u32>
    requires { root < length table.now.nodes }
    ensures { HasTrigger table.now root result }
{
    let Some(body) = always_child(table.node(root)) else {
        return None;
    };
    condition_child(table.node(body))
}

/// `F a` in a table of its own. It fits, as `a` stands under a node of a table with two more operators.
fn eventually(
    alloc: Global,
    table: &FormulaTable,
    number: u32,
) -> Result<(FormulaTable, u32), AllocError>
    requires { number < length table.now.nodes }
    ensures { IfOk result (λ made. (made.1 < length made.0.nodes)
        × (tree_at made.0 made.1 ≡ Unary Eventually (tree_at table.now number))) }
{
    let mut target = FormulaTable::new(alloc);
    let Some(copy) = put_tree(alloc, table, number, &mut target)? else {
        return Err(AllocError);
    };
    let Some(at) = put_node(&mut target, Node::Unary(UnaryOp::Eventually, copy))? else {
        return Err(AllocError);
    };
    Ok((target, at))
}

/// The number of `f` where the node is `G f`.
pub fn always_child(node: Node) -> Option<u32>
    ensures { result ≡ always_child node }
{
    match node {
        Node::Unary(UnaryOp::Always, child) => Some(child),
        _ => None,
    }
}

/// The number of `a` where the node is `a -> b`.
fn condition_child(node: Node) -> Option<u32>
    ensures { result ≡ condition_child node }
{
    match node {
        Node::Binary(BinaryOp::Implies, condition, _) => Some(condition),
        _ => None,
    }
}
