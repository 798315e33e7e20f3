// The nodes under a root in the order in which the text of the formula begins them. What is still to be
// gone over lies on a stack, so that the depth of a formula costs memory and no recursion.
ghost use Rattle.std.specs.Prelude.{◌≡◌, ◌+◌, ◌<◌, ◌++◌, All, length, IfOk, OnOk};
ghost use Rattle.ltl_syntax.specs.Flat.{order_at};
ghost use Rattle.ltl_syntax.specs.Pending.{pending};

use crate::{FormulaTable, Node};
use std::alloc::{AllocError, Global};

/// The numbers of the nodes of the tree under a root: a node before what is under it, and the whole tree of
/// a left operand before that of the right one. Takes time linear in them.
pub fn nodes_under(alloc: Global, table: &FormulaTable, root: u32) -> Result<Vec<u32>, AllocError>
    requires { root < length table.now.nodes }
    ensures { IfOk result (λ order. order.items ≡ order_at table.now root) }
{
    table.invariant();
    let mut order = Vec::new(alloc);
    let mut stack = Vec::new(alloc);
    stack.push(root)?;
    while let Some(number) = stack.pop() {
        visit(table, number, &mut order, &mut stack)?;
    }
    Ok(order)
}

/// Puts a node behind the others, and its children on the stack, the left one on top.
#[tactic(auto, using(crate::proofs::Pending::pending_push, std::proofs::lemmas::Grind::common_steps))]
fn visit(
    table: &FormulaTable,
    number: u32,
    order: &mut Vec<u32>,
    stack: &mut Vec<u32>,
) -> Result<(), AllocError>
    requires number { number < length table.now.nodes }
    requires stack { All (λ n. n < length table.now.nodes) stack.old.items }
    ensures order { OnOk result (order.new.items ++ pending table.now stack.new.items
        ≡ order.old.items ++ (order_at table.now number ++ pending table.now stack.old.items)) }
    ensures stack { OnOk result (All (λ n. n < length table.now.nodes) stack.new.items) }
    ensures longer { OnOk result (length order.new.items ≡ length order.old.items + 1) }
{
    table.invariant();
    order.push(number)?;
    match table.node(number) {
        Node::Const(_) => {}
        Node::Letter(_) => {}
        Node::Fresh(_) => {}
        Node::Unary(_, a) => stack.push(a)?,
        Node::Binary(_, a, b) => {
            stack.push(b)?;
            stack.push(a)?;
        }
    }
    Ok(())
}
