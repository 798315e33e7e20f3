// The nodes under a root, each behind its operands, left before right.
//
// A walk with a stack meets each node before its operands and the right one before the left. What
// it has met lies on a second stack, from whose top on the nodes then come the other way round.
ghost use Rattle.std.specs.Prelude.{◌≡◌, ◌+◌, ◌<◌, ◌++◌, [], length, IfOk, OnOk};
ghost use Rattle.depast.specs.Postorder.{Ends, operands};

use crate::stack::Stack;
use ltl_syntax::{FormulaTable, Node};
use std::alloc::{AllocError, Global};

/// The nodes under the root, the first on top.
pub fn postorder(alloc: Global, table: &FormulaTable, root: u32) -> Result<Stack<u32>, AllocError>
    requires { root < length table.now.nodes }
    ensures { IfOk result (λ order. Ends table.now [] order root) }
{
    let mut met = Stack::new(alloc);
    let mut waiting = Stack::new(alloc);
    waiting.push(root)?;
    while let Some(number) = waiting.pop() {
        met.push(number)?;
        wait_for_operands(table.node(number), &mut waiting)?;
    }
    Ok(met)
}

/// Puts the operands of a node on the stack, the right one on top.
fn wait_for_operands(node: Node, waiting: &mut Stack<u32>) -> Result<(), AllocError>
    ensures { OnOk result (waiting.new ≡ operands node ++ waiting.old) }
{
    match node {
        Node::Const(_) | Node::Letter(_) | Node::Fresh(_) => Ok(()),
        Node::Unary(_, a) => waiting.push(a),
        Node::Binary(_, a, b) => {
            waiting.push(a)?;
            waiting.push(b)
        }
    }
}
