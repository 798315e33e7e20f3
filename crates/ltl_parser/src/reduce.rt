// Applying what waits on the stack: each operator before the operand, and each left operand with its
// operator, as long as they bind at least as strongly as the next operator asks. What is applied becomes a
// node of the table.
ghost use Rattle.std.specs.Prelude.{◌≡◌, ◌≢◌, ◌+◌, ◌≤◌, IfOk, Err};
ghost use Rattle.ltl_syntax.specs.declared.table.PushRefused.TheVariants as refused;
ghost use Rattle.ltl_syntax.specs.Size.{sizes};
ghost use Rattle.ltl_parser.specs.Standing.{applied, ArePending, Becomes, IsStopped, frames, to_weigh};

use crate::stack::{Stack, Waiting};
use crate::strength::strength;
use ltl_syntax::{FormulaTable, Node, PushRefused};

/// The node that the top of the stack makes of the operand.
fn applied(stack: &Stack, operand: u32, level: u8) -> Option<Node>
    ensures { result ≡ applied level stack.now operand }
{
    match stack.top() {
        Some(Waiting::Prefix(op)) => Some(Node::Unary(op, operand)),
        Some(Waiting::Infix(left, op)) if level <= strength(op) => Some(Node::Binary(
            op, left, operand,
        )),
        _ => None,
    }
}

/// Applies to the operand what waits on the stack and binds it at least as strongly as the level.
pub fn reduce(
    table: &mut FormulaTable,
    stack: &mut Stack,
    operand: u32,
    level: u8,
) -> Result<u32, PushRefused>
    requires pending { ArePending table.old stack.old operand }
    requires room { sizes table.old.nodes + to_weigh stack.old ≤ 16384 }
    ensures held { IfOk result (λ n. Becomes level table.old stack.old operand table.new stack.new n) }
    ensures stopped { IfOk result (λ n. IsStopped level (frames table.new stack.new)) }
    ensures nodes { result ≢ Err refused.Nodes }
{
    let mut operand = operand;
    while let Some(node) = applied(stack, operand, level) {
        stack.pop();
        operand = table.push(node)?;
    }
    Ok(operand)
}
