// The table of tokens without a fault, read from left to right with a stack of what waits for its operand:
// operator precedence parsing (Dijkstra's shunting yard, 1961). An operator first takes from the stack what
// binds as strongly as it asks on its left, then waits there with its left operand.
ghost use Rattle.std.specs.Prelude.{◌≡◌, ◌≢◌, ◌+◌, ◌<◌, ◌≤◌, length, IfOk, Err, None, Some};
ghost use Rattle.ltl_lexer.specs.Tokens.{AreTokens, IsPartOf};
ghost use Rattle.ltl_syntax.specs.declared.table.PushRefused.TheVariants as refused;
ghost use Rattle.ltl_syntax.specs.Table.{IsRoot, tree_at};
ghost use Rattle.ltl_syntax.specs.Size.{sizes};
ghost use Rattle.ltl_parser.specs.Grammar.{Reads, fault, node_count, weight};
ghost use Rattle.ltl_parser.specs.Text.{symbols, symbol_of, names_of};
ghost use Rattle.ltl_parser.specs.Standing.{AreReady, IsTaken, Steps, frames, parens, to_weigh, units};
ghost use Rattle.ltl_parser.specs.Standing.{wanted};

use crate::reduce::reduce;
use crate::stack::Stack;
use crate::step::{step_operand, step_operator};
use ltl_lexer::Token;
use ltl_syntax::{FormulaTable, PushRefused};
use std::alloc::Global;

fn step(
    text: &[u8],
    token: Token,
    table: &mut FormulaTable,
    stack: &mut Stack,
    operand: Option<u32>,
) -> Result<Option<u32>, PushRefused>
    requires fitting { IsPartOf text.now token }
    requires ready { AreReady table.old stack.old operand }
    requires room { sizes table.old.nodes + to_weigh stack.old + weight (symbol_of text.now token) ≤ 16384 }
    requires names { length table.old.names ≤ length table.old.nodes }
    requires taken { IsTaken (wanted operand) (parens (frames table.old stack.old))
        (symbol_of text.now token) }
    ensures steps { IfOk result (λ b. Steps table.old stack.old operand
        (symbol_of text.now token) table.new stack.new b) }
    ensures nodes { result ≢ Err refused.Nodes }
{
    match operand {
        None => step_operand(text, token, table, stack),
        Some(operand) => step_operator(text, token, table, stack, operand),
    }
}

/// The table of the formula that the tokens read as, and its root.
pub fn build(
    alloc: Global,
    text: &[u8],
    tokens: &[Token],
) -> Result<(FormulaTable, u32), PushRefused>
    requires tokens { AreTokens 0 text.now tokens.now None }
    requires clean { fault (symbols text.now tokens.now) ≡ None }
    requires room { node_count (symbols text.now tokens.now) ≤ 16384 }
    ensures reads { IfOk result (λ r. Reads (symbols text.now tokens.now) (tree_at r.0 r.1)) }
    ensures root { IfOk result (λ r. IsRoot r.0 r.1) }
    ensures last { IfOk result (λ r. r.1 + 1 ≡ length r.0.nodes) }
    ensures count { IfOk result (λ r. length r.0.nodes ≡ units (symbols text.now tokens.now)) }
    ensures size { IfOk result (λ r. sizes r.0.nodes ≡ node_count (symbols text.now tokens.now)) }
    ensures names { IfOk result (λ r. r.0.names ≡ names_of (symbols text.now tokens.now)) }
    ensures nodes { result ≢ Err refused.Nodes }
{
    let mut table = FormulaTable::new(alloc);
    let mut stack = Stack::new(alloc);
    let mut operand = None;
    for token in tokens {
        operand = step(text, *token, &mut table, &mut stack, operand)?;
    }
    let Some(last) = operand else { unreachable!() };
    let root = reduce(&mut table, &mut stack, last, 0)?;
    Ok((table, root))
}
