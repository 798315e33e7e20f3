// What one token does to the stack and the table, by whether an operand stands on the stack.
ghost use Rattle.std.specs.Prelude.{◌≢◌, ◌+◌, ◌<◌, ◌≤◌, length, IfOk, Err, None, Some};
ghost use Rattle.ltl_lexer.specs.Tokens.{IsWord, IsPartOf};
ghost use Rattle.ltl_syntax.specs.declared.table.PushRefused.TheVariants as refused;
ghost use Rattle.ltl_syntax.specs.Formula.{Const, Name, Letter};
ghost use Rattle.ltl_syntax.specs.Size.{sizes};
ghost use Rattle.ltl_parser.specs.Text.{symbol_of};
ghost use Rattle.ltl_parser.specs.Grammar.{Operand, Operator, weight};
ghost use Rattle.ltl_parser.specs.Standing.{ArePending, AddsLeaf, AreReady, IsTaken, Steps, frames, parens};
ghost use Rattle.ltl_parser.specs.Standing.{to_weigh};

use crate::meaning::{Meaning, meant};
use crate::reduce::reduce;
use crate::stack::{Stack, Waiting};
use crate::strength::left_bound;
use ltl_lexer::Token;
use ltl_syntax::{FormulaTable, Node, PushRefused};

fn push_constant(table: &mut FormulaTable, value: bool) -> Result<u32, PushRefused>
    requires { sizes table.old.nodes < 16384 }
    ensures leaf { IfOk result (λ n. AddsLeaf table.old (Const value) table.new n) }
    ensures nodes { result ≢ Err refused.Nodes }
{
    let number = table.push(Node::Const(value))?;
    Ok(number)
}

fn push_letter(table: &mut FormulaTable, bytes: &[u8]) -> Result<u32, PushRefused>
    requires word { IsWord bytes.now }
    requires room { sizes table.old.nodes < 16384 }
    requires names { length table.old.names ≤ length table.old.nodes }
    ensures leaf { IfOk result (λ n. AddsLeaf table.old (Letter (Name bytes.now)) table.new n) }
    ensures nodes { result ≢ Err refused.Nodes }
{
    let Ok(name) = str::from_utf8(bytes) else {
        unreachable!()
    };
    let Ok(letter) = table.name(name) else {
        return Err(PushRefused::NoMemory);
    };
    let number = table.push(Node::Letter(letter))?;
    Ok(number)
}

/// The operand that a token is, or what is kept of a token that stands before one.
pub fn step_operand(
    text: &[u8],
    token: Token,
    table: &mut FormulaTable,
    stack: &mut Stack,
) -> Result<Option<u32>, PushRefused>
    requires fitting { IsPartOf text.now token }
    requires ready { AreReady table.old stack.old None }
    requires room { sizes table.old.nodes + to_weigh stack.old + weight (symbol_of text.now token) ≤ 16384 }
    requires names { length table.old.names ≤ length table.old.nodes }
    requires taken { IsTaken Operand (parens (frames table.old stack.old)) (symbol_of text.now token) }
    ensures steps { IfOk result (λ b. Steps table.old stack.old None
        (symbol_of text.now token) table.new stack.new b) }
    ensures nodes { result ≢ Err refused.Nodes }
{
    match meant(token.kind) {
        Meaning::Constant(value) => {
            let number = push_constant(table, value)?;
            Ok(Some(number))
        }
        Meaning::Name => {
            let number = push_letter(table, &text[token.start as usize..token.end as usize])?;
            Ok(Some(number))
        }
        Meaning::Prefix(op) => {
            stack.push(Waiting::Prefix(op))?;
            Ok(None)
        }
        Meaning::Open => {
            stack.push(Waiting::Paren)?;
            Ok(None)
        }
        Meaning::Infix(_) | Meaning::Close => unreachable!(),
    }
}

/// What a token makes of the operand before it.
pub fn step_operator(
    text: &[u8],
    token: Token,
    table: &mut FormulaTable,
    stack: &mut Stack,
    operand: u32,
) -> Result<Option<u32>, PushRefused>
    requires ready { ArePending table.old stack.old operand }
    requires room { sizes table.old.nodes + to_weigh stack.old + weight (symbol_of text.now token) ≤ 16384 }
    requires names { length table.old.names ≤ length table.old.nodes }
    requires taken { IsTaken Operator (parens (frames table.old stack.old)) (symbol_of text.now token) }
    ensures steps { IfOk result (λ b. Steps table.old stack.old (Some operand)
        (symbol_of text.now token) table.new stack.new b) }
    ensures nodes { result ≢ Err refused.Nodes }
{
    match meant(token.kind) {
        Meaning::Infix(op) => {
            let left = reduce(table, stack, operand, left_bound(op))?;
            stack.push(Waiting::Infix(left, op))?;
            Ok(None)
        }
        Meaning::Close => {
            let inner = reduce(table, stack, operand, 0)?;
            let _ = stack.pop();
            Ok(Some(inner))
        }
        _ => unreachable!(),
    }
}
