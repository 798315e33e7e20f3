// The text of a formula, with every pair of an operator's parentheses.
//
// What is still to be printed lies on a stack, the next piece on top, so that the depth of a formula costs
// memory and no recursion.
ghost use Rattle.std.specs.Prelude.{◌≡◌, ◌+◌, ◌<◌, ◌++◌, length, IfOk, OnOk};
ghost use Rattle.ltl_syntax.specs.Table.{tree_at};
ghost use Rattle.ltl_syntax.specs.Print.{text_of, unary_text, times_text, range_text, binary_text};
ghost use Rattle.ltl_syntax.specs.Stack.{work_text, works_text, work_size, works_size, IsWork, AreWorks};

use crate::{BinaryOp, FormulaTable, Node, UnaryOp};
use std::alloc::{AllocError, Global};

/// What is still to be printed: the tree under a node, an operator between its operands, or a closing
/// parenthesis.
#[derive(Clone, Copy)]
enum Work {
    Tree(u32),
    Operator(BinaryOp),
    Close,
}

/// The text of the formula under a node. A fresh letter is printed as its number between braces, which no
/// formula text contains.
pub fn print(alloc: Global, table: &FormulaTable, root: u32) -> Result<Vec<u8>, AllocError>
    requires { root < length table.now.nodes }
    ensures { IfOk result (λ text. text.items ≡ text_of (tree_at table.now root)) }
{
    let mut out = Vec::new(alloc);
    let mut stack = Vec::new(alloc);
    stack.push(Work::Tree(root))?;
    while let Some(work) = stack.pop() {
        step(alloc, table, work, &mut out, &mut stack)?;
    }
    Ok(out)
}

/// Prints the front of one piece of work, and puts the rest of it on the stack.
#[tactic(auto, using(crate::proofs::Works::works_text_push, crate::proofs::Works::works_size_push, crate::proofs::Works::are_works_push, std::proofs::lemmas::Grind::common_steps))]
fn step(
    alloc: Global,
    table: &FormulaTable,
    work: Work,
    out: &mut Vec<u8>,
    stack: &mut Vec<Work>,
) -> Result<(), AllocError>
    requires work { IsWork table.now work }
    requires works { AreWorks table.now stack.old.items }
    ensures text { OnOk result (out.new.items ++ works_text table.now stack.new.items
        ≡ out.old.items ++ work_text table.now work ++ works_text table.now stack.old.items) }
    ensures works { OnOk result (AreWorks table.now stack.new.items) }
    ensures size { OnOk result (works_size table.now stack.new.items
        < works_size table.now stack.old.items + work_size table.now work) }
{
    match work {
        Work::Operator(op) => out.extend_from_slice(binary_bytes(op))?,
        Work::Close => out.push(b')')?,
        Work::Tree(number) => match table.node(number) {
            Node::Const(true) => out.extend_from_slice(b"true")?,
            Node::Const(false) => out.extend_from_slice(b"false")?,
            Node::Letter(letter) => out.extend_from_slice(table.name_of(letter).as_bytes())?,
            Node::Fresh(n) => {
                let digits = n.to_string(alloc)?;
                out.push(b'{')?;
                out.extend_from_slice(digits.as_bytes())?;
                out.push(b'}')?;
            }
            Node::Unary(op, a) => {
                put_unary(alloc, op, out)?;
                stack.push(Work::Tree(a))?;
            }
            Node::Binary(op, a, b) => {
                out.push(b'(')?;
                stack.push(Work::Close)?;
                stack.push(Work::Tree(b))?;
                stack.push(Work::Operator(op))?;
                stack.push(Work::Tree(a))?;
            }
        },
    }
    Ok(())
}

fn put_unary(alloc: Global, op: UnaryOp, out: &mut Vec<u8>) -> Result<(), AllocError>
    ensures { OnOk result (out.new.items ≡ out.old.items ++ unary_text op) }
{
    match op {
        UnaryOp::Not => Ok(out.extend_from_slice(b"!")?),
        UnaryOp::Next => Ok(out.extend_from_slice(b"X ")?),
        UnaryOp::WeakNext => Ok(out.extend_from_slice(b"wX ")?),
        UnaryOp::Eventually => Ok(out.extend_from_slice(b"F ")?),
        UnaryOp::Always => Ok(out.extend_from_slice(b"G ")?),
        UnaryOp::Yesterday => Ok(out.extend_from_slice(b"Y ")?),
        UnaryOp::WeakYesterday => Ok(out.extend_from_slice(b"Z ")?),
        UnaryOp::Once => Ok(out.extend_from_slice(b"O ")?),
        UnaryOp::Historically => Ok(out.extend_from_slice(b"H ")?),
        UnaryOp::NextTimes(n) => put_times(alloc, b"X", n, out),
        UnaryOp::YesterdayTimes(n) => put_times(alloc, b"Y", n, out),
        UnaryOp::EventuallyIn(a, b) => put_range(alloc, b"F", a, b, out),
        UnaryOp::AlwaysIn(a, b) => put_range(alloc, b"G", a, b, out),
        UnaryOp::OnceIn(a, b) => put_range(alloc, b"O", a, b, out),
        UnaryOp::HistoricallyIn(a, b) => put_range(alloc, b"H", a, b, out),
    }
}

fn put_times(alloc: Global, word: &[u8], n: u8, out: &mut Vec<u8>) -> Result<(), AllocError>
    ensures { OnOk result (out.new.items ≡ out.old.items ++ times_text word.now n) }
{
    let digits = n.to_string(alloc)?;
    out.extend_from_slice(word)?;
    out.extend_from_slice(b"[")?;
    out.extend_from_slice(digits.as_bytes())?;
    out.extend_from_slice(b"] ")?;
    Ok(())
}

fn put_range(alloc: Global, word: &[u8], a: u8, b: u8, out: &mut Vec<u8>) -> Result<(), AllocError>
    ensures { OnOk result (out.new.items ≡ out.old.items ++ range_text word.now a b) }
{
    let first = a.to_string(alloc)?;
    let second = b.to_string(alloc)?;
    out.extend_from_slice(word)?;
    out.extend_from_slice(b"[")?;
    out.extend_from_slice(first.as_bytes())?;
    out.extend_from_slice(b",")?;
    out.extend_from_slice(second.as_bytes())?;
    out.extend_from_slice(b"] ")?;
    Ok(())
}

fn binary_bytes(op: BinaryOp) -> &'static [u8]
    ensures { result.now ≡ binary_text op }
{
    match op {
        BinaryOp::And => b" & ",
        BinaryOp::Or => b" | ",
        BinaryOp::Implies => b" -> ",
        BinaryOp::Iff => b" <-> ",
        BinaryOp::Until => b" U ",
        BinaryOp::Release => b" R ",
        BinaryOp::WeakUntil => b" W ",
        BinaryOp::StrongRelease => b" M ",
        BinaryOp::Since => b" S ",
        BinaryOp::Trigger => b" T ",
    }
}
