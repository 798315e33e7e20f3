// The text of an entry as a formula, with every pair of an operator's parentheses.
//
// What is still to be printed lies on a stack, the next piece on top, so that the depth of a formula costs
// memory and no recursion.
ghost use Rattle.std.specs.Prelude.{◌≡◌, ◌+◌, ◌<◌, ◌++◌, OnOk};
ghost use Rattle.ltl_syntax.specs.Print.{text_of, unary_text, binary_text};
ghost use Rattle.ltl_closure.specs.Entries.{IsNumber};
ghost use Rattle.claims.specs.Between.{width};
ghost use Rattle.claim_reading.specs.Readable.{entry_formula};
ghost use Rattle.claim_reading.specs.Shown.{HasNoNumbers};
ghost use Rattle.claim_reading.specs.Stack.{work_text, works_text, work_size, works_size, IsWork, AreWorks};

use crate::entry_node::node_of;
use ltl_closure::Closure;
use ltl_syntax::{BinaryOp, Node, UnaryOp};
use std::alloc::{AllocError, Global};

/// What is still to be printed: an entry, an operator between its operands, or a closing parenthesis.
#[derive(Clone, Copy)]
enum Work {
    Entry(u32),
    Operator(BinaryOp),
    Close,
}

/// Puts the text of an entry behind what is there.
pub fn push_entry(
    alloc: Global,
    closure: &Closure<'_>,
    number: u32,
    out: &mut Vec<u8>,
) -> Result<(), AllocError>
    requires { IsNumber (width closure.now.formula) number }
    ensures { OnOk result (out.new.items
        ≡ out.old.items ++ text_of (entry_formula closure.now.formula number)) }
{
    let mut stack = Vec::new(alloc);
    stack.push(Work::Entry(number))?;
    while let Some(work) = stack.pop() {
        step(alloc, closure, work, out, &mut stack)?;
    }
    Ok(())
}

/// Prints the front of one piece of work, and puts the rest of it on the stack.
#[tactic(auto, using(crate::proofs::Works::works_text_push, crate::proofs::Works::works_size_push, crate::proofs::Works::are_works_push, std::proofs::lemmas::Grind::common_steps))]
fn step(
    alloc: Global,
    closure: &Closure<'_>,
    work: Work,
    out: &mut Vec<u8>,
    stack: &mut Vec<Work>,
) -> Result<(), AllocError>
    requires work { IsWork (width closure.now.formula) work }
    requires works { AreWorks (width closure.now.formula) stack.old.items }
    ensures text { OnOk result (out.new.items ++ works_text closure.now.formula stack.new.items
        ≡ out.old.items ++ work_text closure.now.formula work
        ++ works_text closure.now.formula stack.old.items) }
    ensures works { OnOk result (AreWorks (width closure.now.formula) stack.new.items) }
    ensures size { OnOk result (works_size closure.now.formula stack.new.items
        < works_size closure.now.formula stack.old.items + work_size closure.now.formula work) }
{
    match work {
        Work::Operator(op) => out.extend_from_slice(binary_bytes(op))?,
        Work::Close => out.push(b')')?,
        Work::Entry(number) => match node_of(closure, number) {
            Node::Const(true) => out.extend_from_slice(b"true")?,
            Node::Const(false) => out.extend_from_slice(b"false")?,
            Node::Letter(letter) => {
                out.extend_from_slice(closure.table().name_of(letter).as_bytes())?
            }
            Node::Fresh(letter) => {
                let digits = letter.to_string(alloc)?;
                out.push(b'{')?;
                out.extend_from_slice(digits.as_bytes())?;
                out.push(b'}')?;
            }
            Node::Unary(op, a) => {
                out.extend_from_slice(unary_bytes(op))?;
                stack.push(Work::Entry(a))?;
            }
            Node::Binary(op, a, b) => {
                out.push(b'(')?;
                stack.push(Work::Close)?;
                stack.push(Work::Entry(b))?;
                stack.push(Work::Operator(op))?;
                stack.push(Work::Entry(a))?;
            }
        },
    }
    Ok(())
}

fn unary_bytes(op: UnaryOp) -> &'static [u8]
    requires { HasNoNumbers op }
    ensures { result.now ≡ unary_text op }
{
    match op {
        UnaryOp::Not => b"!",
        UnaryOp::Next => b"X ",
        UnaryOp::WeakNext => b"wX ",
        UnaryOp::Eventually => b"F ",
        UnaryOp::Always => b"G ",
        UnaryOp::Yesterday => b"Y ",
        UnaryOp::WeakYesterday => b"Z ",
        UnaryOp::Once => b"O ",
        UnaryOp::Historically => b"H ",
        UnaryOp::NextTimes(_)
        | UnaryOp::YesterdayTimes(_)
        | UnaryOp::EventuallyIn(_, _)
        | UnaryOp::AlwaysIn(_, _)
        | UnaryOp::OnceIn(_, _)
        | UnaryOp::HistoricallyIn(_, _) => unreachable!(),
    }
}

fn binary_bytes(op: BinaryOp) -> &'static [u8]
    ensures { result.now ≡ binary_text op }
{
    match op {
        BinaryOp::And => b" & ",
        BinaryOp::Or => b" | ",
        BinaryOp::Implies => b" -> ",
        BinaryOp::Iff => b" <-> ",
        BinaryOp::Until => b" U ",
        BinaryOp::Release => b" R ",
        BinaryOp::WeakUntil => b" W ",
        BinaryOp::StrongRelease => b" M ",
        BinaryOp::Since => b" S ",
        BinaryOp::Trigger => b" T ",
    }
}
