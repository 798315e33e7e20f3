// The letters of a formula. What is still to be gone over lies on a stack, so that the depth of a formula
// costs memory and no recursion.
ghost use Rattle.std.specs.Prelude.{◌≡◌, ◌+◌, ◌<◌, ◌++◌, length, OnOk};
ghost use Rattle.ltl_syntax.specs.Table.{tree_at};
ghost use Rattle.requirement_report.specs.Letters.{letters_of};
ghost use Rattle.requirement_report.specs.Walk.{stack_letters, stack_size, AreNodes, node_size};

use ltl_syntax::{FormulaTable, Node};
use ltl_word::Name;
use std::alloc::{AllocError, Global};

/// Adds the letters of a formula, from left to right.
pub fn put_letters(
    alloc: Global,
    table: &FormulaTable,
    root: u32,
    names: &mut Vec<Name>,
) -> Result<(), AllocError>
    requires { root < length table.now.nodes }
    ensures { OnOk result (names.new.items ≡ names.old.items ++ letters_of (tree_at table.now root)) }
{
    let mut stack = Vec::new(alloc);
    stack.push(root)?;
    while let Some(number) = stack.pop() {
        step(alloc, table, number, names, &mut stack)?;
    }
    Ok(())
}

/// Adds the letter of a node, or puts its children on the stack, the left one on top.
#[tactic(auto, using(crate::proofs::Stacks::letters_push, crate::proofs::Stacks::size_push, crate::proofs::Stacks::nodes_push, std::proofs::lemmas::Grind::common_steps))]
fn step(
    alloc: Global,
    table: &FormulaTable,
    number: u32,
    names: &mut Vec<Name>,
    stack: &mut Vec<u32>,
) -> Result<(), AllocError>
    requires node { number < length table.now.nodes }
    requires nodes { AreNodes table.now stack.old.items }
    ensures letters { OnOk result (names.new.items ++ stack_letters table.now stack.new.items
        ≡ names.old.items ++ letters_of (tree_at table.now number)
        ++ stack_letters table.now stack.old.items) }
    ensures nodes { OnOk result (AreNodes table.now stack.new.items) }
    ensures size { OnOk result (stack_size table.now stack.new.items
        < stack_size table.now stack.old.items + node_size (tree_at table.now number)) }
{
    match table.node(number) {
        Node::Const(_) | Node::Fresh(_) => {}
        Node::Letter(letter) => names.push(Name::new(alloc, table.name_of(letter))?)?,
        Node::Unary(_, a) => stack.push(a)?,
        Node::Binary(_, a, b) => {
            stack.push(b)?;
            stack.push(a)?;
        }
    }
    Ok(())
}
