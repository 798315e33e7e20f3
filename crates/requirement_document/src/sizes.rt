// How large a formula is with definitions put in, before it is put together.
ghost use Rattle.std.specs.Prelude.{◌≡◌, ◌+◌, ◌<◌, ℕ, Some, IfOk, length, slice_get};
ghost use Rattle.ltl_syntax.specs.Formula.{Letter, Name};
ghost use Rattle.ltl_syntax.specs.Table.{tree_at};
ghost use Rattle.requirement_document.specs.Inner.{defined_in, HasSize};

use crate::defining::find;
use crate::formulas::Tree;
use indexmap::IndexMap;
use ltl_syntax::{FormulaTable, Node};
use std::alloc::{AllocError, Global};

/// The size of what a letter stands for.
fn letter_size(name: &str, definitions: &IndexMap<String, Tree>) -> u64
    ensures { HasSize (defined_in definitions.now.entries) (Letter (Name name.now)) result }
{
    match find(definitions, name) {
        Some(tree) => tree.size,
        None => 1,
    }
}

/// The sum of sizes. They add up to less than 2 ^ 28, so none is refused.
fn sum(a: u64, b: u64, c: u32) -> Result<u64, AllocError>
    ensures { IfOk result (λ n. n ≡ a + b + c) }
{
    if a > 1_000_000_000 || b > 1_000_000_000 {
        return Err(AllocError);
    }
    Ok(a + b + c as u64)
}

/// The size of a node's tree, where those of the nodes below are known.
fn node_size(
    table: &FormulaTable,
    number: u32,
    sizes: &Vec<u64>,
    definitions: &IndexMap<String, Tree>,
) -> Result<u64, AllocError>
    requires there { number < length table.now.nodes }
    requires count { length sizes.now.items ≡ number }
    requires each { (i n : ℕ) → slice_get sizes.now.items i ≡ Some n
        → HasSize (defined_in definitions.now.entries) (tree_at table.now i) n }
    ensures { IfOk result (HasSize (defined_in definitions.now.entries) (tree_at table.now number)) }
{
    match table.node(number) {
        Node::Const(_) | Node::Fresh(_) => Ok(1),
        Node::Letter(letter) => Ok(letter_size(table.name_of(letter), definitions)),
        Node::Unary(op, a) => sum(sizes[a as usize], 0, op.size()),
        Node::Binary(_, a, b) => sum(sizes[a as usize], sizes[b as usize], 1),
    }
}

/// The size of the formula under a root with the definitions put in.
pub fn size_of(
    alloc: Global,
    table: &FormulaTable,
    root: u32,
    definitions: &IndexMap<String, Tree>,
) -> Result<u64, AllocError>
    requires { root < length table.now.nodes }
    ensures { IfOk result (HasSize (defined_in definitions.now.entries) (tree_at table.now root)) }
{
    let _count = table.len();
    let mut sizes = Vec::new(alloc);
    'nodes: for number in 0..root + 1 {
        let here = node_size(table, number, &sizes, definitions)?;
        sizes.push(here)?;
    }
    Ok(sizes[root as usize])
}
