// The tree under a root, copied behind the nodes of another table, children before parents.
ghost use Rattle.std.specs.Prelude.{◌≡◌, ◌+◌, ◌<◌, ◌≤◌, length, IfOk, OnOk};
ghost use Rattle.ltl_syntax.specs.Table.{MayFollow, IsFine, Pushes};
ghost use Rattle.ltl_syntax.specs.Size.{sizes, node_size, HasOrder};
ghost use Rattle.formula_copy.specs.Part.{IsPart};
ghost use Rattle.formula_copy.specs.Copy.{numbers_in, IsMoved, IsCopyOfNode, StandsOnRoots, IsCopyOf};
ghost use Rattle.formula_copy.specs.Copy.{HasGrown};

use crate::parts::TablePart;
use ltl_syntax::{FormulaTable, Node};
use std::alloc::{AllocError, Global};

/// Puts a node behind the others, where there is room for it.
pub fn put(table: &mut FormulaTable, node: Node) -> Result<u32, AllocError>
    requires may { MayFollow table.old node }
    requires room { sizes table.old.nodes + node_size node ≤ 16384 }
    ensures number { IfOk result (λ number. number ≡ length table.old.nodes) }
    ensures pushes { OnOk result (Pushes table.old node table.new) }
{
    match table.push(node) {
        Ok(number) => Ok(number),
        Err(_) => Err(AllocError),
    }
}

/// The node over the new numbers of its children. A letter keeps its name.
fn renumbered(
    source: &FormulaTable,
    node: Node,
    numbers: &Vec<u32>,
    target: &mut FormulaTable,
) -> Result<Node, AllocError>
    requires fine { IsFine (length source.now.names) (length numbers.now.items) node }
    requires names { length target.old.names ≤ 16384 }
    ensures { IfOk result (λ copy. IsMoved source.now (numbers_in numbers.now.items) node target.old
        target.new copy) }
{
    match node {
        Node::Letter(letter) => {
            let number = target.name(source.name_of(letter))?;
            Ok(Node::Letter(number))
        }
        Node::Unary(op, a) => Ok(Node::Unary(op, numbers[a as usize])),
        Node::Binary(op, a, b) => Ok(Node::Binary(op, numbers[a as usize], numbers[b as usize])),
        Node::Const(value) => Ok(Node::Const(value)),
        Node::Fresh(number) => Ok(Node::Fresh(number)),
    }
}

/// Puts a copy of the node behind the others, on top of the copies of its children.
fn copy_node(
    source: &FormulaTable,
    node: Node,
    numbers: &Vec<u32>,
    target: &mut FormulaTable,
) -> Result<u32, AllocError>
    requires fine { IsFine (length source.now.names) (length numbers.now.items) node }
    requires ordered { HasOrder node }
    requires roots { StandsOnRoots target.old (numbers_in numbers.now.items) node }
    requires room { sizes target.old.nodes + node_size node ≤ 16384 }
    requires names { length target.old.names ≤ length target.old.nodes }
    ensures copied { IfOk result (IsCopyOfNode source.now
        (numbers_in numbers.now.items) node target.old target.new) }
    ensures grown { OnOk result (HasGrown target.old target.new (node_size node)) }
{
    let _count = target.len();
    let copy = renumbered(source, node, numbers, target)?;
    put(target, copy)
}

/// Copies the part's tree behind the nodes of the table, and answers the number of its root there.
pub fn copy(
    alloc: Global,
    part: &TablePart<'_>,
    target: &mut FormulaTable,
) -> Result<u32, AllocError>
    requires part { IsPart part.now.table.now part.now.root part.now }
    requires room { sizes target.old.nodes + part.now.size ≤ 16384 }
    requires names { length target.old.names ≤ length target.old.nodes }
    ensures copied { IfOk result (IsCopyOf part.now.table.now part.now.root target.old target.new) }
    ensures grown { OnOk result (HasGrown target.old target.new part.now.size) }
{
    part.table.invariant();
    let mut numbers = Vec::new(alloc);
    'nodes: for number in 0..part.root + 1 {
        let copied = if part.marks[number as usize] {
            copy_node(part.table, part.table.node(number), &numbers, target)?
        } else {
            0
        };
        numbers.push(copied)?;
    }
    Ok(numbers[part.root as usize])
}
