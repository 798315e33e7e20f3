// A formula with definitions put in. Each node is put behind the others, on top of the new nodes of its
// children. Where a letter is defined, the tree of its definition is copied in its place, anew for each
// occurrence, since no node belongs to two trees.
ghost use Rattle.std.specs.Prelude.{◌≡◌, ◌<◌, IfOk, OnOk, Some, ℕ, length, slice_get};
ghost use Rattle.ltl_syntax.specs.Formula.{Letter, Name};
ghost use Rattle.ltl_syntax.specs.Table.{IsFine, IsPlain, tree_at, trees_of, made};
ghost use Rattle.requirement_document.specs.Substitution.{substituted};
ghost use Rattle.requirement_document.specs.Inner.{defined_in, IsAt, Keeps, put_over, trees_under};

use crate::defining::find;
use crate::formulas::Tree;
use indexmap::IndexMap;
use ltl_syntax::{FormulaTable, Node};
use std::alloc::{AllocError, Global};

/// Puts a node behind the others. The size is known to be within the limit, and no node belongs to two trees,
/// so want of memory alone refuses it.
fn put(target: &mut FormulaTable, node: Node) -> Result<u32, AllocError>
    ensures at { IfOk result (IsAt target.new (made target.old.names (trees_of target.old) node)) }
    ensures keeps { OnOk result (Keeps target.old target.new) }
{
    if !target.may_push(node) {
        return Err(AllocError);
    }
    match target.push(node) {
        Ok(number) => Ok(number),
        Err(_) => Err(AllocError),
    }
}

/// Puts a letter behind the others.
fn put_letter(target: &mut FormulaTable, name: &str) -> Result<u32, AllocError>
    requires { IsPlain name.now }
    ensures at { IfOk result (IsAt target.new (Letter (Name name.now))) }
    ensures keeps { OnOk result (Keeps target.old target.new) }
{
    if target.letters() == u32::MAX {
        return Err(AllocError);
    }
    let letter = target.name(name)?;
    put(target, Node::Letter(letter))
}

/// Puts a node of another table behind the others, on top of the new nodes of its children.
fn copy_node(
    source: &FormulaTable,
    node: Node,
    numbers: &Vec<u32>,
    target: &mut FormulaTable,
) -> Result<u32, AllocError>
    requires { IsFine (length source.now.names) (length numbers.now.items) node }
    ensures at { IfOk result (IsAt target.new
        (made source.now.names (trees_under target.old numbers.now.items) node)) }
    ensures keeps { OnOk result (Keeps target.old target.new) }
{
    match node {
        Node::Letter(letter) => put_letter(target, source.name_of(letter)),
        Node::Unary(op, a) => put(target, Node::Unary(op, numbers[a as usize])),
        Node::Binary(op, a, b) => {
            put(
                target,
                Node::Binary(op, numbers[a as usize], numbers[b as usize]),
            )
        }
        Node::Const(value) => put(target, Node::Const(value)),
        Node::Fresh(number) => put(target, Node::Fresh(number)),
    }
}

/// Copies the tree under a root behind the others.
fn copy(
    alloc: Global,
    source: &FormulaTable,
    root: u32,
    target: &mut FormulaTable,
) -> Result<u32, AllocError>
    requires { root < length source.now.nodes }
    ensures at { IfOk result (IsAt target.new (tree_at source.now root)) }
    ensures keeps { OnOk result (Keeps target.old target.new) }
{
    let _count = source.len();
    let mut numbers = Vec::new(alloc);
    'nodes: for number in 0..root + 1 {
        let copied = copy_node(source, source.node(number), &numbers, target)?;
        numbers.push(copied)?;
    }
    Ok(numbers[root as usize])
}

/// Puts what a node stands for behind the others: a defined letter stands for the tree of its definition.
fn put_node(
    alloc: Global,
    source: &FormulaTable,
    node: Node,
    numbers: &Vec<u32>,
    definitions: &IndexMap<String, Tree>,
    target: &mut FormulaTable,
) -> Result<u32, AllocError>
    requires { IsFine (length source.now.names) (length numbers.now.items) node }
    ensures at { IfOk result (IsAt target.new (put_over (defined_in definitions.now.entries)
        source.now.names (trees_under target.old numbers.now.items) node)) }
    ensures keeps { OnOk result (Keeps target.old target.new) }
{
    let Node::Letter(letter) = node else {
        return copy_node(source, node, numbers, target);
    };
    match find(definitions, source.name_of(letter)) {
        Some(tree) => copy(alloc, &tree.table, tree.root, target),
        None => copy_node(source, node, numbers, target),
    }
}

/// The formula under a root with the definitions put in: a table, and the root in it.
pub fn put_in(
    alloc: Global,
    source: &FormulaTable,
    root: u32,
    definitions: &IndexMap<String, Tree>,
    target: &mut FormulaTable,
) -> Result<u32, AllocError>
    requires { root < length source.now.nodes }
    ensures { IfOk result (IsAt target.new
        (substituted (defined_in definitions.now.entries) (tree_at source.now root))) }
{
    let _count = source.len();
    let mut numbers = Vec::new(alloc);
    'nodes: for number in 0..root + 1 {
        let node = source.node(number);
        let put = put_node(alloc, source, node, &numbers, definitions, target)?;
        numbers.push(put)?;
    }
    Ok(numbers[root as usize])
}
