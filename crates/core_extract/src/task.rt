// What all tests of a core read: the formula, its nodes by their places, and how it is decided.
ghost use Rattle.std.specs.Prelude.{◌≡◌, ℕ, ◌<◌, ◌≤◌, length, slice_index_or, All, IfOk};
ghost use Rattle.ltl_syntax.specs.Formula.{HasNoFresh, nodes_in};
ghost use Rattle.ltl_syntax.specs.Table.{tree_at};
ghost use Rattle.core_extract.specs.Testing.{IsTask};

use ltl_syntax::{FormulaTable, Kind, Node, nodes_under};
use std::alloc::{AllocError, Global};

/// A formula, and how it is decided.
#[derive(Drop)]
pub struct Task<'t> {
    pub table: &'t FormulaTable,
    pub root: u32,
    pub kind: Kind,
    /// The number that was asked for; each formula's own limit in force follows from it.
    pub asked: u32,
    /// The node at each place.
    pub order: Vec<u32>,
    /// How many places the formula at each place takes, with its own.
    pub sizes: Vec<u32>,
}

impl<'t> Task<'t> {
    /// The task for the formula under a root.
    pub fn of(
        alloc: Global,
        table: &'t FormulaTable,
        root: u32,
        kind: Kind,
        asked: u32,
    ) -> Result<Task<'t>, AllocError>
        requires root { root < length table.now.nodes }
        requires given { HasNoFresh (tree_at table.now root) }
        requires asked { asked ≤ 1000 }
        ensures task { IfOk result IsTask }
        ensures table { IfOk result (λ task. task.table.now ≡ table.now) }
        ensures root { IfOk result (λ task. task.root ≡ root) }
        ensures kind { IfOk result (λ task. task.kind ≡ kind) }
        ensures asked { IfOk result (λ task. task.asked ≡ asked) }
    {
        table.invariant();
        let order = nodes_under(alloc, table, root)?;
        let by_node = node_sizes(alloc, table)?;
        let sizes = sizes_of(alloc, &order, &by_node)?;
        Ok(Task {
            table,
            root,
            kind,
            asked,
            order,
            sizes,
        })
    }
}

/// How many nodes the tree under each node has.
fn node_sizes(alloc: Global, table: &FormulaTable) -> Result<Vec<u32>, AllocError>
    ensures long { IfOk result (λ sizes. length sizes.items ≡ length table.now.nodes) }
    ensures each { IfOk result (λ sizes. (k : ℕ) → k < length table.now.nodes
        → slice_index_or sizes.items k 0 ≡ nodes_in (tree_at table.now k)) }
{
    table.invariant();
    let mut sizes = Vec::new(alloc);
    'nodes: for number in 0..table.len() {
        let size = size_of(table, number, &sizes);
        sizes.push(size)?;
    }
    Ok(sizes)
}

/// How many nodes the tree under a node has, from those of the nodes before it.
fn size_of(table: &FormulaTable, number: u32, sizes: &Vec<u32>) -> u32
    requires number { number < length table.now.nodes }
    requires long { length sizes.now.items ≡ number }
    requires each { (k : ℕ) → k < number → slice_index_or sizes.now.items k 0
        ≡ nodes_in (tree_at table.now k) }
    ensures { result ≡ nodes_in (tree_at table.now number) }
{
    table.invariant();
    match table.node(number) {
        Node::Const(_) => 1,
        Node::Letter(_) => 1,
        Node::Fresh(_) => 1,
        Node::Unary(_, a) => sizes[a as usize] + 1,
        Node::Binary(_, a, b) => sizes[a as usize] + sizes[b as usize] + 1,
    }
}

/// The sizes of these nodes.
fn sizes_of(alloc: Global, order: &Vec<u32>, by_node: &Vec<u32>) -> Result<Vec<u32>, AllocError>
    requires { All (λ number. number < length by_node.now.items) order.now.items }
    ensures long { IfOk result (λ sizes. length sizes.items ≡ length order.now.items) }
    ensures each { IfOk result (λ sizes. (n : ℕ) → n < length order.now.items
        → slice_index_or sizes.items n 0 ≡ slice_index_or by_node.now.items
        (slice_index_or order.now.items n 0) 0) }
{
    let mut sizes = Vec::new(alloc);
    'places: for place in 0..order.len() {
        sizes.push(by_node[order[place] as usize])?;
    }
    Ok(sizes)
}
