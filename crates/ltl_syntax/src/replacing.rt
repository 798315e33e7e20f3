// A formula with some of its occurrences replaced by fresh letters.
//
// Node numbers stay: the copy has a fresh letter in the place of each replaced node, and what was under it
// is left there as a tree that nothing uses.
ghost use Rattle.std.specs.Prelude.{◌≡◌, ◌+◌, ◌<◌, ◌≤◌, [], ◌∷◌, ◌++◌, All, length, IfOk, OnOk};
ghost use Rattle.ltl_syntax.specs.Formula.{HasNoFresh};
ghost use Rattle.ltl_syntax.specs.Table.{IsTable, MayFollow, tree_at};
ghost use Rattle.ltl_syntax.specs.Size.{sizes, node_size};
ghost use Rattle.ltl_syntax.specs.Replacement.{AreApart, rep};
ghost use Rattle.ltl_syntax.specs.Flat.{places_of};
ghost use Rattle.ltl_syntax.specs.Cutting.{AreDistinct, AreFreshOrSame, AreCut, marked_places};

use crate::marks::marked;
use crate::preorder::nodes_under;
use crate::{FormulaTable, Node};
use std::alloc::{AllocError, Global};

/// The formula under a root with a fresh letter in the place of each of these nodes. The fresh letters are
/// numbered from 0 in the order in which the text of the formula has them.
///
/// The formula has no fresh letters of its own (`has_no_fresh` tells), so each one stands for one occurrence.
/// A node that is not under the root changes nothing, nor does one that comes twice. The answer is a table
/// with the same names, and the root in it, which has the same number. It has as many nodes, so the limit on
/// nodes does not stand in the way. Takes time linear in the nodes of the table.
pub fn replace(
    alloc: Global,
    table: &FormulaTable,
    root: u32,
    places: &[u32],
) -> Result<(FormulaTable, u32), AllocError>
    requires root { root < length table.now.nodes }
    requires places { All (λ number. number < length table.now.nodes) places.now }
    requires given { HasNoFresh (tree_at table.now root) }
    requires apart { AreApart (tree_at table.now root) (places_of table.now root places.now) }
    ensures tree { IfOk result (λ r. tree_at r.0 r.1
        ≡ rep (tree_at table.now root) (places_of table.now root places.now)) }
    ensures root { IfOk result (λ r. r.1 < length r.0.nodes) }
    ensures same { IfOk result (λ r. r.1 ≡ root) }
    ensures nodes { IfOk result (λ r. length r.0.nodes ≡ length table.now.nodes) }
    ensures names { IfOk result (λ r. r.0.names ≡ table.now.names) }
{
    table.invariant();
    let order = nodes_under(alloc, table, root)?;
    let marks = marked(alloc, table.len(), places)?;
    let mut nodes = nodes_of(alloc, table)?;
    cut(&order, &marks, &mut nodes);
    let copy = assembled(alloc, table, &nodes)?;
    Ok((copy, root))
}

/// The nodes of a table.
fn nodes_of(alloc: Global, table: &FormulaTable) -> Result<Vec<Node>, AllocError>
    ensures { IfOk result (λ nodes. nodes.items ≡ table.now.nodes) }
{
    let mut nodes = Vec::new(alloc);
    'numbers: for number in 0..table.len() {
        nodes.push(table.node(number))?;
    }
    Ok(nodes)
}

/// Writes a fresh letter over each marked node, in an order of distinct nodes.
fn cut(order: &Vec<u32>, marks: &Vec<bool>, nodes: &mut Vec<Node>)
    requires within { All (λ number. number < length nodes.old.items) order.now.items }
    requires marks { length marks.now.items ≡ length nodes.old.items }
    requires distinct { AreDistinct order.now.items }
    requires few { length order.now.items ≤ 16384 }
    ensures { AreCut order.now.items (marked_places order.now.items marks.now.items)
        (length order.now.items) nodes.old.items nodes.new.items }
{
    let mut next = 0;
    'places: for place in 0..order.len() {
        let number = order[place] as usize;
        if !marks[number] {
            continue;
        }
        nodes[number] = Node::Fresh(next);
        next += 1;
    }
}

/// A table of these nodes with the names of another, whose nodes they are but for fresh letters.
fn assembled(
    alloc: Global,
    table: &FormulaTable,
    nodes: &Vec<Node>,
) -> Result<FormulaTable, AllocError>
    requires { AreFreshOrSame table.now.nodes nodes.now.items }
    ensures nodes { IfOk result (λ copy. copy.nodes ≡ nodes.now.items) }
    ensures names { IfOk result (λ copy. copy.names ≡ table.now.names) }
    ensures table { IfOk result (λ copy. IsTable copy.nodes copy.names) }
{
    table.invariant();
    let mut copy = named(alloc, table)?;
    'nodes: for index in 0..nodes.len() {
        add(&mut copy, nodes[index])?;
    }
    copy.invariant();
    Ok(copy)
}

/// A table without nodes that has the names of another.
fn named(alloc: Global, table: &FormulaTable) -> Result<FormulaTable, AllocError>
    ensures nodes { IfOk result (λ copy. copy.nodes ≡ []) }
    ensures names { IfOk result (λ copy. copy.names ≡ table.now.names) }
{
    let mut copy = FormulaTable::new(alloc);
    'letters: for letter in 0..table.letters() {
        copy.name(table.name_of(letter))?;
    }
    Ok(copy)
}

/// Puts a node behind the others where there is room for it, so that want of memory alone refuses it.
fn add(table: &mut FormulaTable, node: Node) -> Result<(), AllocError>
    requires follow { MayFollow table.old node }
    requires room { sizes table.old.nodes + node_size node ≤ 16384 }
    ensures nodes { OnOk result (table.new.nodes ≡ table.old.nodes ++ node ∷ []) }
    ensures names { OnOk result (table.new.names ≡ table.old.names) }
{
    match table.push(node) {
        Ok(_) => Ok(()),
        Err(_) => Err(AllocError),
    }
}
