// The parts of a monitor: the nodes under the root, children before parents.
//
// Children stand before their parents in the table, so one walk over the marked nodes makes a part of each,
// with the places of its children among the parts.
ghost use Rattle.std.specs.Prelude.{◌≡◌, ◌+◌, ◌-◌, ◌<◌, length, IfOk, Err};
ghost use Rattle.ltl_syntax.specs.Table.{tree_at};
ghost use Rattle.ltl_syntax.specs.Under.{AreMarksUnder};
ghost use Rattle.ltl_syntax.specs.Roots.{HasChildrenBelow};
ghost use Rattle.past_monitor.specs.declared.refused.MonitorRefused.TheVariants.{Future};
ghost use Rattle.past_monitor.specs.Past.{IsPast};
ghost use Rattle.past_monitor.specs.Monitor.{AreUnder};
ghost use Rattle.past_monitor.specs.Part.{AreParts, AreFresh, IsPartOf, LooksAhead, last_of, moved};

use crate::MonitorRefused;
use crate::part::{Part, is_past};
use ltl_syntax::{FormulaTable, Node, mark_under};
use std::alloc::Global;

/// The parts of the formula under the root, which is the last one.
pub fn parts_under(
    alloc: Global,
    table: &FormulaTable,
    root: u32,
) -> Result<Vec<Part>, MonitorRefused>
    requires { root < length table.now.nodes }
    ensures parts { IfOk result (λ parts. AreParts table.now.names parts.items) }
    ensures fresh { IfOk result (λ parts. AreFresh parts.items) }
    ensures some { IfOk result (λ parts. 0 < length parts.items) }
    ensures nodes { IfOk result (λ parts. AreUnder table.now root (length parts.items)) }
    ensures formula { IfOk result (λ parts. last_of table.now.names parts.items ≡ tree_at table.now root) }
    ensures future { result ≡ Err Future → IsPast (tree_at table.now root) → ⊥ }
{
    let under = mark_under(alloc, table, root)?;
    parts_of(alloc, table, root, &under.marks)
}

// A part for each marked node.
fn parts_of(
    alloc: Global,
    table: &FormulaTable,
    root: u32,
    marks: &[bool],
) -> Result<Vec<Part>, MonitorRefused>
    requires root { root < length table.now.nodes }
    requires length { length marks.now ≡ root + 1 }
    requires marks { AreMarksUnder table.now root marks.now }
    ensures parts { IfOk result (λ parts. AreParts table.now.names parts.items) }
    ensures fresh { IfOk result (λ parts. AreFresh parts.items) }
    ensures some { IfOk result (λ parts. 0 < length parts.items) }
    ensures nodes { IfOk result (λ parts. AreUnder table.now root (length parts.items)) }
    ensures formula { IfOk result (λ parts. last_of table.now.names parts.items ≡ tree_at table.now root) }
    ensures future { result ≡ Err Future → IsPast (tree_at table.now root) → ⊥ }
{
    table.invariant();
    let mut places = Vec::with_capacity(alloc, root as usize + 1)?;
    let mut parts = Vec::new(alloc);
    for number in 0..root + 1 {
        places.push(parts.len() as u32)?;
        if marks[number as usize] {
            parts.push(part_of(alloc, table, number, &places)?)?;
        }
    }
    Ok(parts)
}

// The part of a node that does not look ahead, over the places of its children.
fn part_of(
    alloc: Global,
    table: &FormulaTable,
    number: u32,
    places: &[u32],
) -> Result<Part, MonitorRefused>
    requires there { number < length table.now.nodes }
    requires places { number < length places.now }
    ensures part { IfOk result (IsPartOf table.now places.now number) }
    ensures future { result ≡ Err Future → LooksAhead table.now number }
{
    let node = table.node(number);
    if !is_past(node) {
        return Err(MonitorRefused::Future);
    }
    Ok(Part::new(alloc, table, over_places(node, places))?)
}

// The node over the places of its children.
fn over_places(node: Node, places: &[u32]) -> Node
    requires { HasChildrenBelow (length places.now) node }
    ensures { result ≡ moved places.now node }
{
    match node {
        Node::Const(_) | Node::Letter(_) | Node::Fresh(_) => node,
        Node::Unary(op, a) => Node::Unary(op, places[a as usize]),
        Node::Binary(op, a, b) => Node::Binary(op, places[a as usize], places[b as usize]),
    }
}
