// One formula of a monitor.
ghost use Rattle.std.specs.Prelude.{◌≡◌, ◌<◌, [], ◌↔◌, length, IfOk, IsTrue};
ghost use Rattle.ltl_syntax.specs.Size.{HasOrder, IsInOrder};
ghost use Rattle.ltl_syntax.specs.Roots.{HasChildrenBelow};
ghost use Rattle.past_monitor.specs.Ring.{taken};
ghost use Rattle.past_monitor.specs.Past.{IsPast₁, IsPast₂};
ghost use Rattle.past_monitor.specs.Part.{ring_of, ring₁, value₁, value₂, IsValue, joining, IsPastNode};
ghost use Rattle.past_monitor.specs.Part.{IsNamed, HasName};

use crate::ring::Ring;
use ltl_syntax::{BinaryOp, FormulaTable, Node, UnaryOp};
use ltl_word::{Name, StateSet};
use std::alloc::{AllocError, Global};

/// A formula, as its node over the places of its children, with what is kept for it. A letter has its name,
/// any other formula the empty one.
#[derive(Drop)]
pub struct Part {
    pub node: Node,
    pub name: Name,
    pub kept: Ring,
}

impl Part {
    /// The part of a node for which nothing is kept yet.
    pub fn new(alloc: Global, table: &FormulaTable, node: Node) -> Result<Part, AllocError>
        requires letter { HasName (length table.now.names) node }
        requires ordered { HasOrder node }
        ensures node { IfOk result (λ p. p.node ≡ node) }
        ensures named { IfOk result (λ p. IsNamed table.now.names node p.name) }
        ensures ring { IfOk result (λ p. p.kept ≡ ring_of node []) }
    {
        Ok(Part {
            node,
            name: letter_name(alloc, table, node)?,
            kept: new_ring(alloc, node)?,
        })
    }

    /// The value at a state of which the children have theirs, which then is behind.
    pub fn take(&mut self, state: &StateSet, values: &[bool]) -> bool
        requires { HasChildrenBelow (length values.now) self.old.node }
        ensures value { IsValue state.now values.now self.old.node self.old.name self.old.kept result }
        ensures kept { self.new
            ≡ record self.old { kept = taken self.old.kept (joining values.now self.old.node result) } }
    {
        let value = self.value(state, values);
        self.kept.take(joins(self.node, values, value));
        value
    }

    fn value(&self, state: &StateSet, values: &[bool]) -> bool
        requires { HasChildrenBelow (length values.now) self.now.node }
        ensures { IsValue state.now values.now self.now.node self.now.name self.now.kept result }
    {
        match self.node {
            Node::Const(value) => value,
            Node::Letter(_) | Node::Fresh(_) => state.has(self.name.text()),
            Node::Unary(op, a) => unary_value(op, &self.kept, values[a as usize]),
            Node::Binary(op, a, b) => {
                binary_value(op, &self.kept, values[a as usize], values[b as usize])
            }
        }
    }
}

/// Whether the node's operator looks at no position behind its own.
pub fn is_past(node: Node) -> bool
    ensures { IsTrue result ↔ IsPastNode node }
{
    match node {
        Node::Const(_) | Node::Letter(_) | Node::Fresh(_) => true,
        Node::Unary(op, _) => is_past_unary(op),
        Node::Binary(op, _, _) => is_past_binary(op),
    }
}

fn is_past_unary(op: UnaryOp) -> bool
    ensures { IsTrue result ↔ IsPast₁ op }
{
    match op {
        UnaryOp::Next
        | UnaryOp::WeakNext
        | UnaryOp::Eventually
        | UnaryOp::Always
        | UnaryOp::NextTimes(_)
        | UnaryOp::EventuallyIn(_, _)
        | UnaryOp::AlwaysIn(_, _) => false,
        _ => true,
    }
}

fn is_past_binary(op: BinaryOp) -> bool
    ensures { IsTrue result ↔ IsPast₂ op }
{
    match op {
        BinaryOp::Until | BinaryOp::Release | BinaryOp::WeakUntil | BinaryOp::StrongRelease =>
            false,
        _ => true,
    }
}

fn letter_name(alloc: Global, table: &FormulaTable, node: Node) -> Result<Name, AllocError>
    requires { HasName (length table.now.names) node }
    ensures { IfOk result (λ name. IsNamed table.now.names node name) }
{
    match node {
        Node::Letter(letter) => Name::new(alloc, table.name_of(letter)),
        Node::Fresh(number) => {
            let text = format!(in alloc; "{{{number}}}")?;
            Name::new(alloc, &text)
        }
        _ => Name::new(alloc, ""),
    }
}

fn new_ring(alloc: Global, node: Node) -> Result<Ring, AllocError>
    requires { HasOrder node }
    ensures { IfOk result (λ r. r ≡ ring_of node []) }
{
    match node {
        Node::Unary(op, _) => unary_ring(alloc, op),
        Node::Binary(BinaryOp::Since, _, _) => Ring::new(alloc, 1, 0, true),
        Node::Binary(BinaryOp::Trigger, _, _) => Ring::new(alloc, 1, 0, false),
        _ => Ring::new(alloc, 0, 0, true),
    }
}

// Before the first position a weak operator and one over all positions find no false value, and the other
// ones no true value.
fn unary_ring(alloc: Global, op: UnaryOp) -> Result<Ring, AllocError>
    requires { IsInOrder op }
    ensures { IfOk result (λ r. r ≡ ring₁ op []) }
{
    match op {
        UnaryOp::Yesterday | UnaryOp::Once => Ring::new(alloc, 1, 0, true),
        UnaryOp::WeakYesterday | UnaryOp::Historically => Ring::new(alloc, 1, 0, false),
        UnaryOp::YesterdayTimes(n) => Ring::new(alloc, n, 0, true),
        UnaryOp::OnceIn(first, last) => Ring::new(alloc, last, first, true),
        UnaryOp::HistoricallyIn(first, last) => Ring::new(alloc, last, first, false),
        _ => Ring::new(alloc, 0, 0, true),
    }
}

fn unary_value(op: UnaryOp, kept: &Ring, a: bool) -> bool
    ensures { result ≡ value₁ op kept.now a }
{
    match op {
        UnaryOp::Not => !a,
        UnaryOp::Yesterday | UnaryOp::WeakYesterday => kept.back(1, a),
        UnaryOp::Once => a || kept.back(1, a),
        UnaryOp::Historically => a && kept.back(1, a),
        UnaryOp::YesterdayTimes(n) => kept.back(n as usize, a),
        UnaryOp::OnceIn(_, _) => kept.shows(a),
        UnaryOp::HistoricallyIn(_, _) => !kept.shows(a),
        // No monitor has an operator that looks ahead.
        _ => false,
    }
}

fn binary_value(op: BinaryOp, kept: &Ring, a: bool, b: bool) -> bool
    ensures { result ≡ value₂ op kept.now a b }
{
    match op {
        BinaryOp::And => a && b,
        BinaryOp::Or => a || b,
        BinaryOp::Implies => !a || b,
        BinaryOp::Iff => a == b,
        BinaryOp::Since => b || (a && kept.back(1, a)),
        BinaryOp::Trigger => b && (a || kept.back(1, a)),
        // No monitor has an operator that looks ahead.
        _ => false,
    }
}

// Which value joins the ring: the operand's where an operator looks back a number of positions, else its own.
fn joins(node: Node, values: &[bool], value: bool) -> bool
    requires { HasChildrenBelow (length values.now) node }
    ensures { result ≡ joining values.now node value }
{
    match node {
        Node::Unary(
            UnaryOp::Yesterday
            | UnaryOp::WeakYesterday
            | UnaryOp::YesterdayTimes(_)
            | UnaryOp::OnceIn(_, _)
            | UnaryOp::HistoricallyIn(_, _),
            a,
        ) => values[a as usize],
        _ => value,
    }
}
