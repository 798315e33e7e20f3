// The core of a conflict: what of its members it cannot do without. Occurrences are replaced by fresh
// letters, a parent before its children, where no trace satisfies the members even then.
//
// The formula that says all members is theirs joined by `&`, each to those before it. So its first places
// are the joints, one fewer than the members. They stay, and what is left is cut there into a part for each.
ghost use Rattle.std.specs.Prelude.{◌≡◌, ◌<◌, ◌≤◌, List, length, IfOk, IfSome};
ghost use Rattle.ltl_syntax.specs.Formula.{Formula};
ghost use Rattle.ltl_syntax.specs.Table.{tree_at};
ghost use Rattle.requirement_questions.specs.Formulas.{all_of};
ghost use Rattle.requirement_questions.specs.Core.{IsCoreOf};
ghost use Rattle.requirement_questions.specs.Replacing.{IsReplaced, IsJoint, ArePartsOf, and_children};

use crate::leaving::Because;
use crate::questions::Limits;
use crate::replacing::{Replaced, replaced_from};
use ltl_syntax::{BinaryOp, FormulaTable, Kind, Node};
use std::alloc::{AllocError, Global};

/// The core of a conflict: what matters of some formulas that no trace satisfies. Each formula has a part,
/// which is the formula with fresh letters in place of what the conflict does not need. No trace satisfies
/// the parts either, whatever stands in those places.
#[derive(Drop)]
pub struct Core {
    pub table: FormulaTable,
    /// The root of each formula's part in the table, in the order of the formulas. In place of each piece
    /// that was replaced stands a fresh letter of its own.
    pub parts: Vec<u32>,
}

/// What matters of members that no trace of the kind satisfies, where nothing else is asked. None where
/// nothing could be replaced, within the limits of each test.
pub fn core_of(
    alloc: Global,
    kind: Kind,
    because: &Because,
    limits: Limits,
) -> Result<Option<Box<Core>>, AllocError>
    requires { because.now.root < length because.now.table.nodes }
    ensures { IfOk result (λ core. IfSome core (λ c. (formulas : List Formula)
        → length formulas ≡ length because.now.members.items
        → tree_at because.now.table because.now.root ≡ all_of formulas → IsCoreOf kind formulas c.value)) }
{
    let count = because.members.len();
    if count == 0 {
        return Ok(None);
    }
    let replaced = replaced_from(alloc, &because.table, because.root, kind, count - 1, limits)?;
    let Some(formula) = replaced else {
        return Ok(None);
    };
    core_in(alloc, formula, count)
}

/// The parts of a formula, as many as this, of which each is joined to those before it.
fn core_in(
    alloc: Global,
    formula: Box<Replaced>,
    count: usize,
) -> Result<Option<Box<Core>>, AllocError>
    requires there { formula.value.root < length formula.value.table.nodes }
    requires some { 1 ≤ count }
    ensures { IfOk result (λ core. IfSome core (λ c. (c.value.table ≡ formula.value.table)
        × ArePartsOf c.value.table formula.value.root count c.value.parts.items)) }
{
    let found = parts_under(alloc, &formula.table, formula.root, count)?;
    let Some(parts) = found else {
        return Ok(None);
    };
    let whole = Box::into_inner(formula);
    let core = Core {
        table: whole.table,
        parts,
    };
    Ok(Some(Box::new(alloc, core)?))
}

/// The roots of the parts, in the order of the members, where there are enough joints.
fn parts_under(
    alloc: Global,
    table: &FormulaTable,
    root: u32,
    count: usize,
) -> Result<Option<Vec<u32>>, AllocError>
    requires there { root < length table.now.nodes }
    requires some { 1 ≤ count }
    ensures { IfOk result (λ parts. IfSome parts (λ p. ArePartsOf table.now root count p.items)) }
{
    let mut parts = Vec::new(alloc);
    let mut number = root;
    'joints: for _place in 1..count {
        let Some((left, right)) = joint(table, number) else {
            return Ok(None);
        };
        parts.push(right)?;
        number = left;
    }
    parts.push(number)?;
    parts.reverse();
    Ok(Some(parts))
}

/// The two formulas that a joint joins: those before, and the one behind them.
fn joint(table: &FormulaTable, number: u32) -> Option<(u32, u32)>
    requires { number < length table.now.nodes }
    ensures { IfSome result (λ r. IsJoint table.now number r.0 r.1) }
{
    and_children(table.node(number))
}

/// The children where the node is `a & b`.
fn and_children(node: Node) -> Option<(u32, u32)>
    ensures { result ≡ and_children node }
{
    match node {
        Node::Binary(BinaryOp::And, left, right) => Some((left, right)),
        _ => None,
    }
}
