// The forms of a system's parts: a start has no temporal operator, and a step none but X, and no X under an
// X.
//
// One walk over the table, children before parents, finds the forms of each node's tree from those of its
// children.
ghost use Rattle.std.specs.Prelude.{◌≡◌, ℕ, ◌+◌, ◌<◌, length, slice_get, Some, IfOk};
ghost use Rattle.ltl_syntax.specs.Formula.{Formula, Unary, Binary};
ghost use Rattle.ltl_syntax.specs.Table.{tree_at};
ghost use Rattle.system_check.specs.TwoStates.{HasForms};

use ltl_syntax::{BinaryOp, FormulaTable, Node, UnaryOp};
use std::alloc::{AllocError, Global};

/// Which forms a formula has. One with the form of a start has that of a step as well.
#[derive(Clone, Copy)]
pub struct Forms {
    pub start: bool,
    pub step: bool,
}

/// The forms of the formula under a node.
pub fn forms_of(alloc: Global, table: &FormulaTable, root: u32) -> Result<Forms, AllocError>
    requires { root < length table.now.nodes }
    ensures { IfOk result (HasForms (tree_at table.now root)) }
{
    let _count = table.len();
    let mut forms = Vec::new(alloc);
    'nodes: for number in 0..root + 1 {
        let here = node_forms(table, number, &forms);
        forms.push(here)?;
    }
    Ok(forms[root as usize])
}

/// The forms of a node's tree, where those of the nodes below are known.
fn node_forms(table: &FormulaTable, number: u32, forms: &Vec<Forms>) -> Forms
    requires there { number < length table.now.nodes }
    requires count { length forms.now.items ≡ number }
    requires each { (i : ℕ) (w : Forms) → slice_get forms.now.items i ≡ Some w
        → HasForms (tree_at table.now i) w }
    ensures { HasForms (tree_at table.now number) result }
{
    match table.node(number) {
        Node::Const(_) | Node::Letter(_) | Node::Fresh(_) => Forms {
            start: true,
            step: true,
        },
        Node::Unary(op, a) => unary_forms(op, forms[a as usize]),
        Node::Binary(op, a, b) => binary_forms(op, forms[a as usize], forms[b as usize]),
    }
}

fn unary_forms(op: UnaryOp, a: Forms) -> Forms
    ensures { (f : Formula) → HasForms f a → HasForms (Unary op f) result }
{
    match op {
        UnaryOp::Not => a,
        UnaryOp::Next => Forms {
            start: false,
            step: a.start,
        },
        _ => Forms {
            start: false,
            step: false,
        },
    }
}

fn binary_forms(op: BinaryOp, a: Forms, b: Forms) -> Forms
    ensures { (f g : Formula) → HasForms f a → HasForms g b → HasForms (Binary op f g) result }
{
    match op {
        BinaryOp::And | BinaryOp::Or | BinaryOp::Implies | BinaryOp::Iff => Forms {
            start: a.start && b.start,
            step: a.step && b.step,
        },
        _ => Forms {
            start: false,
            step: false,
        },
    }
}
