// Where the truth of what each new name stands for is read, in the order of the names.
ghost use Rattle.std.specs.Prelude.{◌≡◌, ℕ, ◌<◌, [], ◌∷◌, ◌++◌, List, length, IfOk, OnOk};
ghost use Rattle.ltl_syntax.specs.Formula.{Formula, Unary};
ghost use Rattle.ltl_syntax.specs.Table.{Table, tree_at};
ghost use Rattle.ltl_syntax.specs.Under.{IsUnder};
ghost use Rattle.depast.specs.Lifting.{counted, meanings, meanings₁};
ghost use Rattle.depast.specs.Postorder.{IsNode};
ghost use Rattle.depast.specs.Sources.{AreSources, behind, own_meanings};

use crate::postorder::postorder;
use ltl_syntax::{BinaryOp, FormulaTable, Node, UnaryOp};
use std::alloc::{AllocError, Global};

/// The formula under a node, a number of positions back. Where there is no such position, `beyond` is its
/// value.
#[derive(Clone, Copy, Debug)]
pub struct Source {
    pub node: u32,
    pub back: u32,
    pub beyond: bool,
}

/// The sources of the names of the formula under a root.
pub fn sources(alloc: Global, table: &FormulaTable, root: u32) -> Result<Vec<Source>, AllocError>
    requires { root < length table.now.nodes }
    ensures { IfOk result (λ sources. AreSources table.now root sources.items (meanings (tree_at table.now
        root))) }
{
    let mut order = postorder(alloc, table, root)?;
    let mut sources = Vec::new(alloc);
    while let Some(number) = order.pop() {
        put_sources(table.node(number), number, &mut sources)?;
    }
    Ok(sources)
}

/// Puts the sources of the names of a node's operator.
fn put_sources(node: Node, number: u32, sources: &mut Vec<Source>) -> Result<(), AllocError>
    ensures { OnOk result ((t : Table) (root : ℕ) (gs : List Formula) → IsNode t number node
        → IsUnder t root number
        → AreSources t root sources.old.items gs
        → AreSources t root sources.new.items (gs ++ own_meanings t node)) }
{
    match node {
        Node::Const(_) | Node::Letter(_) | Node::Fresh(_) => Ok(()),
        Node::Unary(op, a) => put_unary_sources(op, a, number, sources),
        Node::Binary(BinaryOp::Since, _, _) | Node::Binary(BinaryOp::Trigger, _, _) => {
            put_here(number, sources)
        }
        Node::Binary(_, _, _) => Ok(()),
    }
}

fn put_unary_sources(
    op: UnaryOp,
    a: u32,
    number: u32,
    sources: &mut Vec<Source>,
) -> Result<(), AllocError>
    ensures { OnOk result ((t : Table) (root : ℕ) (gs : List Formula)
        → tree_at t number ≡ Unary op (tree_at t a) → IsUnder t root number → IsUnder t root a
        → AreSources t root sources.old.items gs
        → AreSources t root sources.new.items (gs ++ meanings₁ op (tree_at t a))) }
{
    match op {
        UnaryOp::Yesterday | UnaryOp::WeakYesterday | UnaryOp::Once | UnaryOp::Historically =>
            put_here(number, sources),
        UnaryOp::YesterdayTimes(n) | UnaryOp::OnceIn(_, n) => put_behind(a, n, false, sources),
        UnaryOp::HistoricallyIn(_, n) => put_behind(a, n, true, sources),
        _ => Ok(()),
    }
}

/// Puts the formula itself.
fn put_here(number: u32, sources: &mut Vec<Source>) -> Result<(), AllocError>
    ensures { OnOk result ((t : Table) (root : ℕ) (gs : List Formula) → IsUnder t root number
        → AreSources t root sources.old.items gs
        → AreSources t root sources.new.items (gs ++ tree_at t number ∷ [])) }
{
    sources.push(Source {
        node: number,
        back: 0,
        beyond: false,
    })?;
    Ok(())
}

/// Puts the operand 1, 2 and so on positions back.
fn put_behind(
    operand: u32,
    count: u8,
    beyond: bool,
    sources: &mut Vec<Source>,
) -> Result<(), AllocError>
    ensures { OnOk result ((t : Table) (root : ℕ) (gs : List Formula) → IsUnder t root operand
        → AreSources t root sources.old.items gs
        → AreSources t root sources.new.items (gs ++ counted (λ m. behind beyond m (tree_at t operand))
        count)) }
{
    for step in 0..count {
        sources.push(Source {
            node: operand,
            back: step as u32 + 1,
            beyond,
        })?;
    }
    Ok(())
}
