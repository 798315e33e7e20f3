// The row of the formula without past operators, node by node.
//
// A node comes behind its operands, and by then their residues stand at the end of a row, each from
// a start that is noted. A past operator says its axioms of them, on a row of their own, and its
// new name takes their place. So a residue is copied only into the axioms that need it, and no node
// is walked twice.
ghost use Rattle.std.specs.Prelude.{◌≡◌, ℕ, ◌+◌, ◌<◌, ◌≤◌, ◌^◌, ◌∷◌, ◌++◌, [], List, length, IfOk, OnOk};
ghost use Rattle.ltl_syntax.specs.declared.node.BinaryOp.TheVariants as two;
ghost use Rattle.ltl_syntax.specs.Formula.{Formula, Unary, Binary};
ghost use Rattle.ltl_syntax.specs.Size.{IsInOrder};
ghost use Rattle.ltl_syntax.specs.Table.{Table, IsFine, tree_at, trees_of, made};
ghost use Rattle.depast.specs.Depast.{taken, taken₁, taken₂};
ghost use Rattle.depast.specs.Symbols.{Letters, Writes};
ghost use Rattle.depast.specs.Postorder.{operands};
ghost use Rattle.depast.specs.Writing.{IsDoneBy, MeansNames, HasOne, HasTwo, MayCome, IsLeaf, trees_at};

use crate::axiom_row::{put_axioms, put_since, put_trigger};
use crate::postorder::postorder;
use crate::residue_row::{put_name, put_residue};
use crate::stack::Stack;
use crate::symbol::Symbol;
use ltl_syntax::{BinaryOp, FormulaTable, Node, UnaryOp};
use std::alloc::{AllocError, Global};

/// What is written of the nodes so far.
#[derive(Drop)]
pub struct Writer {
    /// The residues of the formulas that wait for their operator, one behind the other.
    pub row: Vec<Symbol>,
    /// Where each of them begins, the last on top.
    pub starts: Stack<usize>,
    /// The axioms, each joined to what stands before it.
    pub axioms: Vec<Symbol>,
    /// The number of the next name.
    pub next: u32,
}

/// Writes the formula under a root.
pub fn written(alloc: Global, table: &FormulaTable, root: u32) -> Result<Writer, AllocError>
    requires root { root < length table.now.nodes }
    requires few { taken (tree_at table.now root) ≤ 16384 }
    ensures { IfOk result (λ w. (l : Letters) → MeansNames l table.now
        → IsDoneBy l (tree_at table.now root ∷ []) w) }
{
    let mut order = postorder(alloc, table, root)?;
    let mut writer = Writer::new(alloc);
    while let Some(number) = order.pop() {
        writer.node(table.node(number))?;
    }
    Ok(writer)
}

impl Writer {
    fn new(alloc: Global) -> Writer
        ensures { (l : Letters) → IsDoneBy l [] result }
    {
        Writer {
            row: Vec::new(alloc),
            starts: Stack::new(alloc),
            axioms: Vec::new(alloc),
            next: 0,
        }
    }

    fn node(&mut self, node: Node) -> Result<(), AllocError>
        requires { MayCome node self.old }
        ensures { OnOk result ((l : Letters) (t : Table) (number : ℕ) (fs : List Formula) → MeansNames l t
            → IsFine (length t.names) number node
            → IsDoneBy l (trees_at t (operands node) ++ fs) self.old
            → IsDoneBy l (made t.names (trees_of t) node ∷ fs) self.new) }
    {
        match node {
            Node::Const(value) => self.leaf(Symbol::Const(value)),
            Node::Letter(letter) => self.leaf(Symbol::Old(letter)),
            Node::Fresh(letter) => self.leaf(Symbol::Fresh(letter)),
            Node::Unary(op, _) => self.unary(op),
            Node::Binary(op, _, _) => self.binary(op),
        }
    }

    fn leaf(&mut self, symbol: Symbol) -> Result<(), AllocError>
        ensures { OnOk result ((l : Letters) (f : Formula) (fs : List Formula) → IsLeaf f
            → Writes l (symbol ∷ []) f
            → IsDoneBy l fs self.old → IsDoneBy l (f ∷ fs) self.new) }
    {
        self.starts.push(self.row.len())?;
        self.row.push(symbol)?;
        Ok(())
    }

    fn unary(&mut self, op: UnaryOp) -> Result<(), AllocError>
        requires order { IsInOrder op }
        requires few { self.old.next + taken₁ op < 2 ^ 32 }
        requires some { HasOne self.old.starts (length self.old.row.items) }
        ensures { OnOk result ((l : Letters) (f : Formula) (fs : List Formula)
            → IsDoneBy l (f ∷ fs) self.old → IsDoneBy l (Unary op f ∷ fs) self.new) }
    {
        let Some(start) = self.starts.top() else {
            unreachable!()
        };
        put_axioms(&mut self.axioms, op, &self.row[start..], self.next)?;
        put_residue(&mut self.row, start, op, self.next)?;
        self.next += names_of(op);
        Ok(())
    }

    fn binary(&mut self, op: BinaryOp) -> Result<(), AllocError>
        requires few { self.old.next + taken₂ op < 2 ^ 32 }
        requires some { HasTwo self.old.starts (length self.old.row.items) }
        ensures { OnOk result ((l : Letters) (a b : Formula) (fs : List Formula)
            → IsDoneBy l (b ∷ a ∷ fs) self.old → IsDoneBy l (Binary op a b ∷ fs) self.new) }
    {
        match op {
            BinaryOp::Since => self.since(),
            BinaryOp::Trigger => self.trigger(),
            _ => {
                self.starts.pop();
                self.row.push(Symbol::Binary(op))?;
                Ok(())
            }
        }
    }

    fn since(&mut self) -> Result<(), AllocError>
        requires few { self.old.next + 1 < 2 ^ 32 }
        requires some { HasTwo self.old.starts (length self.old.row.items) }
        ensures { OnOk result ((l : Letters) (a b : Formula) (fs : List Formula)
            → IsDoneBy l (b ∷ a ∷ fs) self.old → IsDoneBy l (Binary two.Since a b ∷ fs) self.new) }
    {
        let Some(second) = self.starts.pop() else {
            unreachable!()
        };
        let Some(first) = self.starts.top() else {
            unreachable!()
        };
        put_since(
            &mut self.axioms,
            &self.row[first..second],
            &self.row[second..],
            self.next,
        )?;
        put_name(&mut self.row, first, self.next)?;
        self.next += 1;
        Ok(())
    }

    fn trigger(&mut self) -> Result<(), AllocError>
        requires few { self.old.next + 1 < 2 ^ 32 }
        requires some { HasTwo self.old.starts (length self.old.row.items) }
        ensures { OnOk result ((l : Letters) (a b : Formula) (fs : List Formula)
            → IsDoneBy l (b ∷ a ∷ fs) self.old → IsDoneBy l (Binary two.Trigger a b ∷ fs) self.new) }
    {
        let Some(second) = self.starts.pop() else {
            unreachable!()
        };
        let Some(first) = self.starts.top() else {
            unreachable!()
        };
        put_trigger(
            &mut self.axioms,
            &self.row[first..second],
            &self.row[second..],
            self.next,
        )?;
        put_name(&mut self.row, first, self.next)?;
        self.next += 1;
        Ok(())
    }
}

/// How many names an operator takes.
fn names_of(op: UnaryOp) -> u32
    ensures { result ≡ taken₁ op }
{
    match op {
        UnaryOp::Yesterday | UnaryOp::WeakYesterday | UnaryOp::Once | UnaryOp::Historically => 1,
        UnaryOp::YesterdayTimes(n) | UnaryOp::OnceIn(_, n) | UnaryOp::HistoricallyIn(_, n) => {
            n as u32
        }
        _ => 0,
    }
}
