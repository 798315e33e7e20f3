// The table of the formula that a row of symbols reads as, by a stack of the roots that wait for
// their operator.
ghost use Rattle.std.specs.Prelude.{◌≡◌, ◌<◌, ◌≤◌, [], ◌∷◌, List, length, IfOk, OnOk};
ghost use Rattle.ltl_syntax.specs.Formula.{Formula, Letter, Name};
ghost use Rattle.ltl_syntax.specs.Table.{MayFollow, IsPlain, IsRoot, Pushes, tree_at};
ghost use Rattle.depast.specs.Symbols.{Reads};
ghost use Rattle.depast.specs.Building.{letters_by, AreBuilt, MayPut};

use crate::names::NewNames;
use crate::stack::Stack;
use crate::symbol::Symbol;
use ltl_syntax::{FormulaTable, Node};
use std::alloc::{AllocError, Global};

/// The table and the number of its root. Letters of the row are names of the source.
pub fn build(
    alloc: Global,
    source: &FormulaTable,
    names: &NewNames,
    row: &[Symbol],
) -> Result<(FormulaTable, u32), AllocError>
    requires { (f : Formula) × Reads (letters_by source.now names.now.most) row.now [] (f ∷ []) }
    ensures tree { (f : Formula) → Reads (letters_by source.now names.now.most) row.now [] (f ∷ [])
        → IfOk result (λ built. tree_at built.0 built.1 ≡ f) }
    ensures root { IfOk result (λ built. IsRoot built.0 built.1) }
{
    let mut table = FormulaTable::new(alloc);
    let mut roots = Stack::new(alloc);
    for symbol in row {
        put(alloc, source, names, *symbol, &mut table, &mut roots)?;
    }
    let Some(root) = roots.pop() else {
        unreachable!()
    };
    Ok((table, root))
}

/// Puts a symbol over the roots that it takes.
fn put(
    alloc: Global,
    source: &FormulaTable,
    names: &NewNames,
    symbol: Symbol,
    table: &mut FormulaTable,
    roots: &mut Stack<u32>,
) -> Result<(), AllocError>
    requires may { MayPut source.now symbol table.old roots.old }
    requires few { length table.old.names ≤ length table.old.nodes }
    ensures built { OnOk result ((fs gs : List Formula) → AreBuilt table.old fs roots.old
        → Reads (letters_by source.now names.now.most) (symbol ∷ []) fs gs
        → AreBuilt table.new gs roots.new) }
    ensures few { OnOk result (length table.new.names ≤ length table.new.nodes) }
{
    match symbol {
        Symbol::Const(value) => add(table, roots, Node::Const(value)),
        Symbol::Fresh(letter) => add(table, roots, Node::Fresh(letter)),
        Symbol::Old(letter) => add_name(table, roots, source.name_of(letter)),
        Symbol::New(number) => {
            let name = names.name(alloc, number)?;
            add_name(table, roots, &name)
        }
        Symbol::Unary(op) => {
            let Some(a) = roots.pop() else { unreachable!() };
            add(table, roots, Node::Unary(op, a))
        }
        Symbol::Binary(op) => {
            let Some(b) = roots.pop() else { unreachable!() };
            let Some(a) = roots.pop() else { unreachable!() };
            add(table, roots, Node::Binary(op, a, b))
        }
    }
}

/// Adds the letter with a name.
fn add_name(table: &mut FormulaTable, roots: &mut Stack<u32>, name: &str) -> Result<(), AllocError>
    requires plain { IsPlain name.now }
    requires few { length table.old.names ≤ length table.old.nodes }
    ensures adds { OnOk result ((fs : List Formula) → AreBuilt table.old fs roots.old
        → AreBuilt table.new (Letter (Name name.now) ∷ fs) roots.new) }
    ensures few { OnOk result (length table.new.names ≤ length table.new.nodes) }
{
    // A table has at most 16,384 nodes, so that there is a number for each name.
    let _nodes = table.len();
    let letter = table.name(name)?;
    add(table, roots, Node::Letter(letter))
}

/// Adds a node over roots that are off the stack.
fn add(table: &mut FormulaTable, roots: &mut Stack<u32>, node: Node) -> Result<(), AllocError>
    requires { MayFollow table.old node }
    ensures { OnOk result (Pushes table.old node table.new
        × (roots.new ≡ length table.old.nodes ∷ roots.old)) }
{
    match table.push(node) {
        Ok(number) => roots.push(number),
        Err(_) => Err(AllocError),
    }
}
