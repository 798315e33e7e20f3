// The row of the residue of an operator, in place of the rows of its operands at the end of a row.
ghost use Rattle.std.specs.Prelude.{◌≡◌, suc, ◌+◌, ◌-◌, ◌<◌, ◌≤◌, ◌^◌, [], ◌∷◌, ◌++◌, Bool, List};
ghost use Rattle.std.specs.Prelude.{length, OnOk};
ghost use Rattle.ltl_syntax.specs.Size.{IsInOrder};
ghost use Rattle.ltl_syntax.specs.Formula.{Formula};
ghost use Rattle.depast.specs.declared.symbol.Symbol.{Symbol as SymbolSpec};
ghost use Rattle.depast.specs.declared.symbol.Symbol.TheVariants as symbols;
ghost use Rattle.depast.specs.Depast.{taken₁, residue₁, step_back, joined_back};
ghost use Rattle.depast.specs.Symbols.{Letters, Writes};

use crate::symbol::Symbol;
use ltl_syntax::{BinaryOp, UnaryOp};
use std::alloc::AllocError;

/// Puts the residue of an operator in place of its operand's, which begins at `start`.
pub fn put_residue(
    row: &mut Vec<Symbol>,
    start: usize,
    op: UnaryOp,
    name: u32,
) -> Result<(), AllocError>
    requires order { IsInOrder op }
    requires few { name + taken₁ op < 2 ^ 32 }
    requires within { start ≤ length row.old.items }
    ensures { OnOk result ((l : Letters) (c : Formula) (front back : List SymbolSpec)
        → row.old.items ≡ front ++ back → start ≡ length front → Writes l back c
        → (new : List SymbolSpec) × (row.new.items ≡ front ++ new)
        × Writes l new (residue₁ l.new name op c)) }
{
    match op {
        UnaryOp::Yesterday | UnaryOp::WeakYesterday | UnaryOp::Once | UnaryOp::Historically =>
            put_name(row, start, name),
        UnaryOp::YesterdayTimes(n) => put_step(row, start, n, name),
        UnaryOp::OnceIn(first, last) => put_range(row, start, BinaryOp::Or, first, last, name),
        UnaryOp::HistoricallyIn(first, last) => {
            put_range(row, start, BinaryOp::And, first, last, name)
        }
        _ => Ok(row.push(Symbol::Unary(op))?),
    }
}

/// Puts a name in place of what stands from `start` on.
pub fn put_name(row: &mut Vec<Symbol>, start: usize, name: u32) -> Result<(), AllocError>
    requires { start ≤ length row.old.items }
    ensures { OnOk result ((front back : List SymbolSpec) → row.old.items ≡ front ++ back
        → start ≡ length front
        → row.new.items ≡ front ++ symbols.New name ∷ []) }
{
    row.truncate(start);
    row.push(Symbol::New(name))?;
    Ok(())
}

/// Puts the steps back from `first` to `last`, joined to the left. No step back is the operand, and
/// each other has its name.
fn put_range(
    row: &mut Vec<Symbol>,
    start: usize,
    op: BinaryOp,
    first: u8,
    last: u8,
    name: u32,
) -> Result<(), AllocError>
    requires order { first ≤ last }
    requires few { name + last < 2 ^ 32 }
    requires within { start ≤ length row.old.items }
    ensures { OnOk result ((l : Letters) (c : Formula) (none : Bool) (front back : List SymbolSpec)
        → row.old.items ≡ front ++ back → start ≡ length front → Writes l back c
        → (new : List SymbolSpec) × (row.new.items ≡ front ++ new)
        × Writes l new (joined_back op none (step_back l.new name c) first (suc last - first))) }
{
    put_step(row, start, first, name)?;
    for step in first..last {
        row.extend_from_slice(&[Symbol::New(name + step as u32), Symbol::Binary(op)])?;
    }
    Ok(())
}

/// Puts one step back.
fn put_step(row: &mut Vec<Symbol>, start: usize, step: u8, name: u32) -> Result<(), AllocError>
    requires few { name + step < 2 ^ 32 }
    requires within { start ≤ length row.old.items }
    ensures { OnOk result ((l : Letters) (c : Formula) (front back : List SymbolSpec)
        → row.old.items ≡ front ++ back → start ≡ length front → Writes l back c
        → (new : List SymbolSpec) × (row.new.items ≡ front ++ new)
        × Writes l new (step_back l.new name c step)) }
{
    if step == 0 {
        return Ok(());
    }
    put_name(row, start, name + (step as u32 - 1))
}
