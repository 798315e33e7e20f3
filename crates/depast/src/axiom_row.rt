// The axioms of the new names of one operator, each joined to what stands before it.
ghost use Rattle.std.specs.Prelude.{◌+◌, ◌<◌, ◌^◌, ◌∷◌, List, OnOk};
ghost use Rattle.ltl_syntax.specs.declared.node.UnaryOp.TheVariants as one;
ghost use Rattle.ltl_syntax.specs.declared.node.BinaryOp.TheVariants as two;
ghost use Rattle.ltl_syntax.specs.Formula.{Formula, Unary, Binary};
ghost use Rattle.depast.specs.Depast.{taken₁, yesterday_axiom, weak_yesterday_axiom, since_axiom};
ghost use Rattle.depast.specs.Depast.{trigger_axiom, goes_on, step_back, back_axioms, axioms₁, conjoined};
ghost use Rattle.depast.specs.Symbols.{Letters, Reads, Writes};

use crate::symbol::Symbol;
use ltl_syntax::{BinaryOp, UnaryOp};
use std::alloc::AllocError;

const NOT: Symbol = Symbol::Unary(UnaryOp::Not);

const WEAK_NEXT: Symbol = Symbol::Unary(UnaryOp::WeakNext);

const ALWAYS: Symbol = Symbol::Unary(UnaryOp::Always);

const AND: Symbol = Symbol::Binary(BinaryOp::And);

const OR: Symbol = Symbol::Binary(BinaryOp::Or);

const IFF: Symbol = Symbol::Binary(BinaryOp::Iff);

/// Puts what an operator takes for its names.
pub fn put_axioms(
    axioms: &mut Vec<Symbol>,
    op: UnaryOp,
    operand: &[Symbol],
    name: u32,
) -> Result<(), AllocError>
    requires { name + taken₁ op < 2 ^ 32 }
    ensures { OnOk result ((l : Letters) (c f : Formula) (r s : List Formula) → Writes l operand.now c
        → Reads l axioms.old.items r (f ∷ s)
        → Reads l axioms.new.items r (conjoined f (axioms₁ l.new name op c) ∷ s)) }
{
    match op {
        UnaryOp::Yesterday => put_yesterday(axioms, operand, name),
        UnaryOp::WeakYesterday => put_weak_yesterday(axioms, operand, name),
        UnaryOp::Once => put_since(axioms, &[Symbol::Const(true)], operand, name),
        UnaryOp::Historically => put_trigger(axioms, &[Symbol::Const(false)], operand, name),
        UnaryOp::YesterdayTimes(n) | UnaryOp::OnceIn(_, n) => {
            put_yesterdays(axioms, operand, name, n)
        }
        UnaryOp::HistoricallyIn(_, n) => put_weak_yesterdays(axioms, operand, name, n),
        _ => Ok(()),
    }
}

/// A name for each step back, and each but the first for a step back from the one before.
fn put_yesterdays(
    axioms: &mut Vec<Symbol>,
    operand: &[Symbol],
    first: u32,
    count: u8,
) -> Result<(), AllocError>
    requires { first + count < 2 ^ 32 }
    ensures { OnOk result ((l : Letters) (c f : Formula) (r s : List Formula) → Writes l operand.now c
        → Reads l axioms.old.items r (f ∷ s)
        → Reads l axioms.new.items r (conjoined f (back_axioms yesterday_axiom l.new first c count) ∷ s)) }
{
    for step in 0..count {
        put_yesterday_at(axioms, operand, first, step)?;
    }
    Ok(())
}

fn put_yesterday_at(
    axioms: &mut Vec<Symbol>,
    operand: &[Symbol],
    first: u32,
    step: u8,
) -> Result<(), AllocError>
    requires { first + step < 2 ^ 32 }
    ensures { OnOk result ((l : Letters) (c f : Formula) (r s : List Formula) → Writes l operand.now c
        → Reads l axioms.old.items r (f ∷ s)
        → Reads l axioms.new.items r (Binary two.And f (yesterday_axiom (step_back l.new first c step)
        (l.new (first + step))) ∷ s)) }
{
    if step == 0 {
        return put_yesterday(axioms, operand, first);
    }
    let before = Symbol::New(first + (step as u32 - 1));
    put_yesterday(axioms, &[before], first + step as u32)
}

fn put_weak_yesterdays(
    axioms: &mut Vec<Symbol>,
    operand: &[Symbol],
    first: u32,
    count: u8,
) -> Result<(), AllocError>
    requires { first + count < 2 ^ 32 }
    ensures { OnOk result ((l : Letters) (c f : Formula) (r s : List Formula) → Writes l operand.now c
        → Reads l axioms.old.items r (f ∷ s)
        → Reads l axioms.new.items r (conjoined f (back_axioms weak_yesterday_axiom l.new first c count) ∷
        s)) }
{
    for step in 0..count {
        put_weak_yesterday_at(axioms, operand, first, step)?;
    }
    Ok(())
}

fn put_weak_yesterday_at(
    axioms: &mut Vec<Symbol>,
    operand: &[Symbol],
    first: u32,
    step: u8,
) -> Result<(), AllocError>
    requires { first + step < 2 ^ 32 }
    ensures { OnOk result ((l : Letters) (c f : Formula) (r s : List Formula) → Writes l operand.now c
        → Reads l axioms.old.items r (f ∷ s)
        → Reads l axioms.new.items r (Binary two.And f (weak_yesterday_axiom (step_back l.new first c
        step) (l.new (first + step))) ∷ s)) }
{
    if step == 0 {
        return put_weak_yesterday(axioms, operand, first);
    }
    let before = Symbol::New(first + (step as u32 - 1));
    put_weak_yesterday(axioms, &[before], first + step as u32)
}

fn put_yesterday(axioms: &mut Vec<Symbol>, operand: &[Symbol], name: u32) -> Result<(), AllocError>
    ensures { OnOk result ((l : Letters) (c f : Formula) (r s : List Formula) → Writes l operand.now c
        → Reads l axioms.old.items r (f ∷ s)
        → Reads l axioms.new.items r (Binary two.And f (yesterday_axiom c (l.new name)) ∷ s)) }
{
    axioms.extend_from_slice(&[Symbol::New(name), NOT])?;
    put_stepping(axioms, operand, name)
}

fn put_weak_yesterday(
    axioms: &mut Vec<Symbol>,
    operand: &[Symbol],
    name: u32,
) -> Result<(), AllocError>
    ensures { OnOk result ((l : Letters) (c f : Formula) (r s : List Formula) → Writes l operand.now c
        → Reads l axioms.old.items r (f ∷ s)
        → Reads l axioms.new.items r (Binary two.And f (weak_yesterday_axiom c (l.new name)) ∷ s)) }
{
    axioms.push(Symbol::New(name))?;
    put_stepping(axioms, operand, name)
}

/// Puts, behind how an axiom begins, that the name is true exactly one position after the operand
/// was, and joins the two.
fn put_stepping(axioms: &mut Vec<Symbol>, operand: &[Symbol], name: u32) -> Result<(), AllocError>
    ensures { OnOk result ((l : Letters) (c b f : Formula) (r s : List Formula) → Writes l operand.now c
        → Reads l axioms.old.items r (b ∷ f ∷ s)
        → Reads l axioms.new.items r (Binary two.And f (Binary two.And b (goes_on c (l.new name) (Unary
        one.Not (l.new name)))) ∷ s)) }
{
    axioms.extend_from_slice(operand)?;
    axioms.extend_from_slice(&[Symbol::New(name), WEAK_NEXT, AND])?;
    axioms.extend_from_slice(operand)?;
    axioms.extend_from_slice(&[
        NOT,
        Symbol::New(name),
        NOT,
        WEAK_NEXT,
        AND,
        OR,
        ALWAYS,
        AND,
        AND,
    ])?;
    Ok(())
}

/// Puts the axiom of the name of a `Since`.
pub fn put_since(
    axioms: &mut Vec<Symbol>,
    first: &[Symbol],
    second: &[Symbol],
    name: u32,
) -> Result<(), AllocError>
    ensures { OnOk result ((l : Letters) (c d f : Formula) (r s : List Formula) → Writes l first.now c
        → Writes l second.now d
        → Reads l axioms.old.items r (f ∷ s)
        → Reads l axioms.new.items r (Binary two.And f (since_axiom c d (l.new name)) ∷ s)) }
{
    put_same(axioms, second, name)?;
    axioms.push(Symbol::New(name))?;
    put_same_joined(axioms, BinaryOp::Or, first, second, name)?;
    put_otherwise(axioms, name)?;
    put_same(axioms, second, name)?;
    put_end(axioms)
}

/// Puts the axiom of the name of a `Trigger`.
pub fn put_trigger(
    axioms: &mut Vec<Symbol>,
    first: &[Symbol],
    second: &[Symbol],
    name: u32,
) -> Result<(), AllocError>
    ensures { OnOk result ((l : Letters) (c d f : Formula) (r s : List Formula) → Writes l first.now c
        → Writes l second.now d
        → Reads l axioms.old.items r (f ∷ s)
        → Reads l axioms.new.items r (Binary two.And f (trigger_axiom c d (l.new name)) ∷ s)) }
{
    put_same(axioms, second, name)?;
    axioms.push(Symbol::New(name))?;
    put_same(axioms, second, name)?;
    put_otherwise(axioms, name)?;
    put_same_joined(axioms, BinaryOp::And, first, second, name)?;
    put_end(axioms)
}

/// Puts that the name is true where the operand is.
fn put_same(axioms: &mut Vec<Symbol>, operand: &[Symbol], name: u32) -> Result<(), AllocError>
    ensures { OnOk result ((l : Letters) (c : Formula) (r s : List Formula) → Writes l operand.now c
        → Reads l axioms.old.items r s → Reads l axioms.new.items r (Binary two.Iff (l.new name) c ∷ s)) }
{
    axioms.push(Symbol::New(name))?;
    axioms.extend_from_slice(operand)?;
    axioms.push(IFF)?;
    Ok(())
}

/// Puts that the name is true where the second operand joined with the first is.
fn put_same_joined(
    axioms: &mut Vec<Symbol>,
    op: BinaryOp,
    first: &[Symbol],
    second: &[Symbol],
    name: u32,
) -> Result<(), AllocError>
    ensures { OnOk result ((l : Letters) (c d : Formula) (r s : List Formula) → Writes l first.now c
        → Writes l second.now d
        → Reads l axioms.old.items r s
        → Reads l axioms.new.items r (Binary two.Iff (l.new name) (Binary op d c) ∷ s)) }
{
    axioms.push(Symbol::New(name))?;
    axioms.extend_from_slice(second)?;
    axioms.extend_from_slice(first)?;
    axioms.extend_from_slice(&[Symbol::Binary(op), IFF])?;
    Ok(())
}

/// Ends what follows where the name is true, and begins what follows where it is not.
fn put_otherwise(axioms: &mut Vec<Symbol>, name: u32) -> Result<(), AllocError>
    ensures { OnOk result ((l : Letters) (a b : Formula) (r s : List Formula)
        → Reads l axioms.old.items r (b ∷ a ∷ s)
        → Reads l axioms.new.items r (Unary one.Not (l.new name) ∷ Binary two.And a (Unary one.WeakNext b)
        ∷ s)) }
{
    axioms.extend_from_slice(&[WEAK_NEXT, AND, Symbol::New(name), NOT])?;
    Ok(())
}

/// Ends an axiom of two cases, and joins it to what stands before it.
fn put_end(axioms: &mut Vec<Symbol>) -> Result<(), AllocError>
    ensures { OnOk result ((l : Letters) (a b c d f : Formula) (r s : List Formula)
        → Reads l axioms.old.items r (d ∷ c ∷ b ∷ a ∷ f ∷ s)
        → Reads l axioms.new.items r (Binary two.And f (Binary two.And a (Unary one.Always (Binary two.Or
        b (Binary two.And c (Unary one.WeakNext d))))) ∷ s)) }
{
    axioms.extend_from_slice(&[WEAK_NEXT, AND, OR, ALWAYS, AND, AND])?;
    Ok(())
}
