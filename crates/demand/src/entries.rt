// The numbers of the entries whose values make a row.
ghost use Rattle.std.specs.Prelude.{◌≡◌, ◌++◌, length, map, filter, All, OnOk, IfOk};
ghost use Rattle.ltl_closure.specs.Closure.{nexts};
ghost use Rattle.ltl_closure.specs.Entries.{entry_at, numbers_of, IsNumber};
ghost use Rattle.enc_layout.specs.Clauses.{is_strong_next};
ghost use Rattle.demand.specs.Rows.{refused_requests};
ghost use Rattle.demand.specs.Entries.{operand_by, is_strong_by, AreRowEntries};

use ltl_closure::{Closure, Entry};
use ltl_syntax::Kind;
use std::alloc::{AllocError, Global};

/// An operand of an entry.
#[derive(Clone, Copy, Drop)]
pub enum Operand {
    /// What a request asks for.
    Argument,
    /// The right operand of an eventuality.
    Right,
    /// The request of an eventuality.
    Request,
}

/// The numbers of the entries whose values make a row, for each of its lists.
#[derive(Drop)]
pub struct RowEntries {
    pub carry: Vec<u32>,
    pub pending: Vec<u32>,
    pub fulfilled: Vec<u32>,
    pub refused: Vec<u32>,
}

/// The number of an operand; of an entry that has none such its own number.
fn operand_number(which: Operand, number: u32, entry: Entry) -> u32
    ensures { result ≡ operand_by which number entry }
{
    match which {
        Operand::Argument => match entry {
            Entry::Next { argument, .. } | Entry::Yesterday { argument, .. } => argument,
            _ => number,
        },
        Operand::Right => match entry {
            Entry::Until { right, .. } => right,
            _ => number,
        },
        Operand::Request => match entry {
            Entry::Until { request, .. } => request,
            _ => number,
        },
    }
}

/// Puts the numbers of an operand of some of the entries behind the others.
fn push_operands(
    entries: &[Entry],
    which: Operand,
    of: &[u32],
    numbers: &mut Vec<u32>,
) -> Result<(), AllocError>
    requires { All (IsNumber (length entries.now)) of.now }
    ensures { OnOk result (numbers.new.items ≡ numbers.old.items
        ++ map (λ t. operand_by which t (entry_at entries.now t)) of.now) }
{
    for number in of {
        let entry = entries[*number as usize - 1];
        numbers.push(operand_number(which, *number, entry))?;
    }
    Ok(())
}

/// The numbers of the strong ones among next requests.
fn strong(alloc: Global, closure: &Closure<'_>) -> Result<Vec<u32>, AllocError>
    ensures { IfOk result (λ numbers. numbers.items ≡ numbers_of closure.now.formula
        (filter is_strong_next (nexts closure.now.formula))) }
{
    let mut numbers = Vec::new(alloc);
    for number in closure.nexts() {
        if is_strong(closure.entry(*number)) {
            numbers.push(*number)?;
        }
    }
    Ok(numbers)
}

fn is_strong(entry: Entry) -> bool
    ensures { result ≡ is_strong_by entry }
{
    match entry {
        Entry::Next { weak, .. } => !weak,
        _ => false,
    }
}

/// The numbers of the requests that may not be true in the last state.
fn refused(alloc: Global, closure: &Closure<'_>) -> Result<Vec<u32>, AllocError>
    ensures { IfOk result (λ numbers. numbers.items ≡ numbers_of closure.now.formula
        (refused_requests closure.now.formula closure.now.kind)) }
{
    match closure.kind() {
        Kind::Infinite => closure.nexts().to_vec(alloc),
        Kind::Finite => strong(alloc, closure),
    }
}

/// The numbers of the entries whose values make the rows of a closure.
pub fn row_entries(alloc: Global, closure: &Closure<'_>) -> Result<RowEntries, AllocError>
    ensures { IfOk result (AreRowEntries closure.now.formula closure.now.kind) }
{
    let entries = closure.entries();
    let mut carry = closure.nexts().to_vec(alloc)?;
    push_operands(entries, Operand::Argument, closure.yesterdays(), &mut carry)?;
    let mut pending = Vec::new(alloc);
    push_operands(
        entries,
        Operand::Request,
        closure.eventualities(),
        &mut pending,
    )?;
    let mut fulfilled = Vec::new(alloc);
    push_operands(
        entries,
        Operand::Right,
        closure.eventualities(),
        &mut fulfilled,
    )?;
    let refused = refused(alloc, closure)?;
    Ok(RowEntries {
        carry,
        pending,
        fulfilled,
        refused,
    })
}
