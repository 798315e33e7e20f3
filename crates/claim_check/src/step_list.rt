// The list of a step, written over the entries of a closure: the gates at the state and at the next one, the
// links between them, what a first state has, and what a last one has. Each part is one walk over the
// entries. The gates are those of the clause list, over other letters.
ghost use Rattle.std.specs.Prelude.{◌≡◌, ◌+◌, ◌*◌, true, ◌≤◌, ◌++◌, length, All, OnOk};
ghost use Rattle.ltl_closure.specs.Entries.{IsNumber};
ghost use Rattle.enc_layout.specs.Letters.{EntryAt};
ghost use Rattle.enc_layout.specs.Clauses.{Plus};
ghost use Rattle.enc_layout.specs.Numbered.{IsInside};
ghost use Rattle.clause_index.specs.Rows.{link_rows};
ghost use Rattle.clause_index.specs.ByNumber.{entry_gate};
ghost use Rattle.claims.specs.Between.{after, width, step_list};
ghost use Rattle.claim_check.specs.Pieces.{signed_by, rows, step_of, clauses_of, part_of, root_clauses};

use clause_index::{GateLiterals, operands_of};
use cnf_base::{ClauseList, Letter, Literal};
use ltl_closure::{Closure, Entry};
use std::alloc::AllocError;

/// What is written of each entry.
#[derive(Clone, Copy, Drop)]
pub enum Piece {
    Gate,
    NextGate,
    Next,
    Yesterday,
    Start,
    Last,
}

/// The literal of an entry at the state or at the next one.
fn entry(next: bool, width: u32, number: u32) -> Literal
    requires few { width ≤ 98306 }
    requires known { IsNumber width number }
    ensures { result ≡ signed_by width (Plus (EntryAt (step_of next) number)) }
{
    let letter = if next { width + number } else { number };
    Literal {
        letter: Letter(letter),
        negated: false,
    }
}

/// The gate of an entry. A letter and a request have none.
fn push_gate(
    next: bool,
    width: u32,
    number: u32,
    of: Entry,
    out: &mut ClauseList,
) -> Result<(), AllocError>
    requires few { width ≤ 98306 }
    requires number { IsNumber width number }
    requires inside { IsInside width of }
    ensures { OnOk result (out.new ≡ out.old ++ rows width (entry_gate (step_of next) number of)) }
{
    let operands = operands_of(number, of);
    let literals = GateLiterals {
        gate: entry(next, width, number),
        left: entry(next, width, operands.left),
        right: entry(next, width, operands.right),
        request: entry(next, width, operands.request),
    };
    clause_index::push_gate(of, literals, out)
}

/// Where there is a next state, the request has the value of its argument.
fn push_link(
    width: u32,
    request: Literal,
    argument: Literal,
    out: &mut ClauseList,
) -> Result<(), AllocError>
    requires few { width ≤ 98306 }
    ensures { OnOk result (out.new ≡ out.old ++ link_rows (signed_by width (Plus after)) request argument) }
{
    let no_next = Literal {
        letter: Letter(2 * width + 1),
        negated: true,
    };
    out.push(&[no_next, request.opposite(), argument])?;
    out.push(&[no_next, request, argument.opposite()])
}

/// What the piece says of the entry of this number.
fn push_piece(
    piece: Piece,
    width: u32,
    number: u32,
    of: Entry,
    out: &mut ClauseList,
) -> Result<(), AllocError>
    requires few { width ≤ 98306 }
    requires number { IsNumber width number }
    requires inside { IsInside width of }
    ensures { OnOk result (out.new ≡ out.old ++ rows width (clauses_of piece number of)) }
{
    match piece {
        Piece::Gate => push_gate(false, width, number, of, out),
        Piece::NextGate => push_gate(true, width, number, of, out),
        Piece::Next => match of {
            Entry::Next { argument, .. } => {
                push_link(
                    width,
                    entry(false, width, number),
                    entry(true, width, argument),
                    out,
                )
            }
            _ => Ok(()),
        },
        Piece::Yesterday => match of {
            Entry::Yesterday { argument, .. } => {
                push_link(
                    width,
                    entry(true, width, number),
                    entry(false, width, argument),
                    out,
                )
            }
            _ => Ok(()),
        },
        Piece::Start => match of {
            Entry::Yesterday { weak: true, .. } => {
                out.push(&[outside(width, 2), entry(false, width, number)])
            }
            Entry::Yesterday { weak: false, .. } => {
                out.push(&[outside(width, 2), entry(false, width, number).opposite()])
            }
            _ => Ok(()),
        },
        Piece::Last => match of {
            Entry::Next { weak: false, .. } => {
                out.push(&[outside(width, 3), entry(false, width, number).opposite()])
            }
            _ => Ok(()),
        },
    }
}

/// The negation of a letter behind those of the entries.
fn outside(width: u32, place: u32) -> Literal
    requires few { width ≤ 98306 }
    requires place { place ≤ 3 }
    ensures { result ≡ (record { letter = record { 0 = 2 * width + place }; negated = true }) }
{
    Literal {
        letter: Letter(2 * width + place),
        negated: true,
    }
}

/// What the piece says of each entry, in their order.
fn push_part(piece: Piece, entries: &[Entry], out: &mut ClauseList) -> Result<(), AllocError>
    requires few { length entries.now ≤ 98306 }
    requires inside { All (IsInside (length entries.now)) entries.now }
    ensures { OnOk result (out.new ≡ out.old ++ rows (length entries.now) (part_of piece entries.now)) }
{
    let width = entries.len() as u32;
    for (k, entry) in entries.iter().enumerate() {
        push_piece(piece, width, k as u32 + 1, *entry, out)?;
    }
    Ok(())
}

/// A first state has the root.
fn push_root(closure: &Closure<'_>, out: &mut ClauseList) -> Result<(), AllocError>
    ensures { OnOk result
        (out.new ≡ out.old ++ rows (width closure.now.formula) (root_clauses closure.now.formula)) }
{
    let width = closure.entries().len() as u32;
    out.push(&[outside(width, 2), entry(false, width, closure.root())])
}

/// Puts the list of a step behind the clauses.
pub fn push_step_list(closure: &Closure<'_>, out: &mut ClauseList) -> Result<(), AllocError>
    ensures { OnOk result (out.new ≡ out.old ++ step_list closure.now.formula) }
{
    let entries = closure.entries();
    push_part(Piece::Gate, entries, out)?;
    push_part(Piece::NextGate, entries, out)?;
    push_part(Piece::Next, entries, out)?;
    push_part(Piece::Yesterday, entries, out)?;
    push_root(closure, out)?;
    push_part(Piece::Start, entries, out)?;
    push_part(Piece::Last, entries, out)?;
    Ok(())
}
