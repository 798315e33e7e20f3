// The text of the lines of a derivation, each deleted after its last use.
ghost use Rattle.std.specs.Prelude.{◌≡◌, ℕ, ◌+◌, ◌<◌, ◌≤◌, [], ◌∷◌, ◌++◌, List, length, filter};
ghost use Rattle.std.specs.Prelude.{slice_index_or, Contains, IfOk, OnOk, if◌then◌else◌};
ghost use Rattle.std.specs.List.{flat_map};
ghost use Rattle.cnf_base.specs.declared.literal.Hint.{Hint as SomeHint};
ghost use Rattle.cnf_base.specs.declared.literal.Hint.TheVariants as hint_kinds;
ghost use Rattle.cert_text.specs.Text.{part_text, text_of};
ghost use Rattle.cert_text.specs.Text as text;
ghost use Rattle.cert_text.specs.Writing.{is_ended, named_lines, ended_at, delete_of, written, AreLast};

use crate::printing::{push_close, push_delete, push_header, push_line};
use crate::uses::last_uses;
use cnf_base::Hint;
use derivation::Derivation;
use ltl_syntax::Kind;
use std::alloc::{AllocError, Global};

/// Puts the line behind the others, where this line is its last use and it is no target.
fn push_ended(
    number: u64,
    last: &[u64],
    targets: &[u64],
    line: u64,
    found: &mut Vec<u64>,
) -> Result<(), AllocError>
    ensures { OnOk result (found.new.items ≡ found.old.items
        ++ (if is_ended last.now targets.now line number then number ∷ [] else [])) }
{
    if number > 0
        && number <= last.len() as u64
        && last[(number - 1) as usize] == line
        && !targets.contains(&number)
    {
        found.push(number)?;
    }
    Ok(())
}

/// The line that the hint names, if it names one, where this line is its last use and it is no target.
fn push_hinted(
    hint: Hint,
    last: &[u64],
    targets: &[u64],
    line: u64,
    found: &mut Vec<u64>,
) -> Result<(), AllocError>
    ensures { OnOk result (found.new.items ≡ found.old.items
        ++ filter (is_ended last.now targets.now line) (named_lines (hint ∷ []))) }
{
    match hint {
        Hint::Clause(_) => Ok(()),
        Hint::Line(number) => push_ended(number, last, targets, line, found),
    }
}

/// The lines whose last use is this one, in the order of the hints and with repeats, in place of what was
/// there.
fn ended_by(
    hints: &[Hint],
    last: &[u64],
    targets: &[u64],
    line: u64,
    found: &mut Vec<u64>,
) -> Result<(), AllocError>
    ensures { OnOk result (found.new.items ≡ filter (is_ended last.now targets.now line)
        (line ∷ named_lines hints.now)) }
{
    found.clear();
    push_ended(line, last, targets, line, found)?;
    for hint in hints {
        push_hinted(*hint, last, targets, line, found)?;
    }
    Ok(())
}

/// The lines whose last use is this one, ascending, in place of what was there.
fn ended(
    hints: &[Hint],
    last: &[u64],
    targets: &[u64],
    line: u64,
    found: &mut Vec<u64>,
) -> Result<(), AllocError>
    ensures { OnOk result ((hss : List (List SomeHint)) (k : ℕ) → AreLast hss (length hss) last.now
        → k < length hss → line ≡ k + 1 → hints.now ≡ slice_index_or hss k []
        → ((m : ℕ) → Contains hints.now (hint_kinds.Line m) → m ≤ k)
        → found.new.items ≡ ended_at hss targets.now line) }
{
    ended_by(hints, last, targets, line, found)?;
    found.sort()?;
    found.dedup();
    Ok(())
}

/// One line of the derivation, and the delete behind it. What is deleted is gathered in `found`.
fn push_step(
    derivation: &Derivation,
    last: &[u64],
    targets: &[u64],
    index: u64,
    found: &mut Vec<u64>,
    out: &mut Vec<u8>,
) -> Result<(), AllocError>
    requires last { AreLast derivation.now.hints (length derivation.now.hints) last.now }
    requires low { index < length derivation.now.lines }
    ensures { OnOk result (out.new.items ≡ out.old.items
        ++ (part_text (text.Line (slice_index_or derivation.now.lines index [])
        (slice_index_or derivation.now.hints index [])) ++ flat_map part_text
        (delete_of (ended_at derivation.now.hints targets.now (index + 1))))) }
{
    derivation.invariant();
    let line = index + 1;
    let hints = derivation.hints(line);
    push_line(derivation.literals(line), hints, out)?;
    ended(hints, last, targets, line, found)?;
    push_delete(found, out)?;
    Ok(())
}

/// Puts the certificate text, of version 2, of the lines and of the targets behind what is there. Behind each
/// line that is the last use of some lines which are no targets stands one delete that names these,
/// ascending. It is a text where the depth is at most 1,000, there are as many targets as the depth plus 2,
/// each target is a number from 1, and each letter of a line is from 1 to 16,777,216.
pub fn append(
    alloc: Global,
    kind: Kind,
    depth: u32,
    derivation: &Derivation,
    targets: &[u64],
    out: &mut Vec<u8>,
) -> Result<(), AllocError>
    ensures { OnOk result (out.new.items ≡ out.old.items ++ text_of
        (written kind depth derivation.now.lines derivation.now.hints targets.now)) }
{
    derivation.invariant();
    let last = last_uses(alloc, derivation)?;
    let mut found = Vec::new(alloc);
    push_header(kind, depth, out)?;
    for index in 0..derivation.lines() {
        push_step(derivation, &last, targets, index, &mut found, out)?;
    }
    push_close(targets, out)?;
    Ok(())
}

/// The same text alone.
pub fn write(
    alloc: Global,
    kind: Kind,
    depth: u32,
    derivation: &Derivation,
    targets: &[u64],
) -> Result<Vec<u8>, AllocError>
    ensures { IfOk result (λ whole. whole.items ≡ text_of
        (written kind depth derivation.now.lines derivation.now.hints targets.now)) }
{
    let mut whole = Vec::new(alloc);
    append(alloc, kind, depth, derivation, targets, &mut whole)?;
    Ok(whole)
}
