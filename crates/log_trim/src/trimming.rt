// The lines that given lines stand on (Heule, Hunt and Wetzler: Trimming while checking clausal proofs).
// A hint names an earlier line, so one walk from the last line back marks all of them: whatever needs a
// line was visited before it. A walk forwards then keeps the marked ones, and in a table how many there
// were up to each line, which is the new number of a marked line.
ghost use Rattle.std.specs.Prelude.{◌≡◌, ℕ, ◌<◌, ◌≤◌, ◌+◌, ◌*◌, [], length, map, slice_index_or, IfOk, OnOk};
ghost use Rattle.std.specs.Prelude.{Contains};
ghost use Rattle.cnf_base.specs.declared.literal.Hint.TheVariants.{Line};
ghost use Rattle.clause_log.specs.LogValue.{hints_at};
ghost use Rattle.log_trim.specs.Kept.{Marks, IsClosed, AreNumbers, AreKept, renumbered};
ghost use Rattle.log_trim.specs.Marking.{marked, AddsHints, AreTheNeeded, AreLines};
ghost use Rattle.log_trim.specs.Trimmed.{IsTrimmed};

use cnf_base::{Hint, Literal, Rows};
use derivation::{Derivation, NamedLog};
use std::alloc::{AllocError, Global};

/// The marked lines so far, with their hints, and for each line so far how many there were up to it.
#[derive(Drop)]
struct KeptLines {
    lines: Rows<Literal>,
    hints: Rows<Hint>,
    table: Vec<u64>,
}

/// Marks the lines that the hints of a line name.
fn mark_hints(log: &NamedLog, line: u64, flags: &mut Vec<bool>)
    requires from_one { 1 ≤ line }
    requires in_list { line ≤ length log.now.lines }
    requires lines { (m : ℕ) → Contains (hints_at log.now.hints line) (Line m)
        → (0 < m) × (m ≤ length flags.old.items) }
    ensures adds { AddsHints (marked flags.old.items) (marked flags.new.items) (hints_at log.now.hints line)
        (length (hints_at log.now.hints line)) }
    ensures long { length flags.new.items ≡ length flags.old.items }
{
    'hints: for place in 0..log.hints(line) {
        match log.hint(line, place) {
            Hint::Clause(_) => {}
            Hint::Line(earlier) => {
                let index = (earlier - 1) as usize;
                flags[index] = true;
            }
        }
    }
}

/// A mark for each line that is needed.
fn needed(alloc: Global, log: &NamedLog, targets: &[u64]) -> Result<Vec<bool>, AllocError>
    requires targets { AreLines log.now targets.now }
    ensures long { IfOk result (λ flags. length flags.items ≡ length log.now.lines) }
    ensures closed { IfOk result (λ flags. IsClosed log.now (marked flags.items)) }
    ensures needed { IfOk result (λ flags. AreTheNeeded log.now targets.now (marked flags.items)) }
{
    log.invariant();
    let count = log.lines() as usize;
    let mut flags = vec![in alloc; false; count]?;
    'targets: for target in targets {
        let index = (*target - 1) as usize;
        flags[index] = true;
    }
    let mut left = count;
    'lines: while left > 0 {
        let last = left - 1;
        if flags[last] {
            mark_hints(log, left as u64, &mut flags);
        }
        left = last;
    }
    Ok(flags)
}

/// The hints of a line, which name lines by their new numbers.
fn renumber(
    alloc: Global,
    log: &NamedLog,
    flags: &Vec<bool>,
    index: u64,
    table: &Vec<u64>,
) -> Result<Vec<Hint>, AllocError>
    requires line { index < length log.now.lines }
    requires table { AreNumbers (marked flags.now.items) log.now.lines index table.now.items }
    ensures { IfOk result (λ new. new.items
        ≡ map (renumbered (marked flags.now.items) log.now.lines) (slice_index_or log.now.hints index [])) }
{
    log.invariant();
    let line = index + 1;
    let mut new = Vec::new(alloc);
    'hints: for place in 0..log.hints(line) {
        match log.hint(line, place) {
            Hint::Clause(number) => new.push(Hint::Clause(number))?,
            Hint::Line(earlier) => {
                let place = (earlier - 1) as usize;
                new.push(Hint::Line(table[place]))?;
            }
        }
    }
    Ok(new)
}

/// Puts a line behind the kept ones, where it is marked, and its new number into the table.
fn keep_line(
    alloc: Global,
    log: &NamedLog,
    flags: &Vec<bool>,
    index: u64,
    kept: &mut KeptLines,
) -> Result<(), AllocError>
    requires long { length flags.now.items ≡ length log.now.lines }
    requires line { index < length log.now.lines }
    requires kept { AreKept (marked flags.now.items) log.now index
        kept.old.lines kept.old.hints kept.old.table.items }
    ensures { OnOk result
        (AreKept (marked flags.now.items) log.now (index + 1) kept.new.lines kept.new.hints
        kept.new.table.items) }
{
    log.invariant();
    if flags[index as usize] {
        let hints = renumber(alloc, log, flags, index, &kept.table)?;
        kept.lines.push(log.literals(index + 1))?;
        kept.hints.push(&hints)?;
    }
    kept.table.push(kept.lines.len() as u64)?;
    Ok(())
}

/// The marked lines, in their order.
fn keep_lines(alloc: Global, log: &NamedLog, flags: &Vec<bool>) -> Result<KeptLines, AllocError>
    requires long { length flags.now.items ≡ length log.now.lines }
    ensures { IfOk result (λ kept. AreKept (marked flags.now.items) log.now (length log.now.lines)
        kept.lines kept.hints kept.table.items) }
{
    let mut kept = KeptLines {
        lines: Rows::new(alloc),
        hints: Rows::new(alloc),
        table: Vec::new(alloc),
    };
    'lines: for index in 0..log.lines() {
        keep_line(alloc, log, flags, index, &mut kept)?;
    }
    Ok(kept)
}

/// Just the lines that the targets stand on, and the targets' new numbers. A target stands on itself and on
/// whatever a hint of such a line names. The lines keep their order and their literals; hints name them by
/// their new numbers, which run from 1, and clauses of the list as before.
pub fn trim(
    alloc: Global,
    log: NamedLog,
    targets: &[u64],
) -> Result<(Derivation, Vec<u64>), AllocError>
    requires { AreLines log targets.now }
    ensures { IfOk result (λ r. (M : Marks) × IsTrimmed log targets.now r.0 r.1.items M) }
{
    log.invariant();
    let flags = needed(alloc, &log, targets)?;
    let kept = keep_lines(alloc, &log, &flags)?;
    let mut numbers = Vec::new(alloc);
    'targets: for target in targets {
        let place = (*target - 1) as usize;
        numbers.push(kept.table[place])?;
    }
    Ok((Derivation::of(kept.lines, kept.hints), numbers))
}
