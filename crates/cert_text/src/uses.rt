// Up to where each line is used.
ghost use Rattle.std.specs.Prelude.{◌≡◌, ◌∷◌, [], length, IfOk};
ghost use Rattle.cert_text.specs.Writing.{IsNoted, AreLast};

use cnf_base::Hint;
use derivation::Derivation;
use std::alloc::{AllocError, Global};

fn note_use(last: &mut Vec<u64>, hint: Hint, line: u64)
    ensures { IsNoted (hint ∷ []) line last.old.items last.new.items }
{
    if let Hint::Line(number) = hint {
        if number > 0 && number <= last.len() as u64 {
            last[(number - 1) as usize] = line;
        }
    }
}

fn note_uses(last: &mut Vec<u64>, hints: &[Hint], line: u64)
    ensures { IsNoted hints.now line last.old.items last.new.items }
{
    for hint in hints {
        note_use(last, *hint, line);
    }
}

/// The last use of each line: the last line that has it as a hint, or the line itself.
pub fn last_uses(alloc: Global, derivation: &Derivation) -> Result<Vec<u64>, AllocError>
    requires { length derivation.now.hints ≡ length derivation.now.lines }
    ensures { IfOk result (λ last. AreLast derivation.now.hints (length derivation.now.lines) last.items) }
{
    let mut last = Vec::with_capacity(alloc, derivation.lines() as usize)?;
    for index in 0..derivation.lines() {
        last.push(index + 1)?;
    }
    for index in 0..derivation.lines() {
        note_uses(&mut last, derivation.hints(index + 1), index + 1);
    }
    Ok(last)
}
