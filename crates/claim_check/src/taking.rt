// Lines are judged one after another, each over the lines before it.
ghost use Rattle.std.specs.Prelude.{◌≡◌, ◌++◌, None, length, IfOk};
ghost use Rattle.cnf_base.specs.Known.{AreKnown};
ghost use Rattle.log_checker.specs.Values.{letters_in};
ghost use Rattle.claims.specs.Certificate.{clauses_of};
ghost use Rattle.claim_check.specs.Data.{lines_in, IsGoodStep};
ghost use Rattle.claim_check.specs.Bases.{IsFound};

use crate::certificate::HintedLines;
use crate::judging::is_step;
use cnf_base::{ClauseList, Clauses};
use log_checker::Assignment;
use std::alloc::AllocError;

/// Puts the lines behind the earlier ones, up to the first that is no hinted step, and answers with its
/// number.
pub fn take_lines(
    assignment: &mut Assignment,
    clauses: &ClauseList,
    hinted: &HintedLines,
    lines: &mut ClauseList,
) -> Result<Option<u64>, AllocError>
    requires clauses { AreKnown (letters_in assignment.old) clauses.now }
    requires lines { AreKnown (letters_in assignment.old) lines.old }
    ensures judged { IfOk result (λ bad. IsFound (IsGoodStep clauses.now lines.old
        (letters_in assignment.old) (lines_in hinted.now)) (length (lines_in hinted.now)) bad) }
    ensures taken { IfOk result (λ bad. bad ≡ None →
        lines.new ≡ lines.old ++ clauses_of (lines_in hinted.now)) }
    ensures known { IfOk result (λ bad. AreKnown (letters_in assignment.old) lines.new) }
    ensures size { length assignment.new ≡ length assignment.old }
{
    'lines: for k in 0..hinted.literals.count() {
        let _length = hinted.literals.len(k + 1);
        let literals = hinted.literals.clause(k + 1);
        let hints = hinted.hints_at(k as usize);
        if !is_step(assignment, clauses, lines, literals, hints) {
            return Ok(Some(k + 1));
        }
        lines.push(literals)?;
    }
    Ok(None)
}
