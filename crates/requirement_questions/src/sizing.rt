// How large the formula is that says all of a question.
ghost use Rattle.std.specs.Prelude.{◌≡◌, ◌≤◌, length, IfOk};
ghost use Rattle.ltl_syntax.specs.Size.{formula_size};
ghost use Rattle.requirement_questions.specs.Formulas.{IsQuestion, AskedIsThere, all_of, all_formulas};
ghost use Rattle.requirement_questions.specs.Formulas.{asked_formulas};
ghost use Rattle.requirement_questions.specs.Sizing.{steps_of};

use crate::questions::{Question, Wanted};
use formula_copy::tree_size;
use std::alloc::{AllocError, Global};

/// The size of the formula. It is above the number of the given formulas where there are some.
pub fn full_size(alloc: Global, question: &Question<'_>) -> Result<u128, AllocError>
    requires { IsQuestion question.now }
    ensures size { IfOk result (λ size. size ≡ formula_size (all_of (all_formulas question.now))) }
    ensures many { IfOk result (λ size. length question.now.given.now ≤ size) }
{
    let mut steps = 0;
    'given: for k in 0..question.given.len() {
        let given = question.given[k];
        steps += tree_size(alloc, given.table, given.root)? as u128 + 1;
    }
    steps += asked_steps(alloc, question.asked)?;
    if steps == 0 {
        return Ok(1);
    }
    Ok(steps - 1)
}

/// How many nodes what is asked adds: its own, one for the `&` before it, and one for `!` where it is to
/// fail.
fn asked_steps(alloc: Global, asked: Wanted<'_>) -> Result<u128, AllocError>
    requires { AskedIsThere asked }
    ensures steps { IfOk result (λ steps. steps ≡ steps_of (asked_formulas asked.entry)) }
    ensures few { IfOk result (λ steps. steps ≤ 4177922) }
{
    match asked {
        Wanted::Nothing => Ok(0),
        Wanted::Holds(given) => Ok(tree_size(alloc, given.table, given.root)? as u128 + 1),
        Wanted::Fails(given) => Ok(tree_size(alloc, given.table, given.root)? as u128 + 2),
    }
}
