// A question, and its answer.
ghost use Rattle.std.specs.Prelude.{IfOk};
ghost use Rattle.requirement_questions.specs.Formulas.{IsQuestion};
ghost use Rattle.requirement_questions.specs.Answer.{IsAnswer};

use crate::leaving::{Because, all_because, fewest};
use crate::members::first_members;
use crate::questions::{Limits, Question};
use crate::settling::{Settled, settle};
use crate::sizing::full_size;
use ltl_word::Trace;
use std::alloc::{AllocError, Global};

/// The answer to a question.
#[derive(Drop)]
pub enum QuestionAnswer {
    /// A trace of the kind that satisfies each given formula, and what is asked.
    Can(Trace),
    /// No trace does.
    Cannot(Box<Because>),
    /// Neither was found within the limits.
    Undecided,
    /// The formula that says all of it has this size, which is above 16,384.
    TooLarge(u128),
}

/// Answers a question. Where it cannot be, given formulas are left out, from the last to the first:
/// one stays out where the rest still cannot be.
pub fn answer_question(
    alloc: Global,
    question: &Question<'_>,
    limits: Limits,
) -> Result<QuestionAnswer, AllocError>
    requires { IsQuestion question.now }
    ensures { IfOk result (IsAnswer question.now) }
{
    let size = full_size(alloc, question)?;
    if size > 16_384 {
        return Ok(QuestionAnswer::TooLarge(size));
    }
    let members = first_members(alloc, question.given.len())?;
    match settle(alloc, question, &members, limits)? {
        Settled::Possible(trace) => Ok(QuestionAnswer::Can(trace)),
        Settled::Impossible(refuted) => {
            let because = all_because(alloc, question, members, refuted)?;
            Ok(QuestionAnswer::Cannot(fewest(alloc, question, limits, because)?))
        }
        Settled::Undecided | Settled::TooLarge => Ok(QuestionAnswer::Undecided),
    }
}
