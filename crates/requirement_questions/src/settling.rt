// Some of the given formulas and what is asked: joined into one formula, of which both searches are asked.
ghost use Rattle.std.specs.Prelude.{◌<◌, length, All, IfOk};
ghost use Rattle.requirement_questions.specs.Formulas.{IsQuestion};
ghost use Rattle.requirement_questions.specs.Members.{places};
ghost use Rattle.requirement_questions.specs.Settling.{IsSettled};

use crate::asking::{SearchOutcome, ask_of};
use crate::joining::join;
use crate::members::Member;
use crate::questions::{Limits, Question};
use claim_check::Certificate;
use ltl_syntax::FormulaTable;
use ltl_word::Trace;
use std::alloc::{AllocError, Global};

/// What is found of members and of what is asked.
#[derive(Drop)]
pub enum Settled {
    Possible(Trace),
    Impossible(Box<Refuted>),
    Undecided,
    TooLarge,
}

/// A formula, and a lawful certificate that no trace satisfies it.
#[derive(Drop)]
pub struct Refuted {
    pub certificate: Certificate,
    pub table: FormulaTable,
    pub root: u32,
}

/// Whether some trace of the kind satisfies the members and what is asked.
pub fn settle(
    alloc: Global,
    question: &Question<'_>,
    members: &[Member],
    limits: Limits,
) -> Result<Settled, AllocError>
    requires question { IsQuestion question.now }
    requires members { All (λ m. m.given < length question.now.given.now) members.now }
    ensures { IfOk result (IsSettled question.now (places members.now)) }
{
    let Some(joined) = join(alloc, question, members)? else {
        return Ok(Settled::TooLarge);
    };
    match ask_of(alloc, &joined.table, joined.root, question.kind, limits)? {
        SearchOutcome::Possible(trace) => Ok(Settled::Possible(trace)),
        SearchOutcome::Undecided => Ok(Settled::Undecided),
        SearchOutcome::Impossible(certificate) => {
            let refuted = Refuted {
                certificate,
                table: joined.table,
                root: joined.root,
            };
            Ok(Settled::Impossible(Box::new(alloc, refuted)?))
        }
    }
}
