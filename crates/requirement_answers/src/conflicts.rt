// Conflicts: where the given items cannot be met together, those that show it are set aside, and the rest is
// asked again, until it can be met or that stays open.
ghost use Rattle.std.specs.Prelude.{◌≡◌, ◌<◌, length, IfOk, Box};
ghost use Rattle.requirement_document.specs.Values.{document_in};
ghost use Rattle.requirement_questions.specs.Members.{places};
ghost use Rattle.requirement_answers.specs.Items.{without};
ghost use Rattle.requirement_answers.specs.Inner.{AreItems, IsMet, IsTogether};

use crate::asking::Asking;
use crate::effort::Watch;
use crate::numbers::{given_numbers, without};
use crate::replying::answer_given;
use requirement_document::Document;
use requirement_questions::{Because, Limits, Member, QuestionAnswer, Wanted};
use std::alloc::{AllocError, Global};

/// What is found of items that are asked together.
#[derive(Drop)]
pub enum Met {
    Open(QuestionAnswer),
    Conflict(Box<Because>),
}

/// The conflicts, what is left without them, and whether that can be met.
#[derive(Drop)]
pub struct Together {
    pub conflicts: Vec<Box<Because>>,
    pub left: Vec<u32>,
    pub answer: QuestionAnswer,
}

/// Sets aside what cannot be met together. `watch` is told each time before it is asked.
pub fn set_aside<W: Watch>(
    alloc: Global,
    document: &Document,
    limits: Limits,
    watch: &mut W,
) -> Result<Box<Together>, AllocError>
    requires { length document.now.items.items < 4294967296 }
    ensures { IfOk result (λ m. IsTogether (document_in document.now) m.value) }
{
    let mut conflicts = Vec::new(alloc);
    let mut left = given_numbers(alloc, document)?;
    'conflicts: loop {
        watch.begin(document, Asking::Together, 0);
        match met_together(alloc, document, &left, limits)? {
            Met::Open(answer) => {
                let together = Together {
                    conflicts,
                    left,
                    answer,
                };
                return Ok(Box::new(alloc, together)?);
            }
            Met::Conflict(because) => {
                left = without_members(alloc, &because.members, &left)?;
                conflicts.push(because)?;
            }
        }
    }
}

/// Whether these items can be met together.
fn met_together(
    alloc: Global,
    document: &Document,
    left: &[u32],
    limits: Limits,
) -> Result<Met, AllocError>
    requires { AreItems (document_in document.now) left.now }
    ensures { IfOk result (IsMet (document_in document.now) left.now) }
{
    match answer_given(alloc, document, left, Wanted::Nothing, limits)? {
        QuestionAnswer::Can(trace) => Ok(Met::Open(QuestionAnswer::Can(trace))),
        QuestionAnswer::Cannot(because) => Ok(Met::Conflict(because)),
        QuestionAnswer::Undecided => Ok(Met::Open(QuestionAnswer::Undecided)),
        QuestionAnswer::TooLarge(size) => Ok(Met::Open(QuestionAnswer::TooLarge(size))),
    }
}

/// These items without the members.
fn without_members(alloc: Global, members: &[Member], left: &[u32]) -> Result<Vec<u32>, AllocError>
    ensures { IfOk result (λ rest. rest.items ≡ without (places members.now) left.now) }
{
    let away = member_numbers(alloc, members)?;
    without(alloc, &away, left)
}

/// The numbers of members.
fn member_numbers(alloc: Global, members: &[Member]) -> Result<Vec<u32>, AllocError>
    ensures { IfOk result (λ numbers. numbers.items ≡ places members.now) }
{
    let mut numbers = Vec::with_capacity(alloc, members.len())?;
    'members: for k in 0..members.len() {
        numbers.push(members[k].given)?;
    }
    Ok(numbers)
}
