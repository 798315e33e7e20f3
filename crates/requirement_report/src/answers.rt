// What is said of one answer: the word that begins its block, and the lines under the head of the block. The
// page says the same in `requirement_page/src/answers.rt`, the JSON in `requirement_json/src/answers.rt`.
ghost use Rattle.std.specs.Prelude.{◌≡◌, ◌++◌, OnOk};
ghost use Rattle.requirement_document.specs.Values.{document_in};
ghost use Rattle.requirement_report.specs.Text.{question_words, can_word, cannot_word, word_of};
ghost use Rattle.requirement_report.specs.Text.{because_line, tried_line, large_line, answer_lines};

use crate::lines::{put_inner, put_worded};
use crate::members::put_members;
use crate::pictures::put_picture;
use requirement_answers::Asking;
use requirement_document::Document;
use requirement_questions::{Limits, Member, QuestionAnswer};
use std::alloc::{AllocError, Global};

/// The word that an answer begins with. It tells the question too, but for `undecided`.
pub fn word_of(asking: Asking, answer: &QuestionAnswer) -> &'static [u8]
    ensures { result.now ≡ word_of asking answer.now }
{
    match answer {
        QuestionAnswer::Can(_) => can_word(asking),
        QuestionAnswer::Cannot(_) => cannot_word(asking),
        QuestionAnswer::Undecided | QuestionAnswer::TooLarge(_) => b"undecided",
    }
}

/// The word where a trace was found. That is what one hopes for, unless it is asked whether an item follows:
/// then the item fails on this trace.
fn can_word(asking: Asking) -> &'static [u8]
    ensures { result.now ≡ can_word asking }
{
    match asking {
        Asking::Together => b"consistent",
        Asking::Triggered(_) => b"triggered",
        Asking::New(_) => b"new",
        Asking::Possible(_) => b"possible",
        Asking::Follows(_) => b"fails",
    }
}

/// The word where it is proved that there is no trace.
fn cannot_word(asking: Asking) -> &'static [u8]
    ensures { result.now ≡ cannot_word asking }
{
    match asking {
        Asking::Together => b"conflict",
        Asking::Triggered(_) => b"never triggered",
        Asking::New(_) => b"follows from the others",
        Asking::Possible(_) => b"impossible",
        Asking::Follows(_) => b"follows",
    }
}

/// The question in words. They stand under an undecided answer, whose word does not tell what was asked.
pub fn question_words(asking: Asking) -> &'static [u8]
    ensures { result.now ≡ question_words asking }
{
    match asking {
        Asking::Together => b"can all of them be met together?",
        Asking::Triggered(_) => b"is it ever triggered?",
        Asking::New(_) => b"does it say anything new?",
        Asking::Possible(_) => b"may it happen?",
        Asking::Follows(_) => b"does it follow?",
    }
}

/// Adds the lines under the head: the picture of the trace, or the items because of which there is none, or
/// the question and the limit that left it open.
pub fn put_answer(
    alloc: Global,
    document: &Document,
    limits: Limits,
    asking: Asking,
    answer: &QuestionAnswer,
    out: &mut Vec<u8>,
) -> Result<(), AllocError>
    ensures { OnOk result (out.new.items
        ≡ out.old.items ++ answer_lines (document_in document.now) limits.steps asking answer.now) }
{
    match answer {
        QuestionAnswer::Can(trace) => put_picture(alloc, trace, out),
        QuestionAnswer::Cannot(because) => put_because(alloc, document, &because.members, out),
        QuestionAnswer::Undecided => {
            put_inner(question_words(asking), out)?;
            put_tried(alloc, limits.steps, out)
        }
        QuestionAnswer::TooLarge(size) => {
            put_inner(question_words(asking), out)?;
            put_large(alloc, *size, out)
        }
    }
}

/// Adds the line of the items because of which there is no trace. It is `by itself` where there are none:
/// what is asked cannot be, whatever else holds.
fn put_because(
    alloc: Global,
    document: &Document,
    members: &[Member],
    out: &mut Vec<u8>,
) -> Result<(), AllocError>
    ensures { OnOk result (out.new.items
        ≡ out.old.items ++ because_line (document_in document.now) members.now) }
{
    if members.is_empty() {
        return put_inner(b"by itself", out);
    }
    let mut line = Vec::from_slice(alloc, b"because of: ")?;
    put_members(alloc, document, members, &mut line)?;
    put_inner(&line, out)
}

/// Adds the line of the limit within which neither answer was found. A step is a question to a solver.
fn put_tried(alloc: Global, steps: u32, out: &mut Vec<u8>) -> Result<(), AllocError>
    ensures { OnOk result (out.new.items ≡ out.old.items ++ tried_line steps) }
{
    let mut line = Vec::new(alloc);
    put_worded(b"tried: ", steps as u128, &mut line)?;
    line.extend_from_slice(b" steps")?;
    put_inner(&line, out)
}

/// Adds the line of the number of nodes that the formula of the whole question would have. It was not tried.
fn put_large(alloc: Global, size: u128, out: &mut Vec<u8>) -> Result<(), AllocError>
    ensures { OnOk result (out.new.items ≡ out.old.items ++ large_line size) }
{
    let mut line = Vec::new(alloc);
    put_worded(b"limit nodes 16384 have ", size, &mut line)?;
    put_inner(&line, out)
}
