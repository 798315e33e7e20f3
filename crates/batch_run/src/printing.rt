// The text of a batch: a line for each answer.
ghost use Rattle.std.specs.Prelude.{◌≡◌, ◌++◌, IfOk, OnOk};
ghost use Rattle.batch_run.specs.Texts.{worded, outcome_text, answer_text, batch_text};

use crate::answer::{LineAnswer, LineOutcome};
use itoa::Buffer;
use std::alloc::{AllocError, Global};

/// A line for each answer: its number, one space, and what is said of the formula.
pub fn batch_text(alloc: Global, answers: &[LineAnswer]) -> Result<Vec<u8>, AllocError>
    ensures { IfOk result (λ text. text.items ≡ batch_text answers.now) }
{
    let mut text = Vec::new(alloc);
    'answers: for answer in answers {
        push_answer(*answer, &mut text)?;
    }
    Ok(text)
}

fn push_answer(answer: LineAnswer, text: &mut Vec<u8>) -> Result<(), AllocError>
    ensures { OnOk result (text.new.items ≡ text.old.items ++ answer_text answer) }
{
    push_number(b"", answer.line, text)?;
    text.push(b' ')?;
    push_outcome(answer.outcome, text)?;
    text.push(b'\n')?;
    Ok(())
}

fn push_outcome(outcome: LineOutcome, text: &mut Vec<u8>) -> Result<(), AllocError>
    ensures { OnOk result (text.new.items ≡ text.old.items ++ outcome_text outcome) }
{
    match outcome {
        LineOutcome::Sat(depth) => push_number(b"SAT ", depth, text),
        LineOutcome::Unsat(depth) => push_number(b"UNSAT ", depth, text),
        LineOutcome::Undecided(depth) => push_number(b"UNDECIDED ", depth, text),
        LineOutcome::Text => text.extend_from_slice(b"limit text 1048576"),
        LineOutcome::Lexical(byte) => push_number(b"lexical fault at byte ", byte, text),
        LineOutcome::Grammar(byte) => push_number(b"grammar fault at byte ", byte, text),
        LineOutcome::Nodes(count) => push_number(b"limit nodes 16384 have ", count, text),
    }
}

/// Adds the words and the number, in decimal.
fn push_number(words: &[u8], number: u32, text: &mut Vec<u8>) -> Result<(), AllocError>
    ensures { OnOk result (text.new.items ≡ text.old.items ++ worded words.now number) }
{
    let mut buffer = Buffer::new();
    text.extend_from_slice(words)?;
    text.extend_from_slice(buffer.format(number).as_bytes())
}
