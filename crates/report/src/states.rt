// The answers of a monitor, one a line.
ghost use Rattle.std.specs.Prelude.{◌≡◌, ◌++◌, OnOk};
ghost use Rattle.report.specs.Texts.{answer_text, answers_text};

use crate::lines::line;
use std::alloc::AllocError;

/// Adds a line for each answer, in their order.
pub fn answers(answers: &[bool], out: &mut Vec<u8>) -> Result<(), AllocError>
    ensures { OnOk result (out.new.items ≡ out.old.items ++ answers_text answers.now) }
{
    for answer in answers {
        add_answer(*answer, out)?;
    }
    Ok(())
}

fn add_answer(answer: bool, out: &mut Vec<u8>) -> Result<(), AllocError>
    ensures { OnOk result (out.new.items ≡ out.old.items ++ answer_text answer) }
{
    if answer {
        line(b"true", out)
    } else {
        line(b"false", out)
    }
}
