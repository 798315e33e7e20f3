// Lines on the progress.
ghost use Rattle.std.specs.Prelude.{◌≡◌, false};

use ltl_io::{Sink, write_whole};
use requirement_questions::Attempt;
use std::alloc::{AllocError, Global};

/// How many questions stand between two lines.
pub const QUESTIONS_IN_A_LINE: u64 = 10_000;

/// Writes a line where lines are asked for and this number of questions makes one due, and answers how many
/// make the next one due.
pub fn tell_at<N: Sink>(
    alloc: Global,
    wanted: bool,
    attempt: &Attempt<'_>,
    due: u64,
    notes: &mut N,
) -> Result<u64, AllocError>
    ensures { wanted ≡ false → notes.new ≡ notes.old }
{
    let asked = attempt.asked();
    if !wanted || asked < due {
        return Ok(due);
    }
    tell(alloc, attempt, notes)?;
    Ok(asked.saturating_add(QUESTIONS_IN_A_LINE))
}

/// Writes one line into the notes. What comes of that is not looked at: the answer is the same.
fn tell<N: Sink>(alloc: Global, attempt: &Attempt<'_>, notes: &mut N) -> Result<(), AllocError> {
    let levels = attempt.levels();
    let claims = attempt.claims();
    let depth = attempt.depth();
    let asked = attempt.asked();
    let text = format!(in alloc;
        "level {levels} claims {claims} depth {depth} questions {asked}\n"
    )?;
    let _ = write_whole(notes, text.as_bytes());
    Ok(())
}
