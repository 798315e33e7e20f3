// A formula is looked at turn by turn, with a line on the progress between two turns where one is due.
ghost use Rattle.std.specs.Prelude.{◌≡◌, false, IfOk};
ghost use Rattle.refute_top.specs.Answer.{Answer};
ghost use Rattle.refute_top.specs.Refuting.{IsFound};
ghost use Rattle.refute_top.specs.Inner.{Shows};

use crate::output::{Output, sat, undecided};
use crate::progress::{QUESTIONS_IN_A_LINE, tell_at};
use crate::refute::refuted;
use command_words::Options;
use ltl_closure::Closure;
use ltl_io::Sink;
use requirement_questions::{Attempt, Attempted, DEFAULT_STEPS};
use std::alloc::{AllocError, Global};

/// The answer to the closure's formula: that of the first search that has one, or UNDECIDED.
pub fn take_turns<N: Sink>(
    alloc: Global,
    closure: &Closure<'_>,
    options: Options,
    notes: &mut N,
) -> Result<Output, AllocError>
    ensures found { IfOk result (λ out. (a : Answer)
        × IsFound closure.now.kind options.cert closure.now.formula a × Shows out a) }
    ensures silent { options.progress ≡ false → notes.new ≡ notes.old }
{
    let steps = options.steps.unwrap_or(DEFAULT_STEPS) as u64;
    let mut attempt = Attempt::begin(alloc, closure)?;
    let mut next_line = QUESTIONS_IN_A_LINE;
    'turns: for _ in 0..steps {
        let asked = attempt.asked();
        if asked >= steps {
            break;
        }
        next_line = tell_at(alloc, options.progress, &attempt, next_line, notes)?;
        match attempt.turn(steps - asked)? {
            Attempted::Possible(trace) => return sat(alloc, &trace),
            Attempted::Impossible(found) => return refuted(alloc, closure, options.cert, &found),
            Attempted::Open(next) => attempt = next,
            Attempted::Ended => break,
        }
    }
    undecided(alloc)
}
