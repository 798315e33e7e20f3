// The answer to words and a source. The source is read once, as far as what is asked for goes, and not at all
// where the words ask for nothing.
ghost use Rattle.std.specs.Prelude.{◌≡◌, false, map, string_bytes, IfOk, OnOk, IsErrOf};
ghost use Rattle.ltl_io.specs.Count.{Rose, Counts};
ghost use Rattle.ltl_io.specs.declared.source.ReadRefused.TheVariants as read_refused;
ghost use Rattle.command_words.specs.Refutation.{RefutationAsked, AsksRefutation};
ghost use Rattle.refute_top.specs.Answer.{Answer};
ghost use Rattle.refute_top.specs.Run.{IsGiven, AsksNothing, AsksNoProgress};
ghost use Rattle.refute_top.specs.Taking.{Takes, TakesAtMost, TakesBeforeFault};
ghost use Rattle.refute_top.specs.Inner.{Shows, Gives, asks_progress, stop_after};

use crate::check::check;
use crate::output::{Output, usage};
use crate::refute::refute;
use command_words::{Refutation, asked_refutation};
use ltl_io::{ReadRefused, Sink, Source, read_whole};
use program_input::MAX_TEXT;
use std::alloc::{AllocError, Global};

/// What the program is to print, and its status.
pub fn answer<S: Source, N: Sink>(
    alloc: Global,
    words: &[String],
    source: &mut S,
    notes: &mut N,
) -> Result<Output, ReadRefused>
    ensures given { IfOk result (λ out. (a : Answer)
        × IsGiven (map string_bytes words.now) (S.rest source.old) a × Shows out a) }
    ensures fault { IsErrOf result read_refused.Fault → Rose (S.faults source.old) (S.faults source.new) }
    ensures no_memory { IsErrOf result read_refused.NoMemory → S.faults source.new ≡ S.faults source.old }
    ensures count { OnOk result (S.faults source.new ≡ S.faults source.old) }
    ensures counts { Counts (S.faults source.old) (S.faults source.new) }
    ensures unread { AsksNothing (map string_bytes words.now) → source.new ≡ source.old }
    ensures silent { AsksNoProgress (map string_bytes words.now) → notes.new ≡ notes.old }
    ensures most { (asked : RefutationAsked) → AsksRefutation (map string_bytes words.now) asked
        → TakesAtMost asked (S.rest source.old) (S.rest source.new) }
    ensures before_fault { IsErrOf result read_refused.Fault → (asked : RefutationAsked)
        → AsksRefutation (map string_bytes words.now) asked
        → TakesBeforeFault asked (S.rest source.old) (S.rest source.new) }
    ensures left { (asked : RefutationAsked) → AsksRefutation (map string_bytes words.now) asked
        → OnOk result (Takes asked (S.rest source.old) (S.rest source.new)) }
{
    command_words::laws::one_refutation();
    let Some(asked) = asked_refutation(alloc, words)? else {
        return Ok(usage(alloc)?);
    };
    let bytes = read_whole(alloc, source, stop_after(asked))?;
    let shown = output(alloc, asked, &bytes, notes)?;
    Ok(shown)
}

/// After how many bytes the source is read no further.
fn stop_after(asked: Refutation) -> usize
    ensures { result ≡ stop_after asked }
{
    match asked {
        Refutation::Refute(_) => MAX_TEXT,
        Refutation::Check(_) => usize::MAX,
    }
}

/// What is shown for the bytes.
fn output<N: Sink>(
    alloc: Global,
    asked: Refutation,
    bytes: &[u8],
    notes: &mut N,
) -> Result<Output, AllocError>
    ensures gives { IfOk result (λ out. (a : Answer) × Gives asked bytes.now a × Shows out a) }
    ensures silent { asks_progress asked ≡ false → notes.new ≡ notes.old }
{
    match asked {
        Refutation::Refute(options) => refute(alloc, options, bytes, notes),
        Refutation::Check(options) => check(alloc, options.kind, bytes),
    }
}
