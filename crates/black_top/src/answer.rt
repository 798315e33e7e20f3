// The answer to words and a source. The source is read once, as far as the command goes, and not at all where
// the words ask for no command, or for one that needs nothing of it. Bytes are answered when all are there.
ghost use Rattle.std.specs.Prelude.{◌≡◌, map, string_bytes, IfOk, OnOk, IsErrOf};
ghost use Rattle.ltl_io.specs.Count.{Rose, Counts};
ghost use Rattle.ltl_io.specs.declared.source.ReadRefused.TheVariants as read_refused;
ghost use Rattle.command_words.specs.Words.{Command, Asks, row_of};
ghost use Rattle.black_top.specs.Answer.{Answer};
ghost use Rattle.black_top.specs.Inner.{Shows};
ghost use Rattle.black_top.specs.Run.{IsGiven, NeedsNothing};
ghost use Rattle.black_top.specs.Taking.{Takes, TakesAtMost, TakesBeforeFault};

use crate::commands::output;
use crate::output::{Output, refusal};
use command_words::asked_command;
use ltl_io::{Gate, ReadRefused, Source, read_whole};
use report::Fault;
use std::alloc::Global;
use std::thread::Threads;

/// What the program is to print, and its status.
pub fn answer<R: Threads + Sync, S: Source, G: Gate + Sync>(
    rt: &R,
    alloc: Global,
    words: &[String],
    source: &mut S,
    gate: &G,
) -> Result<Output, ReadRefused>
    ensures given { IfOk result (λ out. (a : Answer)
        × IsGiven (map string_bytes words.now) (S.rest source.old) a × Shows out a) }
    ensures fault { IsErrOf result read_refused.Fault → Rose (S.faults source.old) (S.faults source.new) }
    ensures no_memory { IsErrOf result read_refused.NoMemory → S.faults source.new ≡ S.faults source.old }
    ensures count { OnOk result (S.faults source.new ≡ S.faults source.old) }
    ensures counts { Counts (S.faults source.old) (S.faults source.new) }
    ensures unread { NeedsNothing (map string_bytes words.now) → source.new ≡ source.old }
    ensures most { (command : Command) → Asks (map string_bytes words.now) command
        → TakesAtMost (row_of command).reads (S.rest source.old) (S.rest source.new) }
    ensures before_fault { IsErrOf result read_refused.Fault → (command : Command)
        → Asks (map string_bytes words.now) command
        → TakesBeforeFault (row_of command).reads (S.rest source.old) (S.rest source.new) }
    ensures left { (command : Command) → Asks (map string_bytes words.now) command
        → OnOk result (Takes (row_of command).reads (S.rest source.old) (S.rest source.new)) }
{
    let Some(asked) = asked_command(alloc, words)? else {
        return Ok(refusal(alloc, Fault::Usage)?);
    };
    let Some(most) = asked.stop() else {
        return Ok(output(rt, alloc, asked, b"", gate)?);
    };
    let bytes = read_whole(alloc, source, most)?;
    let shown = output(rt, alloc, asked, &bytes, gate)?;
    Ok(shown)
}
