// What is printed of words and a source. The source is read once, as far as a document goes, and not at all
// where no document is asked about.
ghost use Rattle.std.specs.Prelude.{◌≡◌, false, map, string_bytes, IfOk, OnOk, IsErrOf};
ghost use Rattle.ltl_io.specs.Count.{Rose, Counts};
ghost use Rattle.ltl_io.specs.Outside.{LosesAtMost};
ghost use Rattle.ltl_io.specs.declared.source.ReadRefused.TheVariants as read_refused;
ghost use Rattle.program_input.specs.Taking.{IsTakenUpTo};
ghost use Rattle.requirements_top.specs.Words.{Query as AQuery, Of, Asks, ReadNothing, AsksNoProgress};
ghost use Rattle.requirements_top.specs.Words.{progress_of};
ghost use Rattle.requirements_top.specs.Said.{query_of, IsFit};
ghost use Rattle.requirements_top.specs.Answer.{IsOutput};
ghost use Rattle.requirements_top.specs.Run.{IsGiven};
ghost use Rattle.requirements_top.specs.Inner.{IsGivenTo};

use crate::output::{Output, help, refusal, usage};
use crate::reporting::printed;
use crate::words::{Asked, Query, asked_for};
use ltl_io::{ReadRefused, Sink, Source, read_whole};
use requirement_answers::laws::behaviours_are_traces;
use requirement_document::{Refused, read};
use std::alloc::{AllocError, Global};
use std::thread::Threads;

/// The most bytes of a document.
const MAX_DOCUMENT: usize = 4_194_304;

/// What is printed, and the status.
#[tactic(auto, using(crate::proofs::Leaving::none_lost))]
pub fn answer<R: Threads + Sync, S: Source, N: Sink>(
    rt: &R,
    alloc: Global,
    words: &[String],
    source: &mut S,
    notes: &mut N,
) -> Result<Output, ReadRefused>
    ensures given { IfOk result (λ out. IsGiven (map string_bytes words.now) (S.rest source.old)
        out.status out.text.items) }
    ensures fault { IsErrOf result read_refused.Fault → Rose (S.faults source.old) (S.faults source.new) }
    ensures no_memory { IsErrOf result read_refused.NoMemory → S.faults source.new ≡ S.faults source.old }
    ensures count { OnOk result (S.faults source.new ≡ S.faults source.old) }
    ensures counts { Counts (S.faults source.old) (S.faults source.new) }
    ensures unread { ReadNothing (map string_bytes words.now) → source.new ≡ source.old }
    ensures silent { AsksNoProgress (map string_bytes words.now) → notes.new ≡ notes.old }
    ensures most { LosesAtMost 4259840 (S.rest source.old) (S.rest source.new) }
    ensures before_fault { IsErrOf result read_refused.Fault
        → LosesAtMost 4194304 (S.rest source.old) (S.rest source.new) }
    ensures left { (query : AQuery) → Asks (map string_bytes words.now) (Of query)
        → OnOk result (IsTakenUpTo 4194304 (S.rest source.old) (S.rest source.new)) }
{
    match asked_for(alloc, words)? {
        None => Ok(usage(alloc)?),
        Some(Asked::Help) => Ok(help(alloc)?),
        Some(Asked::Of(query)) => read_and_answer(rt, alloc, query, source, notes),
    }
}

/// What is printed of the source.
fn read_and_answer<R: Threads + Sync, S: Source, N: Sink>(
    rt: &R,
    alloc: Global,
    query: Query<'_>,
    source: &mut S,
    notes: &mut N,
) -> Result<Output, ReadRefused>
    requires fit { IsFit query }
    ensures given { IfOk result (λ out. IsGivenTo (query_of query.entry) (S.rest source.old)
        out.status out.text.items) }
    ensures fault { IsErrOf result read_refused.Fault → Rose (S.faults source.old) (S.faults source.new) }
    ensures no_memory { IsErrOf result read_refused.NoMemory → S.faults source.new ≡ S.faults source.old }
    ensures count { OnOk result (S.faults source.new ≡ S.faults source.old) }
    ensures counts { Counts (S.faults source.old) (S.faults source.new) }
    ensures most { LosesAtMost 4259840 (S.rest source.old) (S.rest source.new) }
    ensures before_fault { IsErrOf result read_refused.Fault
        → LosesAtMost 4194304 (S.rest source.old) (S.rest source.new) }
    ensures silent { progress_of (query_of query.entry) ≡ false → notes.new ≡ notes.old }
    ensures left { OnOk result (IsTakenUpTo 4194304 (S.rest source.old) (S.rest source.new)) }
{
    let bytes = read_whole(alloc, source, MAX_DOCUMENT)?;
    let output = output(rt, alloc, query, &bytes, notes)?;
    Ok(output)
}

/// What is printed of the bytes.
fn output<R: Threads + Sync, N: Sink>(
    rt: &R,
    alloc: Global,
    query: Query<'_>,
    bytes: &[u8],
    notes: &mut N,
) -> Result<Output, AllocError>
    requires fit { IsFit query }
    ensures lawful { IfOk result (λ out.
        IsOutput (query_of query.entry) bytes.now out.status out.text.items) }
    ensures silent { progress_of (query_of query.entry) ≡ false → notes.new ≡ notes.old }
{
    behaviours_are_traces();
    match read(alloc, bytes) {
        Ok(document) => printed(rt, alloc, query, &document, notes),
        Err(Refused::Fault(fault)) => refusal(alloc, &fault),
        Err(Refused::NoMemory) => Err(AllocError),
    }
}
