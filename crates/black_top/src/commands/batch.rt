// `batch`: what each line of a text is, as a formula of its own. Several workers take a line each.
ghost use Rattle.std.specs.Prelude.{IfOk};
ghost use Rattle.command_words.specs.Asked.{IsDepth, AreWorkers};
ghost use Rattle.black_top.specs.Answer.{Answer};
ghost use Rattle.black_top.specs.Batch.{IsBatched};
ghost use Rattle.black_top.specs.Inner.{Shows};

use super::check::DEFAULT_WORKERS;
use super::limit::DEFAULT_DEPTH;
use crate::output::{Output, batched, refusal};
use batch_run::answers;
use command_words::{MAX_BATCH, Options};
use ltl_io::Gate;
use report::Fault;
use std::alloc::{AllocError, Global};
use std::thread::Threads;

/// The answers to the lines of a text. A text that is too long may be a front of the input.
pub fn batch<R: Threads + Sync, G: Gate + Sync>(
    rt: &R,
    alloc: Global,
    options: Options,
    text: &[u8],
    gate: &G,
) -> Result<Output, AllocError>
    requires depth { IsDepth options.depth }
    requires workers { AreWorkers options.workers }
    ensures { IfOk result (λ out. (a : Answer)
        × IsBatched options.kind options.depth text.now a × Shows out a) }
{
    if text.len() > MAX_BATCH {
        return refusal(alloc, Fault::Batch);
    }
    let asked = options.depth.unwrap_or(DEFAULT_DEPTH);
    let workers = options.workers.unwrap_or(DEFAULT_WORKERS);
    let found = answers(rt, alloc, text, options.kind, asked, workers, gate)?;
    batched(alloc, &found)
}
