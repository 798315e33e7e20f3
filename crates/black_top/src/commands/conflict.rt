// `solve --core`: which parts of a formula conflict, where no trace of the kind satisfies it.
ghost use Rattle.std.specs.Prelude.{◌≤◌, ◌<◌, option_map, vec_items, IfOk};
ghost use Rattle.ltl_syntax.specs.Formula.{HasNoFresh};
ghost use Rattle.command_words.specs.Asked.{AreWorkers};
ghost use Rattle.core_extract.specs.Core.{IsRefuted};
ghost use Rattle.black_top.specs.Conflict.{ShowsCore};

use super::check::DEFAULT_WORKERS;
use command_words::Options;
use core_extract::core;
use ltl_closure::Closure;
use ltl_io::Gate;
use ltl_syntax::print;
use std::alloc::{AllocError, Global};
use std::thread::Threads;

/// The printed core of a refuted formula, where one is asked for. Its tests are done by this number of
/// workers.
pub fn shown_core<R: Threads + Sync, G: Gate + Sync>(
    rt: &R,
    alloc: Global,
    closure: &Closure<'_>,
    asked: u32,
    options: Options,
    gate: &G,
) -> Result<Option<Vec<u8>>, AllocError>
    requires asked { asked ≤ 1000 }
    requires workers { AreWorkers options.workers }
    requires given { HasNoFresh closure.now.formula }
    requires refuted { IsRefuted closure.now.kind asked closure.now.formula }
    ensures { IfOk result (λ shown. ShowsCore options.core closure.now.formula closure.now.kind asked
        (option_map vec_items shown)) }
{
    if !options.core {
        return Ok(None);
    }
    let table = closure.table();
    let root = closure.node();
    let workers = options.workers.unwrap_or(DEFAULT_WORKERS);
    let (found, place) = core(rt, alloc, table, root, closure.kind(), asked, workers, gate)?;
    let text = print(alloc, &found, place)?;
    Ok(Some(text))
}
