// `check`: whether a certificate shows that no trace of the kind satisfies a formula. The input is both, with
// a separator line between. Nothing is decided here: only the certificate counts.
ghost use Rattle.std.specs.Prelude.{◌<◌, ◌≤◌, length, IfOk};
ghost use Rattle.ltl_syntax.specs.Table.{tree_at};
ghost use Rattle.command_words.specs.Asked.{AreWorkers};
ghost use Rattle.black_top.specs.Answer.{Answer};
ghost use Rattle.black_top.specs.Reading.{IsParted};
ghost use Rattle.black_top.specs.Check.{IsChecked};
ghost use Rattle.black_top.specs.Inner.{Shows};

use crate::output::{Output, checked, refusal};
use cert_check::CheckRefused;
use command_words::Options;
use ltl_io::Gate;
use ltl_syntax::{FormulaTable, Kind};
use program_input::{PartReading, cut, read_formula};
use report::Fault;
use std::alloc::{AllocError, Global};
use std::thread::Threads;

/// The workers that there are where no number is asked for.
pub const DEFAULT_WORKERS: u32 = 1;

/// The answer to an input of two parts.
pub fn check<R: Threads + Sync, G: Gate + Sync>(
    rt: &R,
    alloc: Global,
    options: Options,
    input: &[u8],
    gate: &G,
) -> Result<Output, AllocError>
    requires workers { AreWorkers options.workers }
    ensures { IfOk result (λ out. (a : Answer)
        × IsParted (IsChecked options.kind) input.now a × Shows out a) }
{
    let Some(parts) = cut(input) else {
        return refusal(alloc, Fault::NoSeparator);
    };
    let workers = options.workers.unwrap_or(DEFAULT_WORKERS);
    match read_formula(alloc, parts.formula)? {
        PartReading::Refused(fault) => refusal(alloc, fault),
        PartReading::Formula { table, root } => {
            judge(
                rt,
                alloc,
                &table,
                root,
                options.kind,
                parts.second,
                workers,
                gate,
            )
        }
    }
}

/// VERIFIED or REJECTED, or why the text is not checked. Its lines are checked by this number of workers.
fn judge<R: Threads + Sync, G: Gate + Sync>(
    rt: &R,
    alloc: Global,
    table: &FormulaTable,
    root: u32,
    kind: Kind,
    text: &[u8],
    workers: u32,
    gate: &G,
) -> Result<Output, AllocError>
    requires root { root < length table.now.nodes }
    requires some { 1 ≤ workers }
    requires few { workers ≤ 16 }
    ensures { IfOk result (λ out. (a : Answer)
        × IsChecked kind (tree_at table.now root) text.now a × Shows out a) }
{
    match cert_check::check(rt, alloc, table, root, kind, text, workers, gate) {
        Ok(verdict) => checked(alloc, verdict),
        Err(CheckRefused::Form(byte)) => refusal(alloc, Fault::Certificate(byte)),
        Err(CheckRefused::Letters(depth)) => refusal(alloc, Fault::Letters(depth)),
        Err(CheckRefused::NoMemory) => Err(AllocError),
    }
}
