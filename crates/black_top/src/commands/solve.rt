// `solve`: whether a formula has a trace of the kind, by the tableau's verdict at the limit in force.
ghost use Rattle.std.specs.Prelude.{◌<◌, ◌≤◌, length, IfOk, OnOk};
ghost use Rattle.ltl_syntax.specs.Formula.{HasNoFresh};
ghost use Rattle.ltl_syntax.specs.Table.{tree_at};
ghost use Rattle.enc_layout.specs.Letters.{Fits};
ghost use Rattle.enc_layout.specs.Clauses.{layout_of};
ghost use Rattle.enc_layout.specs.Limit.{IsInForce};
ghost use Rattle.unravel.specs.Decision.{IsRefutation};
ghost use Rattle.command_words.specs.Asked.{IsDepth, AreWorkers};
ghost use Rattle.black_top.specs.Answer.{Answer};
ghost use Rattle.black_top.specs.Solve.{IsSolved, IsSettled, IsDecided};
ghost use Rattle.black_top.specs.Inner.{Shows, AddsCertificate, AddsShown};

use super::conflict::shown_core;
use super::limit::{DEFAULT_DEPTH, limit_for};
use crate::output::{Output, refusal, sat, undecided, unsat};
use cert_text::append;
use clause_index::Indexed;
use cnf_base::Clauses;
use command_words::Options;
use derivation::NamedLog;
use log_trim::trim;
use ltl_closure::Closure;
use ltl_io::Gate;
use ltl_syntax::FormulaTable;
use program_input::{PartReading, read_formula};
use report::Fault;
use std::alloc::{AllocError, Global};
use std::thread::Threads;
use unravel::Decision;

/// The answer to the text of a formula. A text that is too long may be a front of the input.
pub fn solve<R: Threads + Sync, G: Gate + Sync>(
    rt: &R,
    alloc: Global,
    options: Options,
    text: &[u8],
    gate: &G,
) -> Result<Output, AllocError>
    requires depth { IsDepth options.depth }
    requires workers { AreWorkers options.workers }
    ensures { IfOk result (λ out. (a : Answer)
        × IsSolved options.kind options.depth options.core options.cert text.now a × Shows out a) }
{
    ltl_parser::laws::no_fresh();
    match read_formula(alloc, text)? {
        PartReading::Refused(fault) => refusal(alloc, fault),
        PartReading::Formula { table, root } => settle(rt, alloc, &table, root, options, gate),
    }
}

/// The tableau's verdict, or that the depth that was asked for has too many letters.
fn settle<R: Threads + Sync, G: Gate + Sync>(
    rt: &R,
    alloc: Global,
    table: &FormulaTable,
    root: u32,
    options: Options,
    gate: &G,
) -> Result<Output, AllocError>
    requires root { root < length table.now.nodes }
    requires given { HasNoFresh (tree_at table.now root) }
    requires depth { IsDepth options.depth }
    requires workers { AreWorkers options.workers }
    ensures { IfOk result (λ out. (a : Answer)
        × IsSettled options.kind options.depth options.core options.cert (tree_at table.now root) a
        × Shows out a) }
{
    let closure = Closure::of(alloc, table, root, options.kind)?;
    let asked = options.depth.unwrap_or(DEFAULT_DEPTH);
    match limit_for(&closure, options.depth) {
        Ok(limit) => decide(rt, alloc, &closure, asked, limit, options, gate),
        Err(limit) => refusal(alloc, Fault::Letters(limit)),
    }
}

/// The tableau's verdict at the limit in force. Where there is no trace, the core and a certificate come with
/// it, if they are asked for.
fn decide<R: Threads + Sync, G: Gate + Sync>(
    rt: &R,
    alloc: Global,
    closure: &Closure<'_>,
    asked: u32,
    limit: u32,
    options: Options,
    gate: &G,
) -> Result<Output, AllocError>
    requires asked { asked ≤ 1000 }
    requires workers { AreWorkers options.workers }
    requires given { HasNoFresh closure.now.formula }
    requires force { IsInForce closure.now.formula closure.now.kind asked limit }
    requires fits { Fits (layout_of closure.now) limit }
    ensures { IfOk result (λ out. (a : Answer)
        × IsDecided closure.now.formula closure.now.kind asked limit options.core options.cert a
        × Shows out a) }
{
    enc_layout::laws::numbering();
    match unravel::decide(alloc, closure, limit)? {
        Decision::Sat { depth, trace } => sat(alloc, depth, &trace),
        Decision::Unsat {
            depth,
            log,
            targets,
        } => {
            let conflict = shown_core(rt, alloc, closure, asked, options, gate)?;
            let mut out = unsat(alloc, depth, conflict.as_deref())?;
            shown_certificate(
                alloc,
                closure,
                depth,
                log,
                &targets,
                options.cert,
                &mut out.text,
            )?;
            Ok(out)
        }
        Decision::Undecided { depth } => undecided(alloc, depth),
    }
}

/// Adds the text of a certificate, where one is asked for.
fn shown_certificate(
    alloc: Global,
    closure: &Closure<'_>,
    depth: u32,
    log: NamedLog,
    targets: &[u64],
    cert: bool,
    out: &mut Vec<u8>,
) -> Result<(), AllocError>
    requires few { depth ≤ 1000 }
    requires fits { Fits (layout_of closure.now) depth }
    requires refutes { IsRefutation closure.now.formula closure.now.kind depth log targets.now }
    ensures { OnOk result (AddsShown cert closure.now.formula closure.now.kind depth
        out.old.items out.new.items) }
{
    if !cert {
        return Ok(());
    }
    certificate(alloc, closure, depth, log, targets, out)
}

/// Adds the text of a certificate of this depth: the lines of the log that its targets stand on, and no
/// others.
pub fn certificate(
    alloc: Global,
    closure: &Closure<'_>,
    depth: u32,
    log: NamedLog,
    targets: &[u64],
    out: &mut Vec<u8>,
) -> Result<(), AllocError>
    requires few { depth ≤ 1000 }
    requires fits { Fits (layout_of closure.now) depth }
    requires refutes { IsRefutation closure.now.formula closure.now.kind depth log targets.now }
    ensures { OnOk result (AddsCertificate closure.now.formula closure.now.kind depth
        out.old.items out.new.items) }
{
    cert_check::laws::trimmed();
    let (needed, numbers) = trim(alloc, log, targets)?;
    // The counts are numbers of 64 bits, so the text can name each clause and each line.
    let clauses = Indexed::of(closure, depth);
    let _counts = (clauses.count(), needed.lines());
    append(alloc, closure.kind(), depth, &needed, &numbers, out)
}
