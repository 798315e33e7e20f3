// `depast`: a formula without its past operators, and a trace with the new names that stand for past
// formulas. The input is the formula, and where a separator line is there, the trace behind it.
ghost use Rattle.std.specs.Prelude.{◌<◌, length, Ok, IfOk, OnOk};
ghost use Rattle.std.specs.Option.{option_copied};
ghost use Rattle.ltl_syntax.specs.Table.{IsRoot, tree_at};
ghost use Rattle.ltl_word.specs.Trace.{IsTrace};
ghost use Rattle.ltl_word.specs.Json.{IsReading, trace_text};
ghost use Rattle.depast.specs.Removal.{IsRemoved};
ghost use Rattle.black_top.specs.Answer.{Answer, depasted, lifted};
ghost use Rattle.black_top.specs.Depast.{IsDepasted, IsPartAnswer, IsWithout, IsShownBy, IsRaised};
ghost use Rattle.black_top.specs.Inner.{Shows};

use crate::Status;
use crate::output::{Output, refusal};
use depast::{RemoveRefused, Removed, lift, remove};
use lasso_eval::EvalRefused;
use ltl_syntax::{FormulaTable, print};
use ltl_word::{Trace, TraceFault};
use program_input::{PartReading, cut, read_formula};
use report::Fault;
use std::alloc::{AllocError, Global};

/// The answer to an input of one part or of two.
pub fn depast(alloc: Global, input: &[u8]) -> Result<Output, AllocError>
    ensures { IfOk result (λ out. (a : Answer) × IsDepasted input.now a × Shows out a) }
{
    match cut(input) {
        None => answer_part(alloc, input, None),
        Some(parts) => answer_part(alloc, parts.formula, Some(parts.second)),
    }
}

/// The answer to a formula part, and to a second part where one is there.
fn answer_part(alloc: Global, part: &[u8], second: Option<&[u8]>) -> Result<Output, AllocError>
    ensures { IfOk result (λ out. (a : Answer)
        × IsPartAnswer part.now (option_copied second.entry) a × Shows out a) }
{
    match read_formula(alloc, part)? {
        PartReading::Refused(fault) => refusal(alloc, fault),
        PartReading::Formula { table, root } => without_past(alloc, &table, root, second),
    }
}

/// The formula without past operators, with the lifted trace of a second part, or why it does not come.
fn without_past(
    alloc: Global,
    table: &FormulaTable,
    root: u32,
    second: Option<&[u8]>,
) -> Result<Output, AllocError>
    requires { root < length table.now.nodes }
    ensures { IfOk result (λ out. (a : Answer)
        × IsWithout (tree_at table.now root) (option_copied second.entry) a × Shows out a) }
{
    match remove(alloc, table, root) {
        Ok(removed) => shown(alloc, &removed, table, root, second),
        Err(RemoveRefused::Nodes(count)) => refusal(alloc, Fault::PastNodes(count)),
        Err(RemoveRefused::NoMemory) => Err(AllocError),
    }
}

/// The formula alone, or with the lifted trace of a second part.
fn shown(
    alloc: Global,
    removed: &Removed,
    table: &FormulaTable,
    root: u32,
    second: Option<&[u8]>,
) -> Result<Output, AllocError>
    requires root { root < length table.now.nodes }
    requires removed { IsRemoved (tree_at table.now root) removed.now }
    ensures { IfOk result (λ out. (a : Answer)
        × IsShownBy (tree_at table.now root) (option_copied second.entry) a × Shows out a) }
{
    match second {
        None => alone(alloc, removed),
        Some(text) => raised(alloc, removed, table, root, text),
    }
}

/// The formula without past operators.
fn alone(alloc: Global, removed: &Removed) -> Result<Output, AllocError>
    requires { IsRoot removed.now.table removed.now.root }
    ensures { IfOk result (λ out. Shows out (depasted (tree_at removed.now.table removed.now.root))) }
{
    let formula = print(alloc, removed.table(), removed.root())?;
    let mut text = Vec::new(alloc);
    report::depasted(&formula, &mut text)?;
    Ok(Output {
        status: Status::Good,
        text,
    })
}

/// The formula with a lifted trace, or why the text is no trace or is not evaluated.
fn raised(
    alloc: Global,
    removed: &Removed,
    table: &FormulaTable,
    root: u32,
    text: &[u8],
) -> Result<Output, AllocError>
    requires root { root < length table.now.nodes }
    requires removed { IsRemoved (tree_at table.now root) removed.now }
    ensures { IfOk result (λ out. (a : Answer) × IsRaised (tree_at table.now root) text.now a × Shows out a) }
{
    let trace = match Trace::from_json(alloc, text) {
        Ok(trace) => trace,
        Err(TraceFault::NotJson) => return refusal(alloc, Fault::NotJson),
        Err(TraceFault::NotTrace) => return refusal(alloc, Fault::NotTrace),
        Err(TraceFault::EmptyLoop) => return refusal(alloc, Fault::EmptyLoop),
        Err(TraceFault::EmptyStates) => return refusal(alloc, Fault::EmptyStates),
        Err(TraceFault::NoMemory) => return Err(AllocError),
    };
    match lift(alloc, removed, table, root, &trace) {
        Ok(lifted) => with_trace(alloc, removed, &lifted),
        Err(EvalRefused::Cells(count)) => refusal(alloc, Fault::Cells(count)),
        Err(EvalRefused::NoMemory) => Err(AllocError),
    }
}

/// The formula without past operators, and the trace.
fn with_trace(alloc: Global, removed: &Removed, trace: &Trace) -> Result<Output, AllocError>
    requires root { IsRoot removed.now.table removed.now.root }
    requires trace { IsTrace trace.now }
    ensures shows { IfOk result (λ out.
        Shows out (lifted (tree_at removed.now.table removed.now.root) trace.now)) }
    ensures reads { OnOk result (IsReading (trace_text trace.now) (Ok trace.now)) }
{
    let formula = print(alloc, removed.table(), removed.root())?;
    let mut text = Vec::new(alloc);
    report::lifted(alloc, &formula, trace, &mut text)?;
    Ok(Output {
        status: Status::Good,
        text,
    })
}
