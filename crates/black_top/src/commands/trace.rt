// `trace`: whether a formula holds on a trace. The input is both, with a separator line between.
ghost use Rattle.std.specs.Prelude.{◌<◌, length, IfOk};
ghost use Rattle.ltl_syntax.specs.Table.{tree_at};
ghost use Rattle.black_top.specs.Answer.{Answer};
ghost use Rattle.black_top.specs.Reading.{IsParted};
ghost use Rattle.black_top.specs.Trace.{IsJudged};
ghost use Rattle.black_top.specs.Inner.{Shows};

use crate::output::{Output, fails, holds, refusal};
use lasso_eval::EvalRefused;
use ltl_syntax::FormulaTable;
use ltl_word::{Trace, TraceFault};
use program_input::{PartReading, cut, read_formula};
use report::Fault;
use std::alloc::{AllocError, Global};

/// The answer to an input of two parts.
pub fn trace(alloc: Global, input: &[u8]) -> Result<Output, AllocError>
    ensures { IfOk result (λ out. (a : Answer) × IsParted IsJudged input.now a × Shows out a) }
{
    let Some(parts) = cut(input) else {
        return refusal(alloc, Fault::NoSeparator);
    };
    match read_formula(alloc, parts.formula)? {
        PartReading::Refused(fault) => refusal(alloc, fault),
        PartReading::Formula { table, root } => judge(alloc, &table, root, parts.second),
    }
}

/// HOLDS or FAILS, or why the text is no trace or is not evaluated.
fn judge(alloc: Global, table: &FormulaTable, root: u32, text: &[u8]) -> Result<Output, AllocError>
    requires { root < length table.now.nodes }
    ensures { IfOk result (λ out. (a : Answer) × IsJudged (tree_at table.now root) text.now a × Shows out a) }
{
    let trace = match Trace::from_json(alloc, text) {
        Ok(trace) => trace,
        Err(TraceFault::NotJson) => return refusal(alloc, Fault::NotJson),
        Err(TraceFault::NotTrace) => return refusal(alloc, Fault::NotTrace),
        Err(TraceFault::EmptyLoop) => return refusal(alloc, Fault::EmptyLoop),
        Err(TraceFault::EmptyStates) => return refusal(alloc, Fault::EmptyStates),
        Err(TraceFault::NoMemory) => return Err(AllocError),
    };
    match lasso_eval::holds(alloc, table, root, &trace) {
        Ok(true) => holds(alloc),
        Ok(false) => fails(alloc),
        Err(EvalRefused::Cells(count)) => refusal(alloc, Fault::Cells(count)),
        Err(EvalRefused::NoMemory) => Err(AllocError),
    }
}
