// The texts of a formula without past operators, and of a trace with its new names.
ghost use Rattle.std.specs.Prelude.{◌≡◌, ◌++◌, Ok, OnOk};
ghost use Rattle.ltl_word.specs.Trace.{IsTrace};
ghost use Rattle.ltl_word.specs.Json.{IsReading, trace_text};
ghost use Rattle.report.specs.Texts.{depasted_text, lifted_text};

use crate::lines::line;
use ltl_word::Trace;
use std::alloc::{AllocError, Global};

/// Adds the printed formula, which has no newline.
pub fn depasted(formula: &[u8], out: &mut Vec<u8>) -> Result<(), AllocError>
    ensures { OnOk result (out.new.items ≡ out.old.items ++ depasted_text formula.now) }
{
    line(formula, out)
}

/// Adds the printed formula, and the trace.
pub fn lifted(
    alloc: Global,
    formula: &[u8],
    trace: &Trace,
    out: &mut Vec<u8>,
) -> Result<(), AllocError>
    ensures text { OnOk result (out.new.items ≡ out.old.items ++ lifted_text formula.now trace.now) }
    // The line of the trace reads back as it, so it has no other.
    ensures reads { OnOk result (IsTrace trace.now → IsReading (trace_text trace.now) (Ok trace.now)) }
{
    let json = trace.to_json(alloc)?;
    line(formula, out)?;
    line(&json, out)
}
