// Whether a certificate of claims shows that no trace of the kind satisfies a formula. The input is both,
// with a separator line between. Nothing is searched for here: only the certificate counts.
ghost use Rattle.std.specs.Prelude.{◌<◌, length, IfOk};
ghost use Rattle.ltl_syntax.specs.Table.{tree_at};
ghost use Rattle.refute_top.specs.Answer.{Answer};
ghost use Rattle.refute_top.specs.Checking.{IsChecked, IsPartedCheck};
ghost use Rattle.refute_top.specs.Inner.{Shows};

use crate::output::{Output, checked, refusal};
use claim_text::TextRefused;
use ltl_closure::Closure;
use ltl_syntax::{FormulaTable, Kind};
use program_input::{PartReading, cut, read_formula};
use report::Fault;
use std::alloc::{AllocError, Global};

/// The answer to an input of two parts.
pub fn check(alloc: Global, kind: Kind, input: &[u8]) -> Result<Output, AllocError>
    ensures { IfOk result (λ out. (a : Answer) × IsPartedCheck kind input.now a × Shows out a) }
{
    let Some(parts) = cut(input) else {
        return refusal(alloc, Fault::NoSeparator);
    };
    match read_formula(alloc, parts.formula)? {
        PartReading::Refused(fault) => refusal(alloc, fault),
        PartReading::Formula { table, root } => judge(alloc, &table, root, kind, parts.second),
    }
}

/// VERIFIED or REJECTED, or that the text is that of no certificate.
fn judge(
    alloc: Global,
    table: &FormulaTable,
    root: u32,
    kind: Kind,
    text: &[u8],
) -> Result<Output, AllocError>
    requires { root < length table.now.nodes }
    ensures { IfOk result (λ out. (a : Answer)
        × IsChecked kind (tree_at table.now root) text.now a × Shows out a) }
{
    let certificate = match claim_text::read(alloc, text) {
        Ok(certificate) => certificate,
        Err(TextRefused::Form(byte)) => return refusal(alloc, Fault::Certificate(byte)),
        Err(TextRefused::NoMemory) => return Err(AllocError),
    };
    let closure = Closure::of(alloc, table, root, kind)?;
    let verdict = claim_check::check(alloc, &closure, kind, &certificate)?;
    checked(alloc, verdict)
}
