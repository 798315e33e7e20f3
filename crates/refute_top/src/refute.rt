// From the text of a formula to its answer, and from a certificate that was found and judged lawful to UNSAT.
ghost use Rattle.std.specs.Prelude.{◌≡◌, ◌<◌, true, false, length, IfOk};
ghost use Rattle.ltl_syntax.specs.Table.{tree_at};
ghost use Rattle.claims.specs.Lawful.{IsLawful};
ghost use Rattle.claim_check.specs.Data.{certificate_in};
ghost use Rattle.refute_top.specs.Answer.{Answer};
ghost use Rattle.refute_top.specs.Refuting.{IsFound, IsSettled};
ghost use Rattle.refute_top.specs.Inner.{Shows};

use crate::output::{Output, certified, refusal, undecided, unsat};
use crate::turns::take_turns;
use claim_check::{Certificate, ClaimVerdict, check};
use claim_reading::never_lines;
use claim_text::{TextRefused, append, read};
use command_words::Options;
use ltl_closure::Closure;
use ltl_io::Sink;
use ltl_syntax::FormulaTable;
use program_input::{PartReading, read_formula};
use std::alloc::{AllocError, Global};

/// The answer to the text of a formula. A text that is too long may be a front of the input.
pub fn refute<N: Sink>(
    alloc: Global,
    options: Options,
    text: &[u8],
    notes: &mut N,
) -> Result<Output, AllocError>
    ensures settled { IfOk result (λ out. (a : Answer)
        × IsSettled options.kind options.cert text.now a × Shows out a) }
    ensures silent { options.progress ≡ false → notes.new ≡ notes.old }
{
    match read_formula(alloc, text)? {
        PartReading::Refused(fault) => refusal(alloc, fault),
        PartReading::Formula { table, root } => settle(alloc, &table, root, options, notes),
    }
}

/// What the searches come to.
fn settle<N: Sink>(
    alloc: Global,
    table: &FormulaTable,
    root: u32,
    options: Options,
    notes: &mut N,
) -> Result<Output, AllocError>
    requires { root < length table.now.nodes }
    ensures found { IfOk result (λ out. (a : Answer)
        × IsFound options.kind options.cert (tree_at table.now root) a × Shows out a) }
    ensures silent { options.progress ≡ false → notes.new ≡ notes.old }
{
    let closure = Closure::of(alloc, table, root, options.kind)?;
    take_turns(alloc, &closure, options, notes)
}

/// UNSAT by a lawful certificate.
pub fn refuted(
    alloc: Global,
    closure: &Closure<'_>,
    cert: bool,
    found: &Certificate,
) -> Result<Output, AllocError>
    requires { IsLawful closure.now.formula closure.now.kind (certificate_in found.now) }
    ensures { IfOk result (λ out. (a : Answer)
        × IsFound closure.now.kind cert closure.now.formula a × Shows out a) }
{
    if cert {
        return refuted_by_text(alloc, closure, found);
    }
    let lines = never_lines(alloc, closure, found)?;
    unsat(alloc, &lines)
}

/// The same by the certificate's text. What the text is read as is judged once more, as `--check` does it,
/// since a lawful certificate need not have a text. Without a lawful one nothing is said.
fn refuted_by_text(
    alloc: Global,
    closure: &Closure<'_>,
    found: &Certificate,
) -> Result<Output, AllocError>
    ensures { IfOk result (λ out. (a : Answer)
        × IsFound closure.now.kind true closure.now.formula a × Shows out a) }
{
    let mut out = certified(alloc)?;
    let start = out.text.len();
    append(found, &mut out.text)?;
    let again = match read(alloc, &out.text[start..]) {
        Ok(again) => again,
        Err(TextRefused::Form(_)) => return undecided(alloc),
        Err(TextRefused::NoMemory) => return Err(AllocError),
    };
    match check(alloc, closure, closure.kind(), &again)? {
        ClaimVerdict::Verified => Ok(out),
        ClaimVerdict::Refused(_) => undecided(alloc),
    }
}
