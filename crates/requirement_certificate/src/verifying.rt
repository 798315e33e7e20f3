// Whether `black-refute --check` verifies a text. Only the text counts: it is read again, and judged as it is
// there, wherever it comes from.
ghost use Rattle.std.specs.Prelude.{◌<◌, ◌↔◌, length, IfOk, IsTrue};
ghost use Rattle.ltl_syntax.specs.Table.{tree_at};
ghost use Rattle.requirement_certificate.specs.Verified.{IsLawfulText, IsVerified};

use claim_check::{ClaimVerdict, check};
use claim_text::{TextRefused, read};
use ltl_closure::Closure;
use ltl_syntax::{FormulaTable, Kind};
use program_input::{PartReading, cut, read_formula};
use std::alloc::{AllocError, Global};

/// Whether the text is that of a formula, a separator line, and a certificate that is lawful for the formula
/// and the kind.
pub fn is_verified(alloc: Global, kind: Kind, text: &[u8]) -> Result<bool, AllocError>
    ensures { IfOk result (λ verified. IsTrue verified ↔ IsVerified kind text.now) }
{
    ltl_parser::laws::one_outcome();
    let Some(parts) = cut(text) else {
        return Ok(false);
    };
    match read_formula(alloc, parts.formula)? {
        PartReading::Refused(_) => Ok(false),
        PartReading::Formula { table, root } => is_lawful(alloc, &table, root, kind, parts.second),
    }
}

/// Whether the text is that of a certificate that is lawful for the formula and the kind.
fn is_lawful(
    alloc: Global,
    table: &FormulaTable,
    root: u32,
    kind: Kind,
    text: &[u8],
) -> Result<bool, AllocError>
    requires { root < length table.now.nodes }
    ensures { IfOk result (λ lawful. IsTrue lawful ↔ IsLawfulText kind (tree_at table.now root) text.now) }
{
    claim_text::laws::texts();
    let certificate = match read(alloc, text) {
        Ok(certificate) => certificate,
        Err(TextRefused::Form(_)) => return Ok(false),
        Err(TextRefused::NoMemory) => return Err(AllocError),
    };
    let closure = Closure::of(alloc, table, root, kind)?;
    match check(alloc, &closure, kind, &certificate)? {
        ClaimVerdict::Verified => Ok(true),
        ClaimVerdict::Refused(_) => Ok(false),
    }
}
