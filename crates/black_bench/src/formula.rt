// A formula from a source, or the status with which the program ends where there is none.
ghost use Rattle.std.specs.Prelude.{◌<◌, length, IfOk};

use formula_reading::{FormulaFault, MAX_TEXT, Reading};
use ltl_io::{Source, read_whole};
use ltl_syntax::FormulaTable;
use std::alloc::Global;

/// Reads the source to its end, and the formula that its text spells.
pub fn read_formula<S: Source>(alloc: Global, source: &mut S) -> Result<(FormulaTable, u32), u8>
    ensures { IfOk result (λ r. r.1 < length r.0.nodes) }
{
    let Ok(text) = read_whole(alloc, source, MAX_TEXT) else {
        return Err(5);
    };
    formula_of(alloc, &text)
}

/// The formula that a text spells.
pub fn formula_of(alloc: Global, text: &[u8]) -> Result<(FormulaTable, u32), u8>
    ensures { IfOk result (λ r. r.1 < length r.0.nodes) }
{
    match formula_reading::read_formula(alloc, text) {
        Ok(Reading::Formula { table, root }) => Ok((table, root)),
        Ok(Reading::Refused(FormulaFault::Long)) => Err(4),
        Ok(Reading::Refused(_)) | Err(_) => Err(3),
    }
}
