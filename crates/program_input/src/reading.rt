// The formula of the formula part of an input, or its refusal.
ghost use Rattle.std.specs.Prelude.{◌≡◌, IfOk};
ghost use Rattle.program_input.specs.Reading.{IsPartReading, refusal_of};

use formula_reading::FormulaFault;
use ltl_syntax::FormulaTable;
use report::Fault;
use std::alloc::{AllocError, Global};

/// What a text is read as.
#[derive(Drop)]
pub enum PartReading {
    /// The formula is the tree under the root.
    Formula { table: FormulaTable, root: u32 },
    Refused(Fault),
}

/// Reads the text of a formula.
pub fn read_formula(alloc: Global, text: &[u8]) -> Result<PartReading, AllocError>
    ensures { IfOk result (IsPartReading text.now) }
{
    match formula_reading::read_formula(alloc, text)? {
        formula_reading::Reading::Formula { table, root } => Ok(PartReading::Formula {
            table,
            root,
        }),
        formula_reading::Reading::Refused(fault) => Ok(PartReading::Refused(refusal_of(fault))),
    }
}

/// How a text with this fault is refused.
fn refusal_of(fault: FormulaFault) -> Fault
    ensures { result ≡ refusal_of fault }
{
    match fault {
        FormulaFault::Long => Fault::Text,
        FormulaFault::Lexical(byte) => Fault::Lexical(byte),
        FormulaFault::Grammar(byte) => Fault::Grammar(byte),
        FormulaFault::Nodes(count) => Fault::Nodes(count),
    }
}
