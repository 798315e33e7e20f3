// The one way from bytes to a formula. What may be wrong is tried in one order: the length of the text, its
// tokens, their formula, the size of that.
ghost use Rattle.std.specs.Prelude.{IfOk};
ghost use Rattle.formula_reading.specs.Reading.{IsFormulaReading};

use ltl_lexer::{LexRefused, tokens};
use ltl_parser::{ParseRefused, parse};
use ltl_syntax::FormulaTable;
use std::alloc::{AllocError, Global};

/// The most bytes of a text.
pub const MAX_TEXT: usize = 1_048_576;

/// Why a text is no formula within the limits, in the order in which the causes are tried.
#[derive(Clone, Copy, Debug, PartialEq, Eq)]
pub enum FormulaFault {
    /// The text has more than 1,048,576 bytes.
    Long,
    /// No token begins at this byte, counted from 0.
    Lexical(u32),
    /// The token at this byte may not stand where it does; the length of the text where it ends too early.
    Grammar(u32),
    /// The sum of the sizes of the formula's nodes, which is above 16,384.
    Nodes(u32),
}

/// What a text is read as.
#[derive(Drop)]
pub enum Reading {
    /// The formula is the tree under the root. The table has no other nodes.
    Formula { table: FormulaTable, root: u32 },
    Refused(FormulaFault),
}

/// Reads the text of a formula.
pub fn read_formula(alloc: Global, text: &[u8]) -> Result<Reading, AllocError>
    ensures { IfOk result (IsFormulaReading text.now) }
{
    ltl_parser::laws::read_without_fault();
    ltl_parser::laws::nodes_of_text();
    if text.len() > MAX_TEXT {
        return Ok(Reading::Refused(FormulaFault::Long));
    }
    let tokens = match tokens(alloc, text) {
        Ok(tokens) => tokens,
        Err(LexRefused::Lexical(byte)) => return Ok(Reading::Refused(FormulaFault::Lexical(byte))),
        Err(LexRefused::NoMemory) => return Err(AllocError),
    };
    match parse(alloc, text, &tokens) {
        Ok((table, root)) => Ok(Reading::Formula { table, root }),
        Err(ParseRefused::Grammar(byte)) => Ok(Reading::Refused(FormulaFault::Grammar(byte))),
        Err(ParseRefused::Nodes(size)) => Ok(Reading::Refused(FormulaFault::Nodes(size))),
        Err(ParseRefused::NoMemory) => Err(AllocError),
    }
}
