// Parsing goes twice over the tokens: a walk finds the first fault and adds up the sizes, and only then is
// the table built. So the builder meets no fault, and a text that is refused costs no table.
ghost use Rattle.std.specs.Prelude.{◌≡◌, ◌+◌, ◌≤◌, length, IfOk, IfErr, None};
ghost use Rattle.ltl_lexer.specs.Tokens.{AreTokens};
ghost use Rattle.ltl_syntax.specs.Table.{IsRoot, tree_at};
ghost use Rattle.ltl_parser.specs.Grammar.{Reads};
ghost use Rattle.ltl_syntax.specs.Formula.{nodes_in};
ghost use Rattle.ltl_syntax.specs.Size.{sizes, formula_size};
ghost use Rattle.ltl_parser.specs.Text.{symbols, grammar_fault, names_of, IsAccepted, IsRefusal};

use crate::build::build;
use crate::walking::walk;
use ltl_lexer::Token;
use ltl_syntax::{FormulaTable, MAX_SIZE};
use std::alloc::Global;

/// Why tokens give no table, in the order in which the causes are tried.
#[derive(Clone, Copy, Debug, PartialEq, Eq)]
pub enum ParseRefused {
    /// The byte, counted from 0, of the token that may not stand where it does, or the length of the text
    /// where it ends too early.
    Grammar(u32),
    /// The sum of the sizes of the tokens other than parentheses, which is above 16,384.
    Nodes(u32),
    NoMemory,
}

/// The table of the formula that the tokens of the text read as, and the number of its root.
pub fn parse(
    alloc: Global,
    text: &[u8],
    tokens: &[Token],
) -> Result<(FormulaTable, u32), ParseRefused>
    requires size { length text.now ≤ 1048576 }
    requires tokens { AreTokens 0 text.now tokens.now None }
    ensures reads { IfOk result (λ r. Reads (symbols text.now tokens.now) (tree_at r.0 r.1)) }
    ensures accepted { IfOk result (λ r. IsAccepted text.now (tree_at r.0 r.1)) }

    // The table has the nodes of this formula and no others, the root last, and its names as the text brings
    // them.
    ensures root { IfOk result (λ r. IsRoot r.0 r.1) }
    ensures last { IfOk result (λ r. r.1 + 1 ≡ length r.0.nodes) }
    ensures count { IfOk result (λ r. length r.0.nodes ≡ nodes_in (tree_at r.0 r.1)) }
    ensures size { IfOk result (λ r. sizes r.0.nodes ≡ formula_size (tree_at r.0 r.1)) }
    ensures names { IfOk result (λ r. r.0.names ≡ names_of (symbols text.now tokens.now)) }

    ensures clean { IfOk result (λ r. grammar_fault text.now tokens.now ≡ None) }
    ensures refused { IfErr result (IsRefusal text.now tokens.now) }
{
    match walk(tokens) {
        Ok(size) if size > MAX_SIZE => Err(ParseRefused::Nodes(size)),
        Ok(_) => match build(alloc, text, tokens) {
            Ok(found) => Ok(found),
            Err(_) => Err(ParseRefused::NoMemory),
        },
        Err(i) if i < tokens.len() => Err(ParseRefused::Grammar(tokens[i].start)),
        Err(_) => Err(ParseRefused::Grammar(text.len() as u32)),
    }
}
