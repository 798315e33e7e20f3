// Literals by their numbers: twice the letter, and one more where it is negated. A number takes half the
// memory of a literal, and lists of watchers are mostly memory that is read. After Een and Sorensson, An
// extensible SAT-solver (2003).
ghost use Rattle.std.specs.Prelude.{◌≡◌, ◌<◌, ◌^◌};
ghost use Rattle.cdcl_watches.specs.Watching.{code, literal_of};

use cnf_base::{Letter, Literal};

/// A literal by its number.
#[derive(Clone, Copy, Drop)]
pub struct Code(pub u32);

/// The number of a literal.
pub fn encode(literal: Literal) -> Code
    requires { code literal < 2 ^ 32 }
    ensures { result.0 ≡ code literal }
{
    Code(2 * literal.letter.0 + literal.negated as u32)
}

/// The literal of a number.
#[inline(always)]
pub fn decode(number: Code) -> Literal
    ensures { result ≡ literal_of number.0 }
{
    Literal {
        letter: Letter(number.0 / 2),
        negated: number.0 % 2 == 1,
    }
}
