// Literals by their numbers.
ghost use Rattle.std.specs.Prelude.{◌≡◌};
ghost use Rattle.cnf_base.specs.Worked.{plus as plus_of, minus as minus_of};

use cnf_base::{Letter, Literal};

/// A letter as a literal.
pub fn plus(letter: u32) -> Literal
    ensures { result ≡ plus_of letter }
{
    Literal {
        letter: Letter(letter),
        negated: false,
    }
}

/// A negated letter.
pub fn minus(letter: u32) -> Literal
    ensures { result ≡ minus_of letter }
{
    Literal {
        letter: Letter(letter),
        negated: true,
    }
}
