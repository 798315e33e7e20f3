// The tests for what the solver asks of a caller: that letters are known, and that no literal stands beside
// its opposite.
ghost use Rattle.std.specs.Prelude.{IsTrue, All, ◌↔◌};
ghost use Rattle.cnf_base.specs.Known.{IsKnown};
ghost use Rattle.cdcl.specs.Solving.{IsConsistent};

use cdcl_state::has;
use cnf_base::Literal;

/// Whether the literals are of letters from 1 to the count.
pub fn are_known(letters: u32, literals: &[Literal]) -> bool
    ensures { IsTrue result ↔ All (IsKnown letters) literals.now }
{
    for literal in literals {
        if literal.letter.0 < 1 {
            return false;
        }
        if letters < literal.letter.0 {
            return false;
        }
    }
    true
}

/// Whether no literal stands beside its opposite.
pub fn are_consistent(literals: &[Literal]) -> bool
    ensures { IsTrue result ↔ IsConsistent literals.now }
{
    for literal in literals {
        if has(literals, literal.opposite()) {
            return false;
        }
    }
    true
}
