// Whether assumptions contradict one another, in time linear in their number: each literal's sign is written
// at its letter, and then each is looked up. Where one stands beside its opposite, one of the two finds the
// other's sign.
ghost use Rattle.std.specs.Prelude.{IsTrue, All};
ghost use Rattle.cdcl.specs.Solving.{IsConsistent};
ghost use Rattle.claim_search.specs.Signs.{HasSign};

use cnf_base::Literal;

/// Writes the sign of each literal at its letter, where there is a place for it.
fn write_signs(literals: &[Literal], signs: &mut Vec<bool>) {
    for own in literals {
        let letter = own.letter.0 as usize;
        if letter < signs.len() {
            signs[letter] = own.negated;
        }
    }
}

/// Whether each literal has the sign that is written at its letter.
fn have_signs(literals: &[Literal], signs: &Vec<bool>) -> bool
    ensures { IsTrue result → All (HasSign signs.now.items) literals.now }
{
    for own in literals {
        let letter = own.letter.0 as usize;
        if letter >= signs.len() {
            return false;
        }
        if signs[letter] != own.negated {
            return false;
        }
    }
    true
}

/// Whether no literal stands beside its opposite. `signs` has room for each letter; what stood in it does
/// not matter.
#[tactic(auto, using(crate::proofs::Signs::consistent))]
pub fn is_consistent(literals: &[Literal], signs: &mut Vec<bool>) -> bool
    ensures { IsTrue result → IsConsistent literals.now }
{
    write_signs(literals, signs);
    have_signs(literals, signs)
}
