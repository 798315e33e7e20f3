// The values of letters, a byte for each of a letter's two literals: propagation reads values more often than
// anything else, so what matters is that many of them fit into a cache, and that whether a literal is true is
// one read. It is inlined before all else, so that the place of a literal that was made from its number is
// that number again. After Een and Sorensson, An extensible SAT-solver (2003).
ghost use Rattle.std.specs.Prelude.{◌≡◌, ◌<◌, ◌↔◌, IsTrue, [], ◌∷◌, ◌++◌, length, Some, None, not};
ghost use Rattle.std.specs.Prelude.{if◌then◌else◌, is_ok, slice_set};
ghost use Rattle.cdcl_trail.specs.Values.{value_at, truth_place};

use cnf_base::Literal;
use std::alloc::{AllocError, Global};
use std::marker::Model;

/// Where it stands whether the literal is true.
#[inline(always)]
fn place(literal: Literal) -> usize
    ensures { result ≡ truth_place literal }
{
    2 * literal.letter.0 as usize + literal.negated as usize
}

/// The values of the letters below a number.
#[derive(Drop)]
pub struct Values {
    /// Whether each literal is true.
    truths: Vec<bool>,
}

impl Model for Values {
    ghost use Rattle.std.specs.Prelude.{List, Option, Bool};
    ghost use Rattle.cdcl_trail.specs.Values.{values_of, AreTruths};

    ghost Value = { List (Option Bool) };

    ghost view = { λ a. values_of a.truths.items };

    ghost invariant = { λ a. AreTruths a.truths.items };
}

impl Values {
    /// No letters.
    pub fn new(alloc: Global) -> Self
        ensures { result ≡ [] }
    {
        Values {
            truths: Vec::new(alloc),
        }
    }

    /// The number of letters.
    pub fn len(&self) -> usize
        ensures { result ≡ length self.now }
    {
        self.truths.len() / 2
    }

    /// Whether the literal is true.
    #[inline(always)]
    pub fn holds(&self, literal: Literal) -> bool
        requires { literal.letter.0 < length self.now }
        ensures { IsTrue result ↔ (value_at self.now literal.letter.0 ≡ Some (not literal.negated)) }
    {
        self.truths[place(literal)]
    }

    /// Puts a letter without a value behind the others.
    pub fn push(&mut self) -> Result<(), AllocError>
        ensures { self.new ≡ (if is_ok result then self.old ++ None ∷ [] else self.old) }
    {
        let count = self.truths.len();
        self.truths.push(false)?;
        match self.truths.push(false) {
            Ok(()) => {
                return Ok(());
            }
            Err(_) => {
                self.truths.truncate(count);
                return Err(AllocError);
            }
        }
    }

    /// Makes the literal true, whose letter has no value.
    pub fn set(&mut self, literal: Literal)
        requires known { literal.letter.0 < length self.old }
        requires unset { value_at self.old literal.letter.0 ≡ None }
        ensures { self.new ≡ slice_set self.old literal.letter.0 (Some (not literal.negated)) }
    {
        self.truths[place(literal)] = true;
    }

    /// Takes the value of the letter away, whose literal is true.
    pub fn clear(&mut self, literal: Literal)
        requires known { literal.letter.0 < length self.old }
        requires holds { value_at self.old literal.letter.0 ≡ Some (not literal.negated) }
        ensures { self.new ≡ slice_set self.old literal.letter.0 None }
    {
        self.truths[place(literal)] = false;
    }
}
