// The values of letters while one line is judged: a byte for each, and the letters that were set, so that
// what undoing costs is what was set. Both are as long as they may grow when they are made, and judging
// takes no memory.
ghost use Rattle.std.specs.Prelude.{◌≡◌, ◌+◌, ◌-◌, ◌<◌, ◌↔◌, IsTrue, List, length};
ghost use Rattle.std.specs.Prelude.{replicate, slice_index_or, slice_set, IfOk};
ghost use Rattle.cnf_base.specs.Known.{IsKnown};
ghost use Rattle.log_checker.specs.Values.{letters_in, value_of, false_of, AreSet};
ghost use Rattle.log_checker.specs.declared.assignment.Truth.TheVariants.{Unset};

use cnf_base::Literal;
use std::alloc::{AllocError, Global};
use std::marker::Model;

/// The value of a letter or of a literal.
#[derive(Clone, Copy, Debug, Drop)]
pub enum Truth {
    Unset,
    True,
    False,
}

/// The value of a letter whose literal is false.
fn where_false(literal: Literal) -> Truth
    ensures { result ≡ false_of literal.negated }
{
    if literal.negated {
        Truth::True
    } else {
        Truth::False
    }
}

/// The values of the letters from 1 to a greatest one.
#[derive(Drop)]
pub struct Assignment {
    /// By the letter's number; there is no letter 0.
    values: Vec<Truth>,
    /// The letters that were set, in front; what stands behind `used` means nothing.
    trail: Vec<u32>,
    used: usize,
}

impl Model for Assignment {
    ghost use Rattle.std.specs.Prelude.{List};
    ghost use Rattle.log_checker.specs.Values.{AreSet};
    ghost use Rattle.log_checker.specs.declared.assignment.Truth.{Truth};

    ghost Value = { List Truth };

    ghost view = { λ a. a.values.items };

    ghost invariant = { λ a. AreSet a.values.items a.trail.items a.used };
}

impl Assignment {
    /// No letter has a value.
    pub fn new(alloc: Global, letters: u32) -> Result<Assignment, AllocError>
        ensures { IfOk result (λ a. a ≡ replicate (letters + 1) Unset) }
    {
        let size = letters as usize + 1;
        let values = Vec::from_elem(alloc, Truth::Unset, size)?;
        let trail = Vec::from_elem(alloc, 0u32, size)?;
        Ok(Assignment {
            values,
            trail,
            used: 0,
        })
    }

    /// Whether the literal's letter is one of those from 1 to the greatest.
    pub fn knows(&self, literal: Literal) -> bool
        ensures { IsTrue result ↔ IsKnown (letters_in self.now) literal }
    {
        let letter = literal.letter.0 as usize;
        letter >= 1 && letter < self.values.len()
    }

    /// The value of the literal.
    pub fn value(&self, literal: Literal) -> Truth
        requires { literal.letter.0 < length self.now }
        ensures { result ≡ value_of self.now literal }
    {
        let value = self.values[literal.letter.0 as usize];
        if let Truth::Unset = value {
            return Truth::Unset;
        }
        let is_true = matches!(value, Truth::True);
        if is_true == literal.negated {
            Truth::False
        } else {
            Truth::True
        }
    }

    /// Makes a literal false that has no value.
    pub fn falsify(&mut self, literal: Literal)
        requires known { literal.letter.0 < length self.old }
        requires unset { slice_index_or self.old literal.letter.0 Unset ≡ Unset }
        ensures { self.new ≡ slice_set self.old literal.letter.0 (false_of literal.negated) }
    {
        let letter = literal.letter.0;
        self.trail[self.used] = letter;
        self.used += 1;
        self.values[letter as usize] = where_false(literal);
    }

    /// Takes the values of all letters away.
    pub fn clear(&mut self)
        ensures { self.new ≡ replicate (length self.old) Unset }
    {
        'undo: while self.used > 0 {
            let last = self.used - 1;
            let letter = self.trail[last] as usize;
            self.values[letter] = Truth::Unset;
            self.used = last;
        }
    }
}
