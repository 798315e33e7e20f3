// Letters, literals and hints: what clauses are made of, and what shows that one follows from others.
ghost use Rattle.std.specs.Prelude.{◌≡◌};
ghost use Rattle.cnf_base.specs.Literal.{opposite};

/// A propositional letter, by its number from 1 upwards.
#[derive(Clone, Copy, PartialEq, Eq, Debug, Drop)]
pub struct Letter(pub u32);

/// A letter or its negation.
#[derive(Clone, Copy, PartialEq, Eq, Debug, Drop)]
pub struct Literal {
    pub letter: Letter,
    pub negated: bool,
}

/// Names a clause of the list or an earlier line, each counted from 1.
#[derive(Clone, Copy, PartialEq, Eq, Debug, Drop)]
pub enum Hint {
    Clause(u64),
    Line(u64),
}

impl Literal {
    /// The literal that is true where this one is false.
    pub fn opposite(self) -> Literal
        ensures { result ≡ opposite self }
    {
        Literal {
            letter: self.letter,
            negated: !self.negated,
        }
    }
}
