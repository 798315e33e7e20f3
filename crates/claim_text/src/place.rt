// Where a pass over a text is, and what a byte has it do.

use cnf_base::{Hint, Literal};
use ltl_syntax::Kind;

/// Whose lines and targets may come: those of the close, or those of a layer's base or step.
#[derive(Clone, Copy, Drop)]
pub enum Section {
    Outside,
    Base,
    Step,
}

/// What a number will be.
#[derive(Clone, Copy, Drop)]
pub enum Role {
    Eventuality,
    Literal { claim: bool, negated: bool },
    Hint { negated: bool },
    Target,
}

/// Where the next byte decides how the text goes on.
#[derive(Clone, Copy, Drop)]
pub enum Place {
    Kind,
    Item,
    Literal { claim: bool },
    Hint,
    First(Role),
    More(Role, u64),
    End,
}

/// What is read with a byte.
#[derive(Clone, Copy, Drop)]
pub enum Act {
    Nothing,
    Kind(Kind),
    Layer(Option<u32>),
    Claim,
    Line,
    Literal(Literal),
    Hint(Hint),
    Target(u64),
    Last(u64),
}
