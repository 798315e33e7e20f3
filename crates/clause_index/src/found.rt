// A clause that was found: its first literals, and for a long clause how its others follow one another, so
// that no clause needs memory of its own.
ghost use Rattle.std.specs.Prelude.{◌≡◌, ◌<◌, length, slice_get};
ghost use Rattle.clause_index.specs.Literals.{literals};

use crate::run::Run;
use cnf_base::Literal;

/// A clause of the list.
#[derive(Drop)]
pub enum Found {
    One(Literal),
    Two(Literal, Literal),
    Three(Literal, Literal, Literal),
    /// A literal, and then those of a run.
    OneAnd(Literal, Run),
    /// Two literals, and then those of a run.
    TwoAnd(Literal, Literal, Run),
    /// Three literals, and then those of a run.
    ThreeAnd(Literal, Literal, Literal, Run),
}

impl Found {
    /// The number of literals, repeats counted.
    pub fn len(&self) -> u32
        ensures { result ≡ length (literals self.now) }
    {
        match self {
            Found::One(_) => 1,
            Found::Two(..) => 2,
            Found::Three(..) => 3,
            Found::OneAnd(_, more) => 1 + more.len(),
            Found::TwoAnd(_, _, more) => 2 + more.len(),
            Found::ThreeAnd(_, _, _, more) => 3 + more.len(),
        }
    }

    /// The literal at a place, from 0.
    pub fn literal(&self, place: u32) -> Literal
        requires { place < length (literals self.now) }
        ensures { slice_get (literals self.now) place ≡ Some result }
    {
        match (self, place) {
            (Found::One(first), _) => *first,
            (Found::Two(first, _), 0) => *first,
            (Found::Two(_, second), _) => *second,
            (Found::Three(first, ..), 0) => *first,
            (Found::Three(_, second, _), 1) => *second,
            (Found::Three(_, _, third), _) => *third,
            (Found::OneAnd(first, _), 0) => *first,
            (Found::OneAnd(_, more), _) => more.literal(place - 1),
            (Found::TwoAnd(first, ..), 0) => *first,
            (Found::TwoAnd(_, second, _), 1) => *second,
            (Found::TwoAnd(_, _, more), _) => more.literal(place - 2),
            (Found::ThreeAnd(first, ..), 0) => *first,
            (Found::ThreeAnd(_, second, ..), 1) => *second,
            (Found::ThreeAnd(_, _, third, _), 2) => *third,
            (Found::ThreeAnd(_, _, _, more), _) => more.literal(place - 3),
        }
    }
}
