// What to decide next: the assumptions in their order, and then whatever the state offers. An assumption that
// is true already opens no level. After Een and Sorensson, Temporal induction by incremental SAT solving
// (2003).
ghost use Rattle.std.specs.Prelude.{IsTrue, All, None};
ghost use Rattle.cnf_base.specs.Known.{IsKnown};
ghost use Rattle.cdcl.specs.Choice.{IsChoice, IsAssumedTop, IsFreeTop};

use cdcl_state::{State, has};
use cnf_base::Literal;

/// What to do where no clause is false or unit.
#[derive(Clone, Copy, Drop)]
pub enum Choice {
    /// The first assumption without a value.
    Assume(Literal),
    /// An assumption that is false.
    Refuted(Literal),
    /// All assumptions are true, and this literal has no value.
    Search(Literal),
    /// All assumptions are true, and each letter of an input has a value.
    Done,
}

/// Chooses by the values of the assumptions and the letters.
pub fn choose(state: &State, assumptions: &[Literal]) -> Choice
    requires { All (IsKnown state.now.letters) assumptions.now }
    ensures { IsChoice state.now assumptions.now result }
{
    for assumption in assumptions {
        match state.value(*assumption) {
            None => return Choice::Assume(*assumption),
            Some(value) => {
                if !value {
                    return Choice::Refuted(*assumption);
                }
            }
        }
    }
    match state.free() {
        Some(literal) => Choice::Search(literal),
        None => Choice::Done,
    }
}

/// Whether no decision was made but of assumptions, by the last decision.
pub fn is_assumed(state: &State, assumptions: &[Literal]) -> bool
    ensures yes { IsTrue result → IsAssumedTop state.now.trail assumptions.now }
    ensures no { ¬ IsTrue result → IsFreeTop state.now.trail assumptions.now }
{
    match state.top() {
        None => true,
        Some(literal) => has(assumptions, literal),
    }
}
