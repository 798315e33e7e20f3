// Which literals the line of a target may have. Target i, from 0 to the depth, says that no run is
// accepted at state i; the last one says that each run up to the depth is pruned.
ghost use Rattle.std.specs.Prelude.{◌≡◌, ◌+◌, ◌<◌, ◌≤◌, ◌↔◌, [], ◌∷◌, IsTrue, All, Contains};
ghost use Rattle.enc_layout.specs.Letters.{Fits};
ghost use Rattle.enc_layout.specs.Clauses.{layout_of};
ghost use Rattle.cert_check.specs.Lawful.{target_literals};
ghost use Rattle.cert_check.specs.Answer.{answer_of, targets_answer};

use crate::verdict::{Reason, Verdict};
use cert_text::Literals;
use cnf_base::Literal;
use enc_layout::{Layout, Part};
use ltl_closure::Closure;

/// The two literals that the line of a target may have. Targets count from 0 here.
pub fn allowed(closure: &Closure<'_>, depth: u32, index: u32) -> (Literal, Literal)
    requires few { depth ≤ 1000 }
    requires fits { Fits (layout_of closure.now) depth }
    requires index { index < depth + 2 }
    ensures { result.0 ∷ result.1 ∷ [] ≡ target_literals closure.now.formula closure.now.kind depth index }
{
    enc_layout::laws::numbering();
    let layout = Layout::of(closure);
    if index > depth {
        (layout.negative(depth, Part::Here), layout.may_prune())
    } else {
        (
            layout.negative(index, Part::Here),
            layout.negative(index, Part::Accepted),
        )
    }
}

/// Whether each of the literals is one of the two.
pub fn are_among(literals: Literals<'_>, first: Literal, second: Literal) -> bool
    ensures { IsTrue result ↔ All (Contains (first ∷ second ∷ [])) literals.entry }
{
    'literals: for literal in literals {
        if literal != first && literal != second {
            return false;
        }
    }
    true
}

/// The verdict where all lines are good: the first bad target, counted from 1, if there is one, is the reason
/// against it.
pub fn by_targets(bad: Option<u32>) -> Verdict
    ensures { answer_of result ≡ targets_answer bad }
{
    match bad {
        None => Verdict::Verified,
        Some(target) => Verdict::Rejected(Reason::Target(target)),
    }
}
