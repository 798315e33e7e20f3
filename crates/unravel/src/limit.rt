// The limit in force, and the decision at it.
ghost use Rattle.std.specs.Prelude.{◌≤◌, IfOk};
ghost use Rattle.enc_layout.specs.Letters.{Fits};
ghost use Rattle.enc_layout.specs.Clauses.{layout_of};
ghost use Rattle.enc_layout.specs.Limit.{IsInForce};
ghost use Rattle.unravel.specs.Decision.{IsDecisionInForce};

use crate::deciding::decide;
use crate::decision::Decision;
use enc_layout::Layout;
use ltl_closure::Closure;
use std::alloc::{AllocError, Global};

/// The limit in force: the greatest depth up to the asked one whose letters are few enough. Depth 0 is always
/// one.
pub fn limit_in_force(closure: &Closure<'_>, asked: u32) -> u32
    requires { asked ≤ 1000 }
    ensures force { IsInForce closure.now.formula closure.now.kind asked result }
    ensures fits { Fits (layout_of closure.now) result }
{
    let layout = Layout::of(closure);
    layout.greatest_depth(asked)
}

/// Decides the closure's formula over its kind of trace at the limit in force.
pub fn decide_in_force(
    alloc: Global,
    closure: &Closure<'_>,
    asked: u32,
) -> Result<Decision, AllocError>
    requires { asked ≤ 1000 }
    ensures { IfOk result (IsDecisionInForce closure.now.formula closure.now.kind asked) }
{
    let limit = limit_in_force(closure, asked);
    decide(alloc, closure, limit)
}
