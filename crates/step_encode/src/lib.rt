//! Appends the clauses that speak of states: that each is there after the one before it, the gates of its
//! entries, and its requests.
#![tactic(auto)]

ghost use Rattle.std.specs.Prelude.{◌≡◌, ◌≤◌, ◌++◌, OnOk, OnErr};
ghost use Rattle.enc_layout.specs.Letters.{Fits};
ghost use Rattle.enc_layout.specs.Clauses.{layout_of, state_clauses, signed_clauses};

use clause_index::{Indexed, StepSection};
use cnf_base::ClauseList;
use enc_layout::Layout;
use ltl_closure::Closure;
use std::alloc::AllocError;

/// Appends what the letters of a step's states mean: that the state before it is there, the gates of the
/// entries, and the requests. Where memory runs out, the list is as before.
pub fn append(
    closure: &Closure<'_>,
    layout: &Layout,
    step: u32,
    out: &mut ClauseList,
) -> Result<(), AllocError>
    requires own { layout.now ≡ layout_of closure.now }
    requires few { step ≤ 1000 }
    requires fits { Fits layout.now step }
    ensures ok { OnOk result (out.new ≡ out.old ++ signed_clauses closure.now.formula closure.now.kind
        (state_clauses closure.now.formula step)) }
    ensures err { OnErr result (out.new ≡ out.old) }
{
    Indexed::of(closure, step).append(step, StepSection::States, out)
}
