//! Appends the clauses that say which pairs of states prune a run.
#![tactic(auto)]

ghost use Rattle.std.specs.Prelude.{◌≡◌, ◌≤◌, ◌++◌, OnOk, OnErr};
ghost use Rattle.enc_layout.specs.Letters.{Fits};
ghost use Rattle.enc_layout.specs.Clauses.{layout_of, prune_clauses, signed_clauses};

use clause_index::{Indexed, StepSection};
use cnf_base::ClauseList;
use enc_layout::Layout;
use ltl_closure::Closure;
use std::alloc::AllocError;

/// Appends what says at which pairs of the step, counted from 0, and an earlier one a run is pruned. Where
/// memory runs out, the list is as before.
pub fn append(
    closure: &Closure<'_>,
    layout: &Layout,
    step: u32,
    out: &mut ClauseList,
) -> Result<(), AllocError>
    requires own { layout.now ≡ layout_of closure.now }
    requires few { step ≤ 1000 }
    requires fits { Fits layout.now step }
    ensures ok { OnOk result (out.new ≡ out.old ++ signed_clauses closure.now.formula closure.now.kind
        (prune_clauses closure.now.formula closure.now.kind step)) }
    ensures err { OnErr result (out.new ≡ out.old) }
{
    Indexed::of(closure, step).append(step, StepSection::Pruning, out)
}
