//! Appends the clauses that speak of pairs of states and of acceptance: where two states have one carry, what
//! is fulfilled between them, when a run may loop from the later one to the earlier, and when it is accepted.
#![tactic(auto)]

ghost use Rattle.std.specs.Prelude.{◌≡◌, ◌≤◌, ◌++◌, OnOk, OnErr};
ghost use Rattle.enc_layout.specs.Letters.{Fits};
ghost use Rattle.enc_layout.specs.Clauses.{layout_of, loop_clauses, signed_clauses};

use clause_index::{Indexed, StepSection};
use cnf_base::{ClauseList, Clauses};
use enc_layout::Layout;
use ltl_closure::Closure;
use std::alloc::AllocError;

/// Appends what the letters of a step's pairs mean, each earlier step in turn, and then by what rule the run
/// up to the step is accepted. Where memory runs out, the list is as before.
pub fn append(
    closure: &Closure<'_>,
    layout: &Layout,
    step: u32,
    out: &mut ClauseList,
) -> Result<(), AllocError>
    requires own { layout.now ≡ layout_of closure.now }
    requires few { step ≤ 1000 }
    requires fits { Fits layout.now step }
    ensures ok { OnOk result (out.new ≡ out.old ++ signed_clauses closure.now.formula closure.now.kind
        (loop_clauses closure.now.formula closure.now.kind step)) }
    ensures err { OnErr result (out.new ≡ out.old) }
{
    let indexed = Indexed::of(closure, step);
    let count = out.count();
    indexed.append(step, StepSection::Pairs, out)?;
    match indexed.append(step, StepSection::Acceptance, out) {
        Ok(()) => Ok(()),
        Err(_) => {
            // The pairs are there already.
            out.truncate(count);
            Err(AllocError)
        }
    }
}
