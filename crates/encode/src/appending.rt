// The clauses of a step, put behind those that are there. Where memory runs out, the list is cut back to what
// it was.
ghost use Rattle.std.specs.Prelude.{◌≡◌, ◌≤◌, ◌++◌, OnOk, OnErr};
ghost use Rattle.enc_layout.specs.Letters.{Fits};
ghost use Rattle.enc_layout.specs.Clauses.{layout_of, step_clauses, signed_clauses};
ghost use Rattle.enc_layout.specs.Numbered.{Extends};

use cnf_base::{ClauseList, Clauses};
use enc_layout::Layout;
use ltl_closure::Closure;
use std::alloc::AllocError;

/// The parts of the step in their order.
fn push_parts(closure: &Closure<'_>, step: u32, out: &mut ClauseList) -> Result<(), AllocError>
    requires few { step ≤ 1000 }
    requires fits { Fits (layout_of closure.now) step }
    ensures ok { OnOk result (out.new ≡ out.old ++ signed_clauses closure.now.formula closure.now.kind
        (step_clauses closure.now.formula closure.now.kind step)) }
    ensures err { OnErr result (Extends out.old out.new) }
{
    enc_layout::laws::steps();
    let layout = Layout::of(closure);
    step_encode::append(closure, &layout, step, out)?;
    loop_encode::append(closure, &layout, step, out)?;
    prune_encode::append(closure, &layout, step, out)?;
    Ok(())
}

/// Appends the clauses of a step of the closure's formula. Steps count from 0, and those of a depth are the
/// steps up to it. Where memory runs out, the list is as before.
pub fn append(closure: &Closure<'_>, step: u32, out: &mut ClauseList) -> Result<(), AllocError>
    requires few { step ≤ 1000 }
    requires fits { Fits (layout_of closure.now) step }
    ensures ok { OnOk result (out.new ≡ out.old ++ signed_clauses closure.now.formula closure.now.kind
        (step_clauses closure.now.formula closure.now.kind step)) }
    ensures err { OnErr result (out.new ≡ out.old) }
{
    let count = out.count();
    match push_parts(closure, step, out) {
        Ok(()) => Ok(()),
        Err(_) => {
            out.truncate(count);
            Err(AllocError)
        }
    }
}
