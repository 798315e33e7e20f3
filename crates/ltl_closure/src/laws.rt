//! Closures, normal forms and bounds that were written out by hand. Each function is empty: its contract is
//! the law.
ghost use Rattle.ltl_closure.specs.Worked.{WorkedNormalForms, WorkedClosures, WorkedBounds};

/// What the definitions give for a few small formulas.
pub fn worked_closures()
    ensures forms { WorkedNormalForms }
    ensures closures { WorkedClosures }
    ensures bounds { WorkedBounds }
{}
