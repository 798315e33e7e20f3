//! Laws of derivations and of names. Each function is empty: its contract is the law, and a proof cites it by
//! a call.
ghost use Rattle.derivation.specs.Laws.{StepsFollow, HintsAreEarlier, NamedAreSteps, NamedAreOf, NamedBegin};
ghost use Rattle.derivation.specs.Laws.{NamedGrow, NamedAdd};

/// What satisfies the list satisfies the lines, and hints point back. Where the inputs of a log are named
/// clauses of a list, its lines are steps over the list.
pub fn following()
    ensures follow { StepsFollow }
    ensures earlier { HintsAreEarlier }
    ensures named { NamedAreSteps }
{}

/// Clauses under their names in a list.
pub fn naming()
    ensures of { NamedAreOf }
    ensures begin { NamedBegin }
    ensures grow { NamedGrow }
    ensures add { NamedAdd }
{}
