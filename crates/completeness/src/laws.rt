//! Laws of completeness. Each function is empty: its contract is the law, and a proof cites it by a call.
ghost use Rattle.completeness.specs.Reaching.{StepsAreComplete};
ghost use Rattle.completeness.specs.Refuted.{RefutationIsThere, ClausesAreFew, RefutationsAreDecided};
ghost use Rattle.completeness.specs.Trimmable.{TrimmedIsThere};

/// What a list of clauses entails is a line of some hinted steps over it, behind any others.
pub fn steps_are_complete()
    ensures { StepsAreComplete }
{}

/// Each formula that the tableau refutes has lines and targets that refute it, and it is decided whether
/// there are some with no more lines than a number. A certificate can number the clauses that they stand on.
pub fn some_refutation()
    ensures there { RefutationIsThere }
    ensures few { ClausesAreFew }
    ensures decided { RefutationsAreDecided }
{}

/// Steps can be trimmed to the lines that given targets stand on.
pub fn some_trimmed()
    ensures { TrimmedIsThere }
{}
