//! Laws of formulas whose past operators are taken out. Each function is empty: its contract is the
//! law, and a proof cites it by a call.
ghost use Rattle.depast.specs.Rows.{WorkedRemovals};
ghost use Rattle.depast.specs.Laws.{IsWithoutPast, NamesAreFew, FewNames, EachHasAxiom, FewWhereSmall};
ghost use Rattle.depast.specs.Laws.{ResiduesAgree, AxiomsHold, TracesAreLifted, LiftedSatisfy};
ghost use Rattle.depast.specs.Laws.{TracesAreLowered, LoweredSatisfy, AreEquisatisfiable};

/// No past operator is left.
pub fn without_past()
    ensures { IsWithoutPast }
{}

/// A formula takes no more names than its size, and each has an axiom, so one that is in a table
/// before or afterwards takes few.
pub fn few_names()
    ensures size { NamesAreFew }
    ensures few { FewNames }
    ensures counted { EachHasAxiom }
    ensures small { FewWhereSmall }
{}

/// A lifted trace has the new names where their past formulas held.
pub fn lifting()
    ensures residues { ResiduesAgree }
    ensures axioms { AxiomsHold }
    ensures lifted { TracesAreLifted }
    ensures satisfies { LiftedSatisfy }
{}

/// A lowered trace has no new names.
pub fn lowering()
    ensures lowered { TracesAreLowered }
    ensures satisfies { LoweredSatisfy }
{}

/// A formula has a trace of a kind exactly where the one without past has.
pub fn equisatisfiable()
    ensures { AreEquisatisfiable }
{}

/// What the definitions give for formulas whose past operators were taken out by hand.
pub fn worked_removals()
    ensures { WorkedRemovals }
{}
