//! Laws of clauses on demand: a part of the clause list is enough, and an assignment is looked at as a run.
//! Each function is empty: its contract is the law, and a proof cites it by a call.
ghost use Rattle.demand.specs.Worked.{WorkedLooks};
ghost use Rattle.demand.specs.Laws.{StatesRun, InputsRun, StatesBegin, StatesGrow, RowsAreRead, CloseAccepts};
ghost use Rattle.demand.specs.Laws.{NoCloseRejects, AcceptedCloses, PruningPrunes, NoPruningIsUnpruned};
ghost use Rattle.demand.specs.Laws.{NoPruningsIsUnpruned, PruningsAreFound, RowsDecide, DoneIsLast};
ghost use Rattle.demand.specs.Laws.{DifferencesTell, DifferencesAre, LookingAccepts, LookingUnpruned};
ghost use Rattle.demand.specs.Laws.{NoRunByPart, NoAcceptedByPart, NoUnprunedByPart, OfListsGrow};
ghost use Rattle.demand.specs.Laws.{WholeIsOfList, FirstStateNumbers, StateNumbers, PartsFollow};
ghost use Rattle.demand.specs.Laws.{InputsAreKnown};

/// The clauses of the states give a run.
pub fn states_run()
    ensures run { StatesRun }
    ensures inputs { InputsRun }
    ensures begin { StatesBegin }
    ensures grow { StatesGrow }
    ensures rows { RowsAreRead }
{}

/// How a run closes is found by looking.
pub fn closing()
    ensures accepts { CloseAccepts }
    ensures rejects { NoCloseRejects }
    ensures found { AcceptedCloses }
{}

/// What prunes a run is found by looking.
pub fn pruning()
    ensures prunes { PruningPrunes }
    ensures none { NoPruningIsUnpruned }
    ensures unpruned { NoPruningsIsUnpruned }
    ensures found { PruningsAreFound }
{}

/// What is found in rows, by their values alone.
pub fn rows()
    ensures decide { RowsDecide }
    ensures last { DoneIsLast }
    ensures differences { DifferencesTell }
    ensures place { DifferencesAre }
{}

/// An assignment is looked at by the rows that are read of it.
pub fn looking()
    ensures accepts { LookingAccepts }
    ensures unpruned { LookingUnpruned }
{}

/// Where a part of the list has no assignment, there is no run.
pub fn asking()
    ensures run { NoRunByPart }
    ensures accepted { NoAcceptedByPart }
    ensures unpruned { NoUnprunedByPart }
    ensures grow { OfListsGrow }
    ensures whole { WholeIsOfList }
    ensures part { PartsFollow }
    ensures known { InputsAreKnown }
{}

/// The numbers of the clauses of the states.
pub fn numbering()
    ensures first { FirstStateNumbers }
    ensures later { StateNumbers }
{}

/// What is found in rows that were worked by hand.
pub fn worked_looks()
    ensures { WorkedLooks }
{}
