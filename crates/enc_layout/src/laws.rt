//! Laws of the letters and the clause list. Each function is empty: its contract is the law, and a proof
//! cites it by a call.
ghost use Rattle.enc_layout.specs.Rows.{WorkedLists, WorkedCounts};
ghost use Rattle.enc_layout.specs.Laws.{NumbersArePlaces, LettersAreCounted, FirstStatesFit, LowerDepthsFit};
ghost use Rattle.enc_layout.specs.Laws.{LettersAreKnown, ListsBegin, ListsGrow, StepsAreParts};
ghost use Rattle.enc_layout.specs.Laws.{AssignmentsRun, AssignmentsAccept, AssignmentsLoop, AssignmentsEmpty};
ghost use Rattle.enc_layout.specs.Laws.{AssignmentsEnd, AssignmentsAreUnpruned, RunsAreAssigned};
ghost use Rattle.enc_layout.specs.Laws.{AcceptedRunsAreAssigned, UnprunedRunsAreAssigned, RunQuestionsAnswer};
ghost use Rattle.enc_layout.specs.Laws.{AcceptedQuestionsAnswer, UnprunedQuestionsAnswer};

/// Numbers and letters agree, and each letter of the list is known. Depth 0 is within the limit, and what is
/// below a depth within it.
pub fn numbering()
    ensures place { NumbersArePlaces }
    ensures count { LettersAreCounted }
    ensures first { FirstStatesFit }
    ensures lower { LowerDepthsFit }
    ensures known { LettersAreKnown }
{}

/// The list grows step by step, and a step part by part.
pub fn steps()
    ensures first { ListsBegin }
    ensures more { ListsGrow }
    ensures parts { StepsAreParts }
{}

/// An assignment that makes the clause list true with letters of step k gives a run by the letters of the
/// entries, and the letters of acceptance and of loops say by which rule it is accepted.
pub fn assignment_runs()
    ensures run { AssignmentsRun }
    ensures accepted { AssignmentsAccept }
    ensures looping { AssignmentsLoop }
    ensures empty { AssignmentsEmpty }
    ensures ends { AssignmentsEnd }
    ensures unpruned { AssignmentsAreUnpruned }
{}

/// Each such run extends to such an assignment.
pub fn run_assigns()
    ensures run { RunsAreAssigned }
    ensures accepted { AcceptedRunsAreAssigned }
    ensures unpruned { UnprunedRunsAreAssigned }
{}

/// What the two questions of a depth ask, and what tells whether there is a run at all.
pub fn questions()
    ensures run { RunQuestionsAnswer }
    ensures accepted { AcceptedQuestionsAnswer }
    ensures unpruned { UnprunedQuestionsAnswer }
{}

/// What the definitions give for lists and counts that were worked by hand.
pub fn worked_lists()
    ensures lists { WorkedLists }
    ensures counts { WorkedCounts }
{}
