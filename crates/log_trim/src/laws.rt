//! Laws of the lines that some lines of a derivation stand on. Each function is empty: its contract is
//! the law, and a proof cites it by a call.
ghost use Rattle.log_trim.specs.Examples.{WorkedTrimming};
ghost use Rattle.log_trim.specs.Laws.{TrimmedAreSteps, TrimmedKeeps, TargetsKeep, TrimmedIsKnown};
ghost use Rattle.log_trim.specs.Laws.{TrimmedAreLines, TrimmedIsShorter, PushingStarts, PushingMay};
ghost use Rattle.log_trim.specs.Laws.{PushingGoesOn, PushingSkips, PushingEnds, TableGoesOn, TableHas};
ghost use Rattle.log_trim.specs.Laws.{SettingMarks, TargetIsMarked, MarkingStarts, NoHintsAdd, HintIsMarked};
ghost use Rattle.log_trim.specs.Laws.{ClauseIsPassed, LineIsVisited, LineIsPassed, MarkingEnds, HintIsThere};
ghost use Rattle.log_trim.specs.Laws.{NeededAreLines};

/// The marked lines are steps over the same list, where what they name is marked.
pub fn trimming()
    ensures steps { TrimmedAreSteps }
    ensures keeps { TrimmedKeeps }
    ensures targets { TargetsKeep }
    ensures within { TrimmedIsKnown }
    ensures lines { TrimmedAreLines }
    ensures shorter { TrimmedIsShorter }
{}

/// What the definitions give for lines that were trimmed by hand.
pub fn worked_trimming()
    ensures { WorkedTrimming }
{}

/// How a loop forwards pushes the marked lines.
pub fn pushing()
    ensures starts { PushingStarts }
    ensures may { PushingMay }
    ensures on { PushingGoesOn }
    ensures skips { PushingSkips }
    ensures ends { PushingEnds }
{}

/// How it keeps the new numbers.
pub fn numbering()
    ensures on { TableGoesOn }
    ensures has { TableHas }
{}

/// How a loop backwards marks what is needed.
pub fn marking()
    ensures sets { SettingMarks }
    ensures target { TargetIsMarked }
    ensures starts { MarkingStarts }
    ensures none { NoHintsAdd }
    ensures hint { HintIsMarked }
    ensures clause { ClauseIsPassed }
    ensures line { LineIsVisited }
    ensures passed { LineIsPassed }
    ensures ends { MarkingEnds }
{}

/// Where hints and needed lines lie.
pub fn earlier()
    ensures there { HintIsThere }
    ensures needed { NeededAreLines }
{}
