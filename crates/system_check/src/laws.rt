//! Laws of finite systems. Each function is empty: its contract is the law, and a proof cites it by a call.
ghost use Rattle.system_check.specs.Laws.{StartsAreSteps, StepsAreTwo, StartsAreOne, TwoReadsSets};
ghost use Rattle.system_check.specs.Laws.{PathsSatisfy, FailingPathsSatisfy, WholeIsLong, SystemIsNoLarger};
ghost use Rattle.system_check.specs.Laws.{SystemFits, JoiningIsOne, NoPathIsRight, HoldsIsRight};
ghost use Rattle.system_check.specs.Laws.{FailsIsRight, UndecidedIsLow, SystemSettles, AnswerIsOne};

/// A formula of the step's form speaks of a state and the next one, one without temporal operators of one
/// state.
pub fn two_states()
    ensures forms { StartsAreSteps }
    ensures steps { StepsAreTwo }
    ensures starts { StartsAreOne }
    ensures sets { TwoReadsSets }
{}

/// The traces of the system formula are the paths, and those of the whole formula the paths on which the goal
/// fails.
pub fn paths()
    ensures system { PathsSatisfy }
    ensures whole { FailingPathsSatisfy }
{}

/// The sizes of the formulas. A limit that fits the whole formula fits the system formula.
pub fn sizes()
    ensures whole { WholeIsLong }
    ensures no_larger { SystemIsNoLarger }
    ensures fits { SystemFits }
{}

/// What comes of joining a start, a step and a goal.
pub fn joining()
    ensures { JoiningIsOne }
{}

/// What the answers mean.
pub fn answers()
    ensures no_path { NoPathIsRight }
    ensures holds { HoldsIsRight }
    ensures fails { FailsIsRight }
    ensures undecided { UndecidedIsLow }
    ensures settled { SystemSettles }
    ensures one { AnswerIsOne }
{}
