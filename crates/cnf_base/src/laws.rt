// What holds of hinted steps, for the crates above: each law is a call that does nothing.
ghost use Rattle.cnf_base.specs.Meaning.{HintedStepsFollow};
ghost use Rattle.cnf_base.specs.Worked.{WorkedSteps};

/// A hinted step is true wherever the clauses and the lines before it are.
pub fn hinted_steps_follow()
    ensures { HintedStepsFollow }
{}

/// Steps that were judged by hand.
pub fn worked_steps()
    ensures { WorkedSteps }
{}
