//! Laws of questions. Each function is empty: its contract is the law, and a proof cites it by a call.
ghost use Rattle.requirement_questions.specs.Laws.{MarkedAreLeast};
ghost use Rattle.requirement_questions.specs.Worked.{WorkedQuestions};

/// A set whose members are all marked as needed is a least one.
pub fn least_sets()
    ensures { MarkedAreLeast }
{}

/// What the definitions give for small cases.
pub fn worked_questions()
    ensures { WorkedQuestions }
{}
