//! Laws of batches. Each function is empty or calls other laws: its contract is the law, and a proof cites it
//! by a call.
ghost use Rattle.batch_run.specs.Laws.{LinesAreOne, AnswersAreOne};
ghost use Rattle.batch_run.specs.Laws.{SatHasTrace, UnsatHasNone, UndecidedIsBelow};

/// A text is cut into lines in one way.
pub fn one_cut()
    ensures { LinesAreOne }
{}

/// A text, a kind and a depth have one list of answers, so it is the same for every number of workers.
pub fn one_list()
    ensures { AnswersAreOne }
{
    formula_reading::laws::one_reading();
    ltl_run::laws::one_verdict();
}

/// SAT means that a trace of the kind satisfies the formula of the line, UNSAT that none does, and UNDECIDED
/// that the depth is below the formula's bound.
pub fn verdicts()
    ensures sat { SatHasTrace }
    ensures unsat { UnsatHasNone }
    ensures undecided { UndecidedIsBelow }
{
    ltl_lexer::laws::words();
    ltl_parser::laws::printed_text();
    ltl_run::laws::satisfiable();
    ltl_run::laws::unsatisfiable();
    ltl_run::laws::bounded();
}
