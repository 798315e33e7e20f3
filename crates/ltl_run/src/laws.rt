//! Laws of runs. Each function is empty: its contract is the law, and a proof cites it by a call.
//!
//! The tableau is Reynolds' one-pass tree-shaped one (2016), as Geatti, Gigante and Montanari (2019) ask a
//! solver for its branches.
ghost use Rattle.ltl_run.specs.Laws.{NormalFormAgrees, NegationAgrees, RangesAreIterated, RunsSatisfy};
ghost use Rattle.ltl_run.specs.Laws.{RulesAccept, LassosRun, TracesRun, RunsAreCut, RunsAreRotated};
ghost use Rattle.ltl_run.specs.Laws.{PrunedRunsShorten, LeastRunsAreUnpruned, HaveUnpruned, UnsatIsSound};
ghost use Rattle.ltl_run.specs.Laws.{BoundSettles, BoundFinds, VerdictIsOne, TreesHavePlainNames};
ghost use Rattle.ltl_run.specs.Laws.{AcceptedRunsHaveTraces, SatIsSound, SatIsExact, CarriesAreFew};
ghost use Rattle.ltl_run.specs.Laws.{CarriesComeOnce, TracesExtend, ExtensionsAgree, ReplacingRefutes};
ghost use Rattle.ltl_run.specs.Laws.{TreesAreGiven};

/// At each position the normal form holds where the formula does, and that of its negation where the formula
/// does not. That of a bounded operator is a request several times over.
pub fn normal_form()
    ensures same { NormalFormAgrees }
    ensures negated { NegationAgrees }
    ensures ranges { RangesAreIterated }
{}

/// An accepted run gives a trace that satisfies the formula.
pub fn run_satisfies()
    ensures satisfies { RunsSatisfy }
    ensures rules { RulesAccept }
{}

/// A trace that satisfies the formula gives an accepted run, and a lasso one whose length depends on the past
/// operators only.
pub fn satisfied_runs()
    ensures accepted { TracesRun }
    ensures lasso { LassosRun }
{}

/// States between two of one carry can be cut out.
pub fn cutting()
    ensures { RunsAreCut }
{}

/// A run that closes to an earlier state can be turned about that state.
pub fn rotating()
    ensures { RunsAreRotated }
{}

/// Pruning loses no formula: a pruned accepted run gives a shorter accepted one.
pub fn pruning()
    ensures shorter { PrunedRunsShorten }
    ensures least { LeastRunsAreUnpruned }
    ensures unpruned { HaveUnpruned }
{}

/// UNSAT means that no trace of the kind satisfies the formula.
pub fn unsatisfiable()
    ensures { UnsatIsSound }
{}

/// At the bound the verdict is settled, and it is SAT where a trace satisfies the formula.
pub fn bounded()
    ensures settled { BoundSettles }
    ensures found { BoundFinds }
{}

/// The verdict is one.
pub fn one_verdict()
    ensures { VerdictIsOne }
{}

/// No name of a table begins with `{`, so that its formulas' letters are told apart by their names.
pub fn plain_names()
    ensures { TreesHavePlainNames }
{}

/// An accepted run of a formula with plain names has a trace.
pub fn traces_of_runs()
    ensures { AcceptedRunsHaveTraces }
{}

/// SAT means that a trace of the kind satisfies the formula, and at the bound it comes exactly where one
/// does.
pub fn satisfiable()
    ensures sound { SatIsSound }
    ensures exact { SatIsExact }
{}

/// How often a carry comes in an unpruned run.
pub fn carries()
    ensures few { CarriesAreFew }
    ensures once { CarriesComeOnce }
{}

/// A trace extends by the values of replaced occurrences, with a longer stem where past operators need it,
/// and there the formula with fresh letters holds where the formula did.
pub fn extension()
    ensures there { TracesExtend }
    ensures agree { ExtensionsAgree }
{}

/// Where a formula with occurrences replaced has no trace of a kind, the formula has none. The trees of a
/// table are such formulas.
pub fn replacing_refutes()
    ensures refutes { ReplacingRefutes }
    ensures trees { TreesAreGiven }
{}
