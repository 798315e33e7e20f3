// What is answered to a line of a batch.
ghost use Rattle.std.specs.Prelude.{◌≡◌};
ghost use Rattle.batch_run.specs.Texts.{is_verdict, is_clean};

/// What is said of a formula line: the tableau's verdict at the batch limit, or why the line has none.
#[derive(Clone, Copy, Debug, PartialEq, Eq)]
pub enum LineOutcome {
    /// Satisfiable, by an accepted run whose last state has this number, counted from 0.
    Sat(u32),
    /// Unsatisfiable, by the runs up to the state of this number, counted from 0.
    Unsat(u32),
    /// Neither, up to the state of this number, which is the batch limit.
    Undecided(u32),
    /// The line has more than 1,048,576 bytes.
    Text,
    /// No token begins at the byte, counted from 0 from the start of the line.
    Lexical(u32),
    /// The tokens read as no formula, by the byte of the first that is wrong, or by the length of the line.
    Grammar(u32),
    /// The number of nodes of the formula, which are more than 16,384.
    Nodes(u32),
}

/// The answer to a formula line.
#[derive(Clone, Copy, Debug, PartialEq, Eq)]
pub struct LineAnswer {
    /// The number of the line, counted from 1 over all lines, blank ones too.
    pub line: u32,
    pub outcome: LineOutcome,
}

impl LineOutcome {
    /// Whether it is a verdict.
    fn is_verdict(self) -> bool
        ensures { result ≡ is_verdict self }
    {
        matches!(
            &self,
            LineOutcome::Sat(_) | LineOutcome::Unsat(_) | LineOutcome::Undecided(_)
        )
    }
}

/// Whether each of the answers is a verdict.
pub fn all_verdicts(answers: &[LineAnswer]) -> bool
    ensures { result ≡ is_clean answers.now }
{
    answers.iter().all(|answer| answer.outcome.is_verdict())
}
