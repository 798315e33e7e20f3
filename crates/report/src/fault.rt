// The refusals.
ghost use Rattle.std.specs.Prelude.{◌≡◌};
ghost use Rattle.report.specs.Status.{fault_status};

use crate::status::Status;

/// A refusal, with the number that its line shows: a byte of a part from 0, a count of nodes or of cells,
/// or a depth.
#[derive(Clone, Copy, Debug, PartialEq, Eq)]
pub enum Fault {
    /// The words are not taken.
    Usage,
    /// The input has no separator line.
    NoSeparator,
    /// The formula's text is too long.
    Text,
    /// The text of a batch is too long.
    Batch,
    /// No token begins at the byte.
    Lexical(u32),
    /// The tokens read as no formula, by the byte of the first that is wrong.
    Grammar(u32),
    /// The number of nodes of the formula.
    Nodes(u32),
    /// The number of nodes that the formula without past operators would have.
    PastNodes(u32),
    /// The clauses of the depth that was asked for have too many letters. The number is the greatest depth
    /// that has not.
    Letters(u32),
    /// The number of cells of the table of truth values.
    Cells(u128),
    /// The second part is no certificate text. The number is its first byte, from 0 at its own start, with
    /// which no such text goes on, or its length.
    Certificate(u64),
    /// The trace text is no JSON.
    NotJson,
    /// The trace text is JSON of another form.
    NotTrace,
    /// The loop of the trace is empty.
    EmptyLoop,
    /// The list of states of the trace is empty.
    EmptyStates,
    /// The start of a system has a temporal operator.
    SystemStart,
    /// The step of a system has a temporal operator that is not `X`, or an `X` under an `X`.
    SystemStep,
    /// An operator of the monitored formula looks ahead.
    LooksAhead,
    /// The line with this number, from 1, is the first of the states that is neither white space nor a state.
    State(u64),
}

impl Fault {
    /// The status of a call that ends with the refusal.
    pub fn status(self) -> Status
        ensures { result ≡ fault_status self }
    {
        match self {
            Fault::Usage => Status::Usage,
            Fault::Text | Fault::Batch | Fault::Nodes(_) | Fault::Letters(_) | Fault::Cells(_) =>
                Status::Limit,
            Fault::PastNodes(_) => Status::Limit,
            Fault::NoSeparator
            | Fault::Lexical(_)
            | Fault::Grammar(_)
            | Fault::Certificate(_)
            | Fault::NotJson
            | Fault::NotTrace
            | Fault::EmptyLoop
            | Fault::EmptyStates
            | Fault::SystemStart
            | Fault::SystemStep
            | Fault::LooksAhead
            | Fault::State(_) => Status::Text,
        }
    }
}
