// How a call of a program ended.
ghost use Rattle.std.specs.Prelude.{◌≡◌};
ghost use Rattle.report.specs.Status.{code_of};

/// What a call of a program answers.
#[derive(Clone, Copy, Debug, PartialEq, Eq)]
pub enum Status {
    /// VERIFIED or HOLDS was printed, a batch in which each line has a verdict, or a formula without past
    /// operators.
    Good,
    /// REJECTED or FAILS was printed.
    Negative,
    Sat,
    Unsat,
    Undecided,
    /// The words were not taken, and the usage was printed.
    Usage,
    /// The input was refused with a place or a reason, or some line of a batch was.
    Text,
    /// The input was refused with a limit.
    Limit,
    /// A read failed, and nothing was written.
    ReadFault,
    /// A write failed, and a front of the answer was written.
    WriteFault,
    /// There was no memory, and nothing was written.
    NoMemory,
}

impl Status {
    /// The number that the process ends with.
    pub fn code(self) -> u8
        ensures { result ≡ code_of self }
    {
        match self {
            Status::Good => 0,
            Status::Negative => 1,
            Status::Usage => 2,
            Status::Text => 3,
            Status::Limit => 4,
            Status::ReadFault => 5,
            Status::WriteFault => 6,
            Status::NoMemory => 7,
            Status::Sat => 10,
            Status::Unsat => 20,
            Status::Undecided => 30,
        }
    }
}
