// How a call of the program ended.
ghost use Rattle.std.specs.Prelude.{◌≡◌};
ghost use Rattle.black_view.specs.Status.{code_of};

/// What `run` answers.
#[derive(Clone, Copy, Debug, PartialEq, Eq)]
pub enum Status {
    /// A picture was printed, or help or the version.
    Good,
    /// The input has no trace, and was printed as it is.
    NoTrace,
    /// The words were not taken.
    Usage,
    /// The text of the trace was refused.
    Text,
    /// The input or the picture is too large.
    Limit,
    /// A read failed, and nothing was written.
    ReadFault,
    /// A write failed, and a front of the answer was written.
    WriteFault,
    /// There was no memory, and nothing was written.
    NoMemory,
}

impl Status {
    /// The number that the process ends with.
    pub fn code(self) -> u8
        ensures { result ≡ code_of self }
    {
        match self {
            Status::Good => 0,
            Status::NoTrace => 1,
            Status::Usage => 2,
            Status::Text => 3,
            Status::Limit => 4,
            Status::ReadFault => 5,
            Status::WriteFault => 6,
            Status::NoMemory => 7,
        }
    }
}
