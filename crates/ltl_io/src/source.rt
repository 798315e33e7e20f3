// Where bytes come from.
ghost use Rattle.std.specs.Prelude.{◌≡◌, ◌+◌, ◌<◌, ◌≤◌, Option, List, ℕ, length, IfOk, OnOk, OnErr, IsErrOf};
ghost use Rattle.ltl_io.specs.declared.source.ReadRefused.TheVariants.{NoMemory};
ghost use Rattle.ltl_io.specs.Count.{Rose, Counts};
ghost use Rattle.ltl_io.specs.Outside.{Gives, Stays, LosesAtMost, TakesWhole};

use std::alloc::{AllocError, Global};

/// The one fault of the outside: a read or a write failed.
#[derive(Clone, Copy, Debug, PartialEq, Eq)]
pub struct Failed;

/// Why an input was not read.
#[derive(Clone, Copy, Debug, PartialEq, Eq)]
pub enum ReadRefused {
    /// The source failed.
    Fault,
    /// No memory was left for what was read.
    NoMemory,
}

impl From<AllocError> for ReadRefused {
    ghost from_gives = { λ _ e. e ≡ NoMemory };

    fn from(_: AllocError) -> Self {
        ReadRefused::NoMemory
    }
}

/// Something that gives bytes.
pub trait Source {
    /// The bytes that are not yet read, where they are told.
    ghost rest: { Self → Option (List ℕ) };

    /// How often it has failed.
    ghost faults: { Self → ℕ };

    /// Reads into the front of `into`, and answers how many bytes; 0 is the end of input.
    fn read(&mut self, into: &mut [u8]) -> Result<usize, Failed>
        requires { 0 < length into.old }
        ensures length { IfOk result (λ n. n ≤ length into.new) }
        ensures given { IfOk result (λ n. Gives n into.new (rest self.old) (rest self.new)) }
        ensures err { OnErr result (Stays (rest self.old) (rest self.new)) }
        ensures cause { OnErr result (Rose (faults self.old) (faults self.new)) }
        ensures count { OnOk result (faults self.new ≡ faults self.old) }
        ensures counts { Counts (faults self.old) (faults self.new) };
}

// How many bytes are asked for at once.
const PIECE: usize = 65_536;

/// Reads to the end of input, or until more than `stop_after` bytes were taken, and answers the
/// bytes in order. So an input above a limit is known by its length, and what stands behind the
/// read that brought it there is left for another reader.
pub fn read_whole<S: Source>(
    alloc: Global,
    source: &mut S,
    stop_after: usize,
) -> Result<Vec<u8>, ReadRefused>
    ensures bytes { IfOk result (λ bytes. TakesWhole stop_after bytes.items (S.rest source.old)
        (S.rest source.new)) }
    ensures bounded { IfOk result (λ bytes. length bytes.items ≤ stop_after + PIECE) }
    ensures left { LosesAtMost (stop_after + PIECE) (S.rest source.old) (S.rest source.new) }
    ensures fault_left { IsErrOf result ReadRefused.Fault
        → LosesAtMost stop_after (S.rest source.old) (S.rest source.new) }
    ensures fault { IsErrOf result ReadRefused.Fault → Rose (S.faults source.old) (S.faults source.new) }
    ensures no_memory { IsErrOf result ReadRefused.NoMemory → S.faults source.new ≡ S.faults source.old }
    ensures count { OnOk result (S.faults source.new ≡ S.faults source.old) }
    ensures counts { Counts (S.faults source.old) (S.faults source.new) }
{
    let mut bytes = Vec::new(alloc);
    let mut buffer = [0u8; PIECE];
    'reads: while bytes.len() <= stop_after {
        match source.read(&mut buffer) {
            Err(Failed) => return Err(ReadRefused::Fault),
            Ok(0) => return Ok(bytes),
            Ok(n) => bytes.extend_from_slice(&buffer[..n])?,
        }
    }
    Ok(bytes)
}
