// What is decided of a formula.

use derivation::NamedLog;
use ltl_word::Trace;

/// What the tableau says of a formula. Depths count from 0.
#[derive(Drop)]
pub enum Decision {
    /// Satisfiable, shown by the trace of an accepted run of depth + 1 states.
    Sat {
        depth: u32,
        trace: Trace,
    },
    /// Unsatisfiable: the log's lines follow from the clause list through the depth, and the targets name the
    /// lines that close the tableau.
    Unsat {
        depth: u32,
        log: NamedLog,
        targets: Vec<u64>,
    },
    /// Neither, up to this depth.
    Undecided {
        depth: u32,
    },
}
