// What the tableau says of a formula, with what an UNSAT hands out: how many lines the solver learnt, how
// many literals and how many hints they have.
ghost use Rattle.std.specs.Prelude.{◌≤◌};

use crate::status;
use derivation::NamedLog;
use ltl_closure::Closure;
use std::alloc::Global;
use unravel::{Decision, decide_in_force};

/// Prints the answer, the depth, and of UNSAT the lines, literals and hints.
pub(crate) fn decide_formula(
    rt: &HostRuntime,
    alloc: Global,
    closure: &Closure<'_>,
    depth: u32,
) -> u8
    requires { depth ≤ 1000 }
{
    let Ok(decision) = decide_in_force(alloc, closure, depth) else {
        return 7;
    };
    let written = match decision {
        Decision::Sat { depth, .. } => println!(rt; "SAT {}", depth).is_ok(),
        Decision::Unsat { depth, log, .. } => print_unsat(rt, depth, &log),
        Decision::Undecided { depth } => println!(rt; "UNDECIDED {}", depth).is_ok(),
    };
    status(written)
}

fn print_unsat(rt: &HostRuntime, depth: u32, log: &NamedLog) -> bool {
    let mut literals: u64 = 0;
    let mut hints: u64 = 0;
    for index in 0..log.lines() {
        literals = literals.saturating_add(log.literals(index + 1).len() as u64);
        hints = hints.saturating_add(log.hints(index + 1) as u64);
    }
    println!(rt;
        "UNSAT {} {} {} {} {}",
        depth,
        log.log().view().inputs(),
        log.lines(),
        literals,
        hints
    )
    .is_ok()
}
