// Whether each path of a system satisfies a goal, by the tableau's verdicts on two formulas at one limit.
//
// The whole formula is asked first: where it has a trace, this is a path, so the system formula need not be
// asked.
ghost use Rattle.std.specs.Prelude.{◌<◌, ◌≤◌, length, IfOk};
ghost use Rattle.ltl_syntax.specs.declared.node.Kind.TheVariants as Kinds;
ghost use Rattle.ltl_syntax.specs.Formula.{Formula};
ghost use Rattle.ltl_syntax.specs.Table.{tree_at};
ghost use Rattle.enc_layout.specs.Letters.{Fits};
ghost use Rattle.enc_layout.specs.Limit.{layout};
ghost use Rattle.unravel.specs.Decision.{IsDecision};
ghost use Rattle.system_check.specs.Joining.{IsJoined};
ghost use Rattle.system_check.specs.Answer.{IsRefutedAt, IsAnswer};

use crate::joining::Joined;
use derivation::NamedLog;
use ltl_closure::Closure;
use ltl_syntax::Kind;
use ltl_word::Trace;
use std::alloc::{AllocError, Global};
use unravel::{Decision, decide};

/// What is said of a system and a goal. Depths count from 0.
#[derive(Drop)]
pub enum SystemAnswer {
    /// No trace is a path: the system's formula is refuted at this depth.
    NoPath {
        depth: u32,
    },
    /// There may be paths, and each satisfies the goal: the whole formula is refuted at this depth. The log's
    /// lines follow from its clause list through the depth, and the targets name the lines that close its
    /// tableau.
    Holds {
        depth: u32,
        log: NamedLog,
        targets: Vec<u64>,
    },
    /// The trace is a path that does not satisfy the goal, by an accepted run of depth + 1 states.
    Fails {
        depth: u32,
        trace: Trace,
    },
    /// None of these, up to this depth.
    Undecided {
        depth: u32,
    },
}

/// Decides by depths from 0 up to the limit whether each path satisfies the goal.
pub fn decide_system(alloc: Global, joined: &Joined, limit: u32) -> Result<SystemAnswer, AllocError>
    requires joined { (start step goal : Formula) × IsJoined start step goal joined.now }
    requires few { limit ≤ 1000 }
    requires fits { Fits (layout (tree_at joined.now.table joined.now.whole) Kinds.Infinite) limit }
    ensures { IfOk result (λ answer. (start step goal : Formula)
        → IsJoined start step goal joined.now → IsAnswer start step goal limit answer) }
{
    match decided(alloc, joined, joined.whole, limit)? {
        Decision::Sat { depth, trace } => Ok(SystemAnswer::Fails { depth, trace }),
        Decision::Unsat {
            depth,
            log,
            targets,
        } => match refuted_at(alloc, joined, limit)? {
            Some(depth) => Ok(SystemAnswer::NoPath { depth }),
            None => Ok(SystemAnswer::Holds {
                depth,
                log,
                targets,
            }),
        },
        Decision::Undecided { depth } => match refuted_at(alloc, joined, limit)? {
            Some(depth) => Ok(SystemAnswer::NoPath { depth }),
            None => Ok(SystemAnswer::Undecided { depth }),
        },
    }
}

/// The depth at which the system's formula is refuted, if it is.
fn refuted_at(alloc: Global, joined: &Joined, limit: u32) -> Result<Option<u32>, AllocError>
    requires joined { (start step goal : Formula) × IsJoined start step goal joined.now }
    requires few { limit ≤ 1000 }
    requires fits { Fits (layout (tree_at joined.now.table joined.now.whole) Kinds.Infinite) limit }
    ensures { IfOk result (IsRefutedAt (tree_at joined.now.table joined.now.system) limit) }
{
    match decided(alloc, joined, joined.system, limit)? {
        Decision::Unsat { depth, .. } => Ok(Some(depth)),
        Decision::Sat { .. } => Ok(None),
        Decision::Undecided { .. } => Ok(None),
    }
}

/// The verdict on infinite traces on the formula of a node, with what shows it.
fn decided(alloc: Global, joined: &Joined, node: u32, limit: u32) -> Result<Decision, AllocError>
    requires there { node < length joined.now.table.nodes }
    requires few { limit ≤ 1000 }
    requires fits { Fits (layout (tree_at joined.now.table node) Kinds.Infinite) limit }
    ensures { IfOk result (IsDecision (tree_at joined.now.table node) Kinds.Infinite limit) }
{
    let closure = Closure::of(alloc, &joined.table, node, Kind::Infinite)?;
    decide(alloc, &closure, limit)
}
