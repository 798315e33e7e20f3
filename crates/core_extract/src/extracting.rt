// The core of a refuted formula: each occurrence is replaced by a fresh letter that the formula can do
// without, so that what is left shows which parts conflict.
ghost use Rattle.std.specs.Prelude.{◌<◌, ◌≤◌, length, IfOk};
ghost use Rattle.ltl_syntax.specs.Formula.{HasNoFresh};
ghost use Rattle.ltl_syntax.specs.Table.{tree_at};
ghost use Rattle.ltl_run.specs.Laws.{HasNoTrace};
ghost use Rattle.core_extract.specs.Core.{IsRefuted, IsCore, tableau};

use crate::passing::passes;
use crate::presenting::present;
use crate::task::Task;
use ltl_io::Gate;
use ltl_syntax::{FormulaTable, Kind};
use std::alloc::{AllocError, Global};
use std::thread::Threads;

/// The core of a formula whose verdict is UNSAT at its limit in force for the number `asked`: a table, and
/// the core's root in it. It is the formula with some occurrences replaced by fresh letters, which are
/// numbered from 0 in the order of the text; so the formula has none of its own. It is one and the same for
/// every number of workers.
///
/// The occurrences are tested in groups, as many as there are workers, from 1 to 16, each by a worker of its
/// own. `gate` is told of each test as it begins, by its number in its group, from 0.
pub fn core<R: Threads + Sync, G: Gate + Sync>(
    rt: &R,
    alloc: Global,
    table: &FormulaTable,
    root: u32,
    kind: Kind,
    asked: u32,
    workers: u32,
    gate: &G,
) -> Result<(FormulaTable, u32), AllocError>
    requires root { root < length table.now.nodes }
    requires given { HasNoFresh (tree_at table.now root) }
    requires asked { asked ≤ 1000 }
    requires refuted { IsRefuted kind asked (tree_at table.now root) }
    requires some { 1 ≤ workers }
    requires few { workers ≤ 16 }
    ensures core { IfOk result (λ r. IsCore (tableau kind asked) (tree_at table.now root) (tree_at r.0 r.1)) }
    ensures root { IfOk result (λ r. r.1 < length r.0.nodes) }
    ensures refuted { IfOk result (λ r. IsRefuted kind asked (tree_at r.0 r.1)) }
    ensures none { IfOk result (λ r. HasNoTrace kind (tree_at r.0 r.1)) }
{
    let task = Task::of(alloc, table, root, kind, asked)?;
    let marks = passes(rt, alloc, &task, workers, gate)?;
    let core = present(alloc, &task, &marks)?;
    Ok(core)
}
