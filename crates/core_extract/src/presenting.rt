// The present formula: the one whose core is sought, with the marked occurrences replaced.
ghost use Rattle.std.specs.Prelude.{◌≡◌, ◌+◌, ◌<◌, length, All, IfOk};
ghost use Rattle.ltl_syntax.specs.Table.{tree_at};
ghost use Rattle.ltl_syntax.specs.Flat.{places_of};
ghost use Rattle.ltl_syntax.specs.Replacement.{AreSame, added, rep};
ghost use Rattle.core_extract.specs.Testing.{IsTask, AreMarks, formula_of, marked};

use crate::task::Task;
use ltl_syntax::{FormulaTable, replace};
use std::alloc::{AllocError, Global};

/// The formula with the marked occurrences replaced.
pub fn present(
    alloc: Global,
    task: &Task<'_>,
    marks: &Vec<bool>,
) -> Result<(FormulaTable, u32), AllocError>
    requires task { IsTask task.now }
    requires marks { AreMarks task.now marks.now.items }
    ensures tree { IfOk result (λ r. tree_at r.0 r.1 ≡ rep (formula_of task.now) (marked marks.now.items)) }
    ensures root { IfOk result (λ r. r.1 < length r.0.nodes) }
{
    let numbers = marked_nodes(alloc, task, marks)?;
    replace(alloc, task.table, task.root, &numbers)
}

/// The nodes at the marked places.
fn marked_nodes(alloc: Global, task: &Task<'_>, marks: &Vec<bool>) -> Result<Vec<u32>, AllocError>
    requires task { IsTask task.now }
    requires marks { AreMarks task.now marks.now.items }
    ensures within { IfOk result (λ numbers. All (λ n. n < length task.now.table.now.nodes) numbers.items) }
    ensures places { IfOk result (λ numbers. AreSame
        (places_of task.now.table.now task.now.root numbers.items) (marked marks.now.items)) }
{
    let mut numbers = Vec::new(alloc);
    'places: for place in 0..marks.len() {
        if !marks[place] {
            continue;
        }
        numbers.push(task.order[place])?;
    }
    Ok(numbers)
}

/// Marks a place, and takes off the marks under it.
pub fn mark(task: &Task<'_>, marks: &mut Vec<bool>, place: u32)
    requires task { IsTask task.now }
    requires place { place < length task.now.order.items }
    requires long { length marks.old.items ≡ length task.now.order.items }
    ensures long { length marks.new.items ≡ length marks.old.items }
    ensures added { AreSame (marked marks.new.items) (added (formula_of task.now)
        (marked marks.old.items) place) }
{
    let first = place as usize;
    let behind = first + task.sizes[first] as usize;
    'under: for under in first + 1..behind {
        marks[under] = false;
    }
    marks[first] = true;
}
