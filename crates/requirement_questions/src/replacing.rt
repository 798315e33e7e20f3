// Occurrences of a formula that it does without: each is replaced by a fresh letter, if no trace satisfies
// the formula even then. They are gone over once, a parent before its children. An occurrence that was needed
// stays needed, since with more of them replaced there are only more traces.
ghost use Rattle.std.specs.Prelude.{◌≡◌, ◌<◌, true, length, IfOk, IfSome};
ghost use Rattle.ltl_syntax.specs.Table.{tree_at};
ghost use Rattle.ltl_syntax.specs.Replacement.{IsKept, rep};
ghost use Rattle.ltl_run.specs.Laws.{HasNoTrace};
ghost use Rattle.core_extract.specs.Testing.{IsTask, AreMarks, formula_of, marked};
ghost use Rattle.requirement_questions.specs.Replacing.{IsReplaced};

use crate::asking::{SearchOutcome, ask_of};
use crate::questions::Limits;
use claims::laws;
use core_extract::{Task, mark, present};
use ltl_syntax::{FormulaTable, Kind, has_no_fresh};
use std::alloc::{AllocError, Global};

/// How many questions a test asks at most.
const TEST_STEPS: u32 = 100_000;

/// A formula with some occurrences replaced by fresh letters: a table, and the number of its root there.
#[derive(Drop)]
pub struct Replaced {
    pub table: FormulaTable,
    pub root: u32,
}

/// The formula under a root with each occurrence from a place on replaced that it does without. None where
/// there is no such occurrence, or where it has fresh letters of its own.
pub fn replaced_from(
    alloc: Global,
    table: &FormulaTable,
    root: u32,
    kind: Kind,
    first: usize,
    limits: Limits,
) -> Result<Option<Box<Replaced>>, AllocError>
    requires { root < length table.now.nodes }
    ensures { IfOk result (λ found. IfSome found (λ r. IsReplaced kind (tree_at table.now root) r.value)) }
{
    let none_is_fresh = has_no_fresh(alloc, table, root)?;
    if !none_is_fresh {
        return Ok(None);
    }
    let task = Task::of(alloc, table, root, kind, 0)?;
    pass(alloc, &task, first, limits)
}

/// Goes over the occurrences from a place on.
fn pass(
    alloc: Global,
    task: &Task<'_>,
    first: usize,
    limits: Limits,
) -> Result<Option<Box<Replaced>>, AllocError>
    requires { IsTask task.now }
    ensures { IfOk result (λ found. IfSome found (λ r. IsReplaced task.now.kind
        (formula_of task.now) r.value)) }
{
    let mut marks = vec![in alloc; false; task.order.len()]?;
    let end = task.order.len() as u32;
    let mut at = first.min(task.order.len()) as u32;
    let mut held = None;
    'places: while at < end {
        let more = with_one(alloc, task, &marks, at, limits)?;
        let Some(found) = more else {
            at += 1;
            continue;
        };
        mark(task, &mut marks, at);
        at += task.sizes[at as usize];
        held = Some(found);
    }
    Ok(held)
}

/// The formula with one more occurrence replaced, where it does without it: no trace satisfies it even then.
fn with_one(
    alloc: Global,
    task: &Task<'_>,
    marks: &Vec<bool>,
    place: u32,
    limits: Limits,
) -> Result<Option<Box<Replaced>>, AllocError>
    requires task { IsTask task.now }
    requires marks { AreMarks task.now marks.now.items }
    requires kept { IsKept (formula_of task.now) (marked marks.now.items) place }
    ensures { IfOk result (λ found. IfSome found (λ r. IsReplaced task.now.kind
        (formula_of task.now) r.value)) }
{
    let mut more = copied(alloc, marks)?;
    mark(task, &mut more, place);
    let formula = marked_formula(alloc, task, &more)?;
    let refuted = is_refuted(alloc, &formula, task.kind, limits)?;
    if !refuted {
        return Ok(None);
    }
    Ok(Some(formula))
}

/// A copy of the marks, so that a test that fails leaves them as they were.
fn copied(alloc: Global, marks: &Vec<bool>) -> Result<Vec<bool>, AllocError>
    ensures { IfOk result (λ copy. copy.items ≡ marks.now.items) }
{
    let mut copy = Vec::new(alloc);
    copy.extend_from_slice(marks)?;
    Ok(copy)
}

/// The formula with the marked occurrences replaced.
fn marked_formula(
    alloc: Global,
    task: &Task<'_>,
    marks: &Vec<bool>,
) -> Result<Box<Replaced>, AllocError>
    requires task { IsTask task.now }
    requires marks { AreMarks task.now marks.now.items }
    ensures there { IfOk result (λ r. r.value.root < length r.value.table.nodes) }
    ensures tree { IfOk result (λ r. tree_at r.value.table r.value.root
        ≡ rep (formula_of task.now) (marked marks.now.items)) }
{
    let (table, root) = present(alloc, task, marks)?;
    Ok(Box::new(alloc, Replaced { table, root })?)
}

/// Whether a test shows that no trace of the kind satisfies the formula.
fn is_refuted(
    alloc: Global,
    formula: &Replaced,
    kind: Kind,
    limits: Limits,
) -> Result<bool, AllocError>
    requires { formula.now.root < length formula.now.table.nodes }
    ensures { IfOk result (λ refuted. refuted ≡ true
        → HasNoTrace kind (tree_at formula.now.table formula.now.root)) }
{
    laws::nothing_satisfies();
    let few = Limits {
        steps: limits.steps.min(TEST_STEPS),
    };
    match ask_of(alloc, &formula.table, formula.root, kind, few)? {
        SearchOutcome::Impossible(_) => Ok(true),
        SearchOutcome::Possible(_) | SearchOutcome::Undecided => Ok(false),
    }
}
