// Tests: whether the present formula stays refuted with one occurrence more replaced. Those of a group are
// done side by side, each by a worker of its own and against the same present formula.
ghost use Rattle.std.specs.Prelude.{◌≡◌, ℕ, ◌<◌, ◌≤◌, ◌↔◌, length, slice_index_or, IfOk, IsTrue};
ghost use Rattle.ltl_syntax.specs.Table.{tree_at};
ghost use Rattle.ltl_syntax.specs.Replacement.{IsKept};
ghost use Rattle.core_extract.specs.Core.{IsRefuted, tableau};
ghost use Rattle.core_extract.specs.Testing.{IsTask, AreMarks, IsGroup, IsTold, IsTested, AreTested};
ghost use Rattle.core_extract.specs.Testing.{IsFirstClosed, formula_of, marked};

use crate::presenting::{mark, present};
use crate::task::Task;
use ltl_closure::Closure;
use ltl_io::Gate;
use ltl_syntax::{FormulaTable, Kind};
use std::alloc::{AllocError, Global};
use std::thread;
use std::thread::Threads;
use unravel::{Decision, decide_in_force};

/// What one test found.
#[derive(Clone, Copy, Drop)]
pub enum Outcome {
    /// The verdict is UNSAT.
    Closed,
    /// It is SAT or UNDECIDED.
    Open,
    /// It is not known, since memory ran out.
    NoMemory,
}

/// What the verdict of the formula at its own limit in force is.
fn verdict(
    alloc: Global,
    table: &FormulaTable,
    root: u32,
    kind: Kind,
    asked: u32,
) -> Result<Outcome, AllocError>
    requires root { root < length table.now.nodes }
    requires asked { asked ≤ 1000 }
    ensures { IfOk result (IsTold (tableau kind asked) (tree_at table.now root)) }
{
    let closure = Closure::of(alloc, table, root, kind)?;
    let decision = decide_in_force(alloc, &closure, asked)?;
    match decision {
        Decision::Sat { .. } => Ok(Outcome::Open),
        Decision::Unsat { .. } => Ok(Outcome::Closed),
        Decision::Undecided { .. } => Ok(Outcome::Open),
    }
}

/// Whether the verdict of the formula is UNSAT at its own limit in force for the asked number.
pub fn is_refuted(
    alloc: Global,
    table: &FormulaTable,
    root: u32,
    kind: Kind,
    asked: u32,
) -> Result<bool, AllocError>
    requires root { root < length table.now.nodes }
    requires asked { asked ≤ 1000 }
    ensures { IfOk result (λ refuted. IsTrue refuted ↔ IsRefuted kind asked (tree_at table.now root)) }
{
    let found = verdict(alloc, table, root, kind, asked)?;
    match found {
        Outcome::Closed => Ok(true),
        Outcome::Open => Ok(false),
        Outcome::NoMemory => Err(AllocError),
    }
}

/// A copy of the marks.
fn copied(alloc: Global, marks: &Vec<bool>) -> Result<Vec<bool>, AllocError>
    ensures { IfOk result (λ copy. copy.items ≡ marks.now.items) }
{
    let mut copy = Vec::new(alloc);
    copy.extend_from_slice(marks)?;
    Ok(copy)
}

/// Tests the present formula with the occurrence at this place replaced as well.
fn test_place(
    alloc: Global,
    task: &Task<'_>,
    marks: &Vec<bool>,
    place: u32,
) -> Result<Outcome, AllocError>
    requires task { IsTask task.now }
    requires marks { AreMarks task.now marks.now.items }
    requires kept { IsKept (formula_of task.now) (marked marks.now.items) place }
    ensures { IfOk result (IsTested task.now (marked marks.now.items) place) }
{
    let mut more = copied(alloc, marks)?;
    mark(task, &mut more, place);
    let formula = present(alloc, task, &more)?;
    verdict(alloc, &formula.0, formula.1, task.kind, task.asked)
}

/// Tests the occurrence of one piece, and leaves in its area what it found.
fn test_piece<G: Gate>(
    alloc: Global,
    task: &Task<'_>,
    marks: &Vec<bool>,
    places: &Vec<u32>,
    gate: &G,
    piece: usize,
    area: &mut Outcome,
)
    requires group { IsGroup task.now marks.now.items places.now.items }
    requires piece { piece < length places.now.items }
    ensures { IsTested task.now (marked marks.now.items) (slice_index_or places.now.items piece 0) area.new }
{
    gate.begin(piece as u32);
    *area = match test_place(alloc, task, marks, places[piece]) {
        Ok(outcome) => outcome,
        Err(_) => Outcome::NoMemory,
    };
}

/// Tests the occurrences of a group, each in a thread of its own where one can be made. With one there is
/// none.
fn test_each<R: Threads + Sync, G: Gate + Sync>(
    rt: &R,
    alloc: Global,
    task: &Task<'_>,
    marks: &Vec<bool>,
    places: &Vec<u32>,
    gate: &G,
    areas: &mut Vec<Outcome>,
)
    requires group { IsGroup task.now marks.now.items places.now.items }
    requires some { 1 ≤ length areas.old.items }
    requires long { length areas.old.items ≡ length places.now.items }
    ensures count { length areas.new.items ≡ length areas.old.items }
    ensures tested { (i : ℕ) (d : _) → i < length areas.old.items → IsTested task.now
        (marked marks.now.items) (slice_index_or places.now.items i 0) (slice_index_or areas.new.items i d) }
{
    let workers = areas.len();
    thread::for_each_mut(
        rt,
        areas.as_mut_slice(),
        workers,
        &|piece, area| { test_piece(alloc, task, marks, places, gate, piece, area) },
    );
}

/// What the tests of a group found.
pub fn test_group<R: Threads + Sync, G: Gate + Sync>(
    rt: &R,
    alloc: Global,
    task: &Task<'_>,
    marks: &Vec<bool>,
    places: &Vec<u32>,
    gate: &G,
) -> Result<Vec<Outcome>, AllocError>
    requires group { IsGroup task.now marks.now.items places.now.items }
    ensures { IfOk result (λ found. AreTested task.now marks.now.items places.now.items found.items) }
{
    let mut areas = vec![in alloc; Outcome::Open; places.len()]?;
    if areas.is_empty() {
        return Ok(areas);
    }
    test_each(rt, alloc, task, marks, places, gate, &mut areas);
    Ok(areas)
}

/// The first test that is Closed, counted from 0. What was found behind it is dropped.
pub fn first_closed(found: &Vec<Outcome>) -> Result<Option<usize>, AllocError>
    ensures { IfOk result (IsFirstClosed found.now.items) }
{
    'tests: for index in 0..found.len() {
        match found[index] {
            Outcome::Closed => return Ok(Some(index)),
            Outcome::Open => {}
            Outcome::NoMemory => return Err(AllocError),
        }
    }
    Ok(None)
}
