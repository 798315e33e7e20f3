// Passes over the kept occurrences, a parent before its children and left before right. An occurrence is
// replaced where the formula stays refuted without it, until a pass replaces none.
//
// No test is asked again whose answer stands: behind the last occurrence that a pass has replaced, all were
// tested against the formula as it is then, so the next pass ends there where it has replaced none before.
ghost use Rattle.std.specs.Prelude.{◌≡◌, ◌<◌, ◌≤◌, length, IfOk, IfSome, OnOk};
ghost use Rattle.ltl_syntax.specs.Replacement.{IsClear};
ghost use Rattle.core_extract.specs.Core.{IsReached};
ghost use Rattle.core_extract.specs.Testing.{IsTask, AreMarks, AreNext, IsStep, IsSettled, IsPassed};
ghost use Rattle.core_extract.specs.Testing.{formula_of, test_of, marked};

use crate::presenting::mark;
use crate::task::Task;
use crate::testing::{first_closed, test_group};
use ltl_io::Gate;
use std::alloc::{AllocError, Global};
use std::thread::Threads;

/// What a group of tests did, with the place at which the pass goes on.
pub enum Advance {
    /// It replaced nothing.
    Left(u32),
    /// It replaced an occurrence.
    Taken(u32),
}

/// The next kept occurrences from a place on, and the place behind them: at most this number, and none from
/// `end` on.
fn gather(
    task: &Task<'_>,
    marks: &Vec<bool>,
    at: u32,
    end: u32,
    workers: u32,
    places: &mut Vec<u32>,
) -> Result<u32, AllocError>
    requires task { IsTask task.now }
    requires marks { AreMarks task.now marks.now.items }
    requires clear { IsClear (formula_of task.now) (marked marks.now.items) at }
    requires before { at < end }
    requires end { end ≤ length task.now.order.items }
    requires some { 1 ≤ workers }
    requires none { length places.old.items ≡ 0 }
    ensures next { IfOk result (λ stop. AreNext (formula_of task.now)
        (marked marks.now.items) at stop places.new.items) }
    ensures clear { IfOk result (λ stop. IsClear (formula_of task.now) (marked marks.now.items) stop) }
    ensures on { IfOk result (λ stop. at < stop) }
    ensures within { IfOk result (λ stop. stop ≤ length task.now.order.items) }
    ensures few { OnOk result (length places.new.items ≤ workers) }
{
    let mut stop = at;
    'places: while stop < end && places.len() < workers as usize {
        if marks[stop as usize] {
            stop += task.sizes[stop as usize];
            continue;
        }
        places.push(stop)?;
        stop += 1;
    }
    Ok(stop)
}

/// Tests the next kept occurrences, as many as there are workers, and replaces the first that the formula can
/// do without.
fn step<R: Threads + Sync, G: Gate + Sync>(
    rt: &R,
    alloc: Global,
    task: &Task<'_>,
    workers: u32,
    gate: &G,
    marks: &mut Vec<bool>,
    at: u32,
    end: u32,
) -> Result<Advance, AllocError>
    requires task { IsTask task.now }
    requires marks { AreMarks task.now marks.old.items }
    requires clear { IsClear (formula_of task.now) (marked marks.old.items) at }
    requires before { at < end }
    requires end { end ≤ length task.now.order.items }
    requires some { 1 ≤ workers }
    requires few { workers ≤ 16 }
    ensures step { IfOk result (λ step. IsStep task.now (marked marks.old.items) at step
        (marked marks.new.items)) }
    ensures marks { OnOk result (AreMarks task.now marks.new.items) }
{
    let mut places = Vec::new(alloc);
    let stop = gather(task, marks, at, end, workers, &mut places)?;
    let found = test_group(rt, alloc, task, marks, &places, gate)?;
    let first = first_closed(&found)?;
    let Some(index) = first else {
        return Ok(Advance::Left(stop));
    };
    let place = places[index];
    mark(task, marks, place);
    let size = task.sizes[place as usize];
    Ok(Advance::Taken(place + size))
}

/// One pass. Where it replaces something, it answers a place from which on nothing more can be replaced; such
/// a place of the pass before is `settled`.
fn pass<R: Threads + Sync, G: Gate + Sync>(
    rt: &R,
    alloc: Global,
    task: &Task<'_>,
    workers: u32,
    gate: &G,
    marks: &mut Vec<bool>,
    settled: u32,
) -> Result<Option<u32>, AllocError>
    requires task { IsTask task.now }
    requires marks { AreMarks task.now marks.old.items }
    requires within { settled ≤ length task.now.order.items }
    requires settled { IsSettled task.now (marked marks.old.items) settled }
    requires some { 1 ≤ workers }
    requires few { workers ≤ 16 }
    ensures passed { IfOk result (λ last. IsPassed task.now (marked marks.old.items) last
        (marked marks.new.items)) }
    ensures within { IfOk result (λ last. IfSome last (λ n. n ≤ length task.now.order.items)) }
    ensures marks { OnOk result (AreMarks task.now marks.new.items) }
{
    let mut at = 0;
    let mut end = settled;
    let mut last = None;
    'groups: while at < end {
        let advance = step(rt, alloc, task, workers, gate, marks, at, end)?;
        match advance {
            Advance::Left(next) => at = next,
            Advance::Taken(next) => {
                at = next;
                end = task.order.len() as u32;
                last = Some(next);
            }
        }
    }
    Ok(last)
}

/// Passes until one replaces nothing.
pub fn passes<R: Threads + Sync, G: Gate + Sync>(
    rt: &R,
    alloc: Global,
    task: &Task<'_>,
    workers: u32,
    gate: &G,
) -> Result<Vec<bool>, AllocError>
    requires task { IsTask task.now }
    requires some { 1 ≤ workers }
    requires few { workers ≤ 16 }
    ensures marks { IfOk result (λ marks. AreMarks task.now marks.items) }
    ensures reached { IfOk result (λ marks. IsReached (test_of task.now) (formula_of task.now)
        (marked marks.items)) }
{
    let mut marks = vec![in alloc; false; task.order.len()]?;
    let mut settled = task.order.len() as u32;
    'passes: loop {
        let passed = pass(rt, alloc, task, workers, gate, &mut marks, settled)?;
        match passed {
            Some(last) => settled = last,
            None => return Ok(marks),
        }
    }
}
