// Groups of as many consecutive formula lines as there are workers, whose lines are decided side by side. A
// worker goes from its line of one group to that of the next and waits for nobody, so threads are made once
// for many groups. The answers are taken in the order of the lines.
ghost use Rattle.std.specs.Prelude.{◌≡◌, ℕ, ◌+◌, ◌^◌, ◌<◌, ◌≤◌, [], length, IfOk, OnOk, slice_index_or};
ghost use Rattle.batch_run.specs.Outcomes.{AreAnswers};
ghost use Rattle.batch_run.specs.Grouping.{Passes, AreOutcomes, HasOutcomes, end_of, lines_of};

use crate::answer::{LineAnswer, LineOutcome};
use crate::deciding::outcome;
use crate::lines::{Line, Rest};
use ltl_io::Gate;
use ltl_syntax::Kind;
use std::alloc::{AllocError, Global};
use std::thread;
use std::thread::Threads;

/// How many groups are decided before the answers are taken.
const GROUPS: u32 = 65536;

/// What is said of the lines of one worker, one of each group. There are fewer where there is no memory.
#[derive(Drop)]
struct Lane {
    outcomes: Vec<LineOutcome>,
}

/// The answers to the formula lines of a text of at most 16,777,216 bytes, in order. Each line is a piece,
/// and the gate is told of each as it begins; pieces are numbered from 0 over the whole text. `asked` is the
/// depth up to which a verdict is sought. With one worker no thread is made.
pub fn answers<R: Threads + Sync, G: Gate + Sync>(
    rt: &R,
    alloc: Global,
    text: &[u8],
    kind: Kind,
    asked: u32,
    workers: u32,
    gate: &G,
) -> Result<Vec<LineAnswer>, AllocError>
    requires size { length text.now ≤ 16777216 }
    requires asked { asked ≤ 1000 }
    requires some { 1 ≤ workers }
    requires few { workers ≤ 16 }
    ensures { IfOk result (λ found. AreAnswers kind asked text.now found.items) }
{
    let most = most_lines(workers, text.len());
    let mut lanes = lanes(alloc, workers, most)?;
    let mut lines = Vec::with_capacity(alloc, most as usize)?;
    let mut answers = Vec::new(alloc);
    let mut rest = Rest { text, number: 1 };
    fill(&mut rest, most, &mut lines)?;
    'groups: while !lines.is_empty() {
        decide_groups(
            rt,
            alloc,
            &lines,
            kind,
            asked,
            answers.len() as u32,
            gate,
            workers as usize,
            &mut lanes,
        );
        collect(&lines, &lanes, &mut answers)?;
        fill(&mut rest, most, &mut lines)?;
    }
    Ok(answers)
}

/// How many lines are decided before the answers are taken: those of all these groups, or as many as there
/// can be in this number of bytes, where each takes a byte and the end of the line before it.
fn most_lines(workers: u32, bytes: usize) -> u32
    requires some { 1 ≤ workers }
    requires few { workers ≤ 16 }
    requires size { bytes ≤ 16777216 }
    ensures some { 1 ≤ result }
{
    let lines = bytes as u32 / 2 + 1;
    lines.min(workers * GROUPS)
}

/// A lane for each worker, with room for its lines among `most` of them.
fn lanes(alloc: Global, workers: u32, most: u32) -> Result<Vec<Lane>, AllocError>
    requires { 1 ≤ workers }
    ensures { IfOk result (λ lanes. length lanes.items ≡ workers) }
{
    let room = most as usize / workers as usize + 1;
    let mut lanes = Vec::with_capacity(alloc, workers as usize)?;
    'workers: for _worker in 0..workers {
        lanes.push(Lane {
            outcomes: Vec::with_capacity(alloc, room)?,
        })?;
    }
    Ok(lanes)
}

/// Takes the next formula lines, at most this number, or all that are left.
fn fill<'t>(rest: &mut Rest<'t>, most: u32, lines: &mut Vec<Line<'t>>) -> Result<(), AllocError>
    requires some { 1 ≤ most }
    requires small { end_of rest.old < 2 ^ 32 }
    ensures lines { OnOk result (Passes rest.old rest.new (lines_of lines.new.items)) }
    ensures all { OnOk result (lines.new.items ≡ [] → rest.new.text.now ≡ []) }
    ensures room { end_of rest.new ≤ end_of rest.old }
    ensures pieces { OnOk result (length lines.new.items + rest.old.number ≤ rest.new.number) }
{
    lines.clear();
    'places: for _place in 0..most {
        match rest.next_formula() {
            Some(line) => lines.push(line)?,
            None => return Ok(()),
        }
    }
    Ok(())
}

/// Decides the lines, each worker in a thread of its own where one can be made. The pieces are numbered from
/// `first`.
fn decide_groups<R: Threads + Sync, G: Gate + Sync>(
    rt: &R,
    alloc: Global,
    lines: &Vec<Line<'_>>,
    kind: Kind,
    asked: u32,
    first: u32,
    gate: &G,
    workers: usize,
    lanes: &mut Vec<Lane>,
)
    requires lanes { length lanes.old.items ≡ workers }
    requires some { 1 ≤ workers }
    requires few { workers ≤ 16 }
    requires asked { asked ≤ 1000 }
    requires pieces { first + length lines.now.items < 2 ^ 32 }
    ensures count { length lanes.new.items ≡ length lanes.old.items }
    ensures done { (worker : ℕ) (d : _) → worker < length lanes.old.items → AreOutcomes kind asked
        lines.now.items worker workers (slice_index_or lanes.new.items worker d) }
{
    thread::for_each_mut(
        rt,
        lanes.as_mut_slice(),
        workers,
        &|worker, lane| {
            decide_lane(
                alloc, lines, worker, workers, kind, asked, first, gate, lane,
            )
        },
    );
}

/// Decides the lines of one worker: that of its own number, counted from 0, and then one of each further
/// group, as far as memory reaches.
fn decide_lane<G: Gate>(
    alloc: Global,
    lines: &Vec<Line<'_>>,
    worker: usize,
    workers: usize,
    kind: Kind,
    asked: u32,
    first: u32,
    gate: &G,
    lane: &mut Lane,
)
    requires some { 1 ≤ workers }
    requires few { workers ≤ 16 }
    requires asked { asked ≤ 1000 }
    requires pieces { first + length lines.now.items < 2 ^ 32 }
    ensures { AreOutcomes kind asked lines.now.items worker workers lane.new }
{
    lane.outcomes.clear();
    let mut index = worker;
    'own: while index < lines.len() {
        gate.begin(first + index as u32);
        let Ok(outcome) = outcome(alloc, lines[index].text, kind, asked) else {
            return;
        };
        match lane.outcomes.push(outcome) {
            Ok(()) => index += workers,
            Err(_) => {
                lane.outcomes.clear();
                return;
            }
        }
    }
}

/// Takes the answers to the lines.
fn collect(
    lines: &Vec<Line<'_>>,
    lanes: &Vec<Lane>,
    answers: &mut Vec<LineAnswer>,
) -> Result<(), AllocError>
    requires { 1 ≤ length lanes.now.items }
    ensures { OnOk result (HasOutcomes lanes.now.items lines.now.items answers.old.items answers.new.items) }
{
    let workers = lanes.len();
    'places: for index in 0..lines.len() {
        let outcomes = &lanes[index % workers].outcomes;
        let group = index / workers;
        if group >= outcomes.len() {
            return Err(AllocError);
        }
        answers.push(LineAnswer {
            line: lines[index].number,
            outcome: outcomes[group],
        })?;
    }
    Ok(())
}
