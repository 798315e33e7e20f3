// Why a conflict came: the walk down the trail resolves what reasons forced, until the clause that is left
// has one literal of the conflict's level (the first unique implication point), or decisions alone. Of lower
// levels the clause keeps what does not follow from the rest, and of level 0 nothing. The reasons that were
// resolved, each behind those that it needs, and then the conflict are the clause's hints. After
// Marques-Silva and Sakallah, GRASP (1999), and, for the hints, Goldberg and Novikov, Verification of proofs
// of unsatisfiability for CNF formulas (2003).
ghost use Rattle.std.specs.Prelude.{◌≡◌, ℕ, ◌<◌, ◌≤◌, List, [], ◌∷◌, ◌++◌, length, map, reverse, All, Some};
ghost use Rattle.std.specs.Prelude.{None, OnOk, IfOk, slice_index_or};
ghost use Rattle.cdcl_trail.specs.Trail.{IsConflict, literals_of, blank_entry, IsDecision};
ghost use Rattle.cdcl_analyze.specs.Learnt.{IsLearnt};
ghost use Rattle.cdcl_analyze.specs.Reason.{read_literals};
ghost use Rattle.cdcl_trail.specs.Values.{IsBelow};
ghost use Rattle.cdcl_analyze.specs.Analysis.{AreFromOne, AreWaiting, CanWalk, IsLike, Walks, refuted_at};
ghost use Rattle.cdcl_analyze.specs.Marks.{IsMarked, FoundSame, IsUnasked};
ghost use Rattle.cdcl_analyze.specs.Consequences.{IsRest};
ghost use Rattle.cdcl_trail.specs.declared.assigned.TrailEntry.{TrailEntry};
ghost use Rattle.cdcl_analyze.specs.declared.analyze.Cut.TheVariants.{Decisions};

use crate::graph::ImplicationGraph;
use crate::marks::{Consequence, Marks};
use crate::minimize::follows;
use crate::reason::Reason;
use cdcl_activity::Choices;
use cdcl_trail::TrailEntry;
use cnf_base::{Hint, Literal};
use std::alloc::{AllocError, Global};

/// A clause that explains a conflict, with its hints.
#[derive(Drop)]
pub struct Learnt {
    pub clause: Vec<Literal>,
    pub hints: Vec<Hint>,
    /// The places of the trail at which the opposites of the clause's literals stand, the last first.
    pub places: Vec<usize>,
}

/// Which of the marked literals a learnt clause keeps.
#[derive(Clone, Copy, Drop)]
pub enum Cut {
    /// Those of decisions alone.
    Decisions,
    /// Of this level the last one that alone leads to the conflict, and those of lower levels but 0.
    FirstUnique(usize),
}

/// Most clauses have fewer literals. This room is there beforehand, for a list that grows from nothing moves
/// again and again.
const LITERALS: usize = 64;

/// The same for hints.
const HINTS: usize = 512;

/// No literals, no places and no hints.
fn blank(alloc: Global) -> Result<Learnt, AllocError>
    ensures clause { IfOk result (λ learnt. learnt.clause.items ≡ []) }
    ensures places { IfOk result (λ learnt. learnt.places.items ≡ []) }
    ensures hints { IfOk result (λ learnt. learnt.hints.items ≡ []) }
{
    Ok(Learnt {
        clause: Vec::with_capacity(alloc, LITERALS)?,
        hints: Vec::with_capacity(alloc, HINTS)?,
        places: Vec::with_capacity(alloc, LITERALS)?,
    })
}

/// Counts a letter that is marked anew, if its level is that of the cut.
fn count(cut: Cut, reached: usize, open: &mut usize) {
    match cut {
        Cut::Decisions => {}
        Cut::FirstUnique(level) => {
            if reached == level {
                *open = open.saturating_add(1);
            }
        }
    }
}

/// Marks the letter, lets its place wait, and makes it more active, if it had no mark.
#[inline(always)]
fn mark_letter(
    graph: &ImplicationGraph<'_>,
    cut: Cut,
    letter: u32,
    marks: &mut Marks,
    choices: &mut Choices,
    open: &mut usize,
) -> Result<(), AllocError>
    requires known { letter < length graph.now.values }
    requires size { length graph.now.values ≤ length marks.old.stamps }
    ensures size { length marks.new.stamps ≡ length marks.old.stamps }
    ensures kept { OnOk result ((x : ℕ) → IsMarked marks.old x → IsMarked marks.new x) }
    ensures marked { OnOk result (IsMarked marks.new letter) }
    ensures waiting { OnOk result ((end : ℕ) → AreWaiting graph.now.trail end marks.old
        → AreWaiting graph.now.trail end marks.new) }
    ensures found { FoundSame marks.old marks.new }
{
    if marks.has(letter as usize) {
        return Ok(());
    }
    let place = graph.place_of(letter as usize);
    let level = graph.level_at(place);
    count(cut, level, open);
    marks.join(level);
    marks.mark(letter as usize, place)?;
    choices.bump(letter);
    Ok(())
}

/// Marks the letters of the clause, and counts those that are new on the level of the cut.
#[inline(always)]
fn mark(
    graph: &ImplicationGraph<'_>,
    cut: Cut,
    clause: &Reason<'_>,
    marks: &mut Marks,
    choices: &mut Choices,
    open: &mut usize,
) -> Result<(), AllocError>
    requires known { All (IsBelow (length graph.now.values)) (read_literals clause.now) }
    requires size { length graph.now.values ≤ length marks.old.stamps }
    ensures size { length marks.new.stamps ≡ length marks.old.stamps }
    ensures kept { OnOk result ((x : ℕ) → IsMarked marks.old x → IsMarked marks.new x) }
    ensures all { OnOk result (All (λ l. IsMarked marks.new l.letter.0) (read_literals clause.now)) }
    ensures waiting { OnOk result ((end : ℕ) → AreWaiting graph.now.trail end marks.old
        → AreWaiting graph.now.trail end marks.new) }
    ensures found { FoundSame marks.old marks.new }
{
    for place in 0..clause.len() {
        mark_letter(graph, cut, clause.letter(place), marks, choices, open)?;
    }
    Ok(())
}

/// Keeps a literal, whose opposite stands at the place, in the clause.
fn keep(learnt: &mut Learnt, literal: Literal, place: usize) -> Result<(), AllocError>
    ensures clause { OnOk result (learnt.new.clause.items ≡ learnt.old.clause.items ++ literal ∷ []) }
    ensures places { OnOk result (learnt.new.places.items ≡ learnt.old.places.items ++ place ∷ []) }
    ensures hints { OnOk result (learnt.new.hints.items ≡ learnt.old.hints.items) }
{
    learnt.clause.push(literal)?;
    learnt.places.push(place)?;
    Ok(())
}

/// Adds a hint behind the others.
fn cite(learnt: &mut Learnt, hint: Hint) -> Result<(), AllocError>
    ensures clause { OnOk result (learnt.new.clause.items ≡ learnt.old.clause.items) }
    ensures places { OnOk result (learnt.new.places.items ≡ learnt.old.places.items) }
    ensures hints { OnOk result (learnt.new.hints.items ≡ learnt.old.hints.items ++ hint ∷ []) }
{
    learnt.hints.push(hint)?;
    Ok(())
}

/// Goes down the marked places of the trail below `from`, resolves what has a reason and keeps the decisions
/// in the clause.
fn walk(
    graph: &ImplicationGraph<'_>,
    from: usize,
    marks: &mut Marks,
    choices: &mut Choices,
    learnt: &mut Learnt,
) -> Result<(), AllocError>
    requires can_walk { CanWalk graph.now from marks.old }
    ensures size { length marks.new.stamps ≡ length marks.old.stamps }
    ensures walked { OnOk result ((t : List TrailEntry) → IsLike graph.now t from
        → Walks graph.now.log t from 0 marks.old marks.new learnt.old learnt.new) }
    ensures decided { OnOk result ((t : List TrailEntry) → IsLike graph.now t from
        → All (IsDecision t) learnt.old.places.items → All (IsDecision t) learnt.new.places.items) }
{
    graph.invariant();
    let mut open: usize = 0;
    let mut end = from;
    'down: while let Some(place) = marks.pop(end) {
        end = place;
        let entry = graph.entry(place);
        match entry.reason {
            Some(hint) => {
                cite(learnt, hint)?;
                let clause = graph.reason(entry.literal.letter.0, hint);
                mark(graph, Cut::Decisions, &clause, marks, choices, &mut open)?;
                continue 'down;
            }
            None => {
                keep(learnt, entry.literal.opposite(), place)?;
                continue 'down;
            }
        }
    }
    Ok(())
}

/// Goes down the marked places of the trail and resolves what stands there, while more than one literal of
/// the cut's level is open. The clause keeps the last one, whose place it answers.
fn walk_level(
    graph: &ImplicationGraph<'_>,
    cut: Cut,
    marks: &mut Marks,
    choices: &mut Choices,
    open: &mut usize,
    learnt: &mut Learnt,
) -> Result<usize, AllocError>
    requires can_walk { CanWalk graph.now (length graph.now.trail) marks.old }
    ensures size { length marks.new.stamps ≡ length marks.old.stamps }
    ensures can_walk { IfOk result (λ place. CanWalk graph.now place marks.new) }
    ensures walked { IfOk result (λ place. Walks graph.now.log graph.now.trail (length graph.now.trail) place
        marks.old marks.new learnt.old learnt.new) }
    ensures found { OnOk result (FoundSame marks.old marks.new) }
{
    graph.invariant();
    let mut end = graph.len();
    'down: while let Some(place) = marks.pop(end) {
        end = place;
        let entry = graph.entry(place);
        match entry.reason {
            Some(hint) => {
                if *open <= 1 {
                    keep(learnt, entry.literal.opposite(), place)?;
                    return Ok(place);
                }
                *open -= 1;
                cite(learnt, hint)?;
                let clause = graph.reason(entry.literal.letter.0, hint);
                mark(graph, cut, &clause, marks, choices, open)?;
                continue 'down;
            }
            None => {
                keep(learnt, entry.literal.opposite(), place)?;
                return Ok(place);
            }
        }
    }
    Ok(0)
}

/// How many of the first `from` entries are of level 0: those stand before all others. It is found by halves.
fn base_of(graph: &ImplicationGraph<'_>, from: usize) -> usize
    ensures { result ≤ from }
{
    let mut low = 0;
    let mut high = from;
    'halves: while low < high {
        let middle = low + (high - low) / 2;
        if graph.level_at(middle) == 0 {
            low = middle + 1;
        } else {
            high = middle;
        }
    }
    low
}

/// Goes down the marked places from `from` to the base, and keeps in the clause what does not follow from the
/// rest. What follows is left in the marks, and so is what waits below the base.
fn keep_rest(
    graph: &ImplicationGraph<'_>,
    base: usize,
    from: usize,
    marks: &mut Marks,
    learnt: &mut Learnt,
) -> Result<(), AllocError>
    requires base { base ≤ from }
    requires can_walk { CanWalk graph.now from marks.old }
    requires fresh { IsUnasked marks.old }
    ensures size { length marks.new.stamps ≡ length marks.old.stamps }
    ensures can_walk { OnOk result (CanWalk graph.now base marks.new) }
    ensures rest { OnOk result (IsRest graph.now.log.inputs graph.now.log.lines graph.now.trail base from base
        marks.old marks.new learnt.old.clause.items learnt.old.places.items learnt.new.clause.items
        learnt.new.places.items) }
    ensures hints { OnOk result (learnt.new.hints.items ≡ learnt.old.hints.items) }
{
    graph.invariant();
    let mut end = from;
    'down: while let Some(place) = marks.pop(end) {
        let entry = graph.entry(place);
        let letter = entry.literal.letter.0;
        if place < base {
            // It waits for the walk over what stands below the base.
            marks.mark(letter as usize, place)?;
            return Ok(());
        }
        end = place;
        if !follows(graph, base, letter, marks)? {
            marks.invariant();
            marks.deny(letter as usize);
            keep(learnt, entry.literal.opposite(), place)?;
        }
    }
    Ok(())
}

/// Puts the reasons by which values follow behind the hints, the last first.
fn cite_consequences(consequences: &[Consequence], learnt: &mut Learnt) -> Result<(), AllocError>
    ensures clause { OnOk result (learnt.new.clause.items ≡ learnt.old.clause.items) }
    ensures places { OnOk result (learnt.new.places.items ≡ learnt.old.places.items) }
    ensures hints { OnOk result (learnt.new.hints.items ≡ learnt.old.hints.items
        ++ reverse (map (λ c. c.reason) consequences.now)) }
{
    let mut count = consequences.len();
    'down: while count > 0 {
        count -= 1;
        cite(learnt, consequences[count].reason)?;
    }
    Ok(())
}

/// Makes the letters that follow more active, the last that was found first. What is marked is so already.
fn bump_consequences(marks: &Marks, choices: &mut Choices) {
    let consequences = marks.consequences();
    let mut count = consequences.len();
    'down: while count > 0 {
        count -= 1;
        let letter = consequences[count].letter;
        if !marks.has(letter as usize) {
            choices.bump(letter);
        }
    }
}

/// Goes down the marked places below `from`: the clause keeps what does not follow from the rest, and what
/// stands on level 0 is resolved away.
fn minimize(
    graph: &ImplicationGraph<'_>,
    from: usize,
    marks: &mut Marks,
    choices: &mut Choices,
    learnt: &mut Learnt,
) -> Result<(), AllocError>
    requires can_walk { CanWalk graph.now from marks.old }
    requires fresh { IsUnasked marks.old }
    ensures size { length marks.new.stamps ≡ length marks.old.stamps }
    ensures walked { OnOk result (Walks graph.now.log graph.now.trail from 0 marks.old marks.new learnt.old
        learnt.new) }
{
    graph.invariant();
    let base = base_of(graph, from);
    keep_rest(graph, base, from, marks, learnt)?;
    bump_consequences(marks, choices);
    cite_consequences(marks.consequences(), learnt)?;
    walk(graph, base, marks, choices, learnt)
}

/// Goes down the marked places of the trail, and resolves there what the cut does not keep in the clause.
fn resolve(
    graph: &ImplicationGraph<'_>,
    cut: Cut,
    marks: &mut Marks,
    choices: &mut Choices,
    open: &mut usize,
    learnt: &mut Learnt,
) -> Result<(), AllocError>
    requires can_walk { CanWalk graph.now (length graph.now.trail) marks.old }
    requires fresh { IsUnasked marks.old }
    ensures size { length marks.new.stamps ≡ length marks.old.stamps }
    ensures walked { OnOk result (Walks graph.now.log graph.now.trail (length graph.now.trail) 0 marks.old
        marks.new learnt.old learnt.new) }
    ensures decided { OnOk result (cut ≡ Decisions → All (IsDecision graph.now.trail) learnt.old.places.items
        → All (IsDecision graph.now.trail) learnt.new.places.items) }
{
    graph.invariant();
    match cut {
        Cut::Decisions => {
            walk(graph, graph.len(), marks, choices, learnt)?;
            return Ok(());
        }
        Cut::FirstUnique(_) => {
            let place = walk_level(graph, cut, marks, choices, open, learnt)?;
            minimize(graph, place, marks, choices, learnt)?;
            return Ok(());
        }
    }
}

/// Explains a conflict.
pub fn explain(
    alloc: Global,
    graph: &ImplicationGraph<'_>,
    cut: Cut,
    marks: &mut Marks,
    choices: &mut Choices,
    conflict: Hint,
) -> Result<Learnt, AllocError>
    requires size { length graph.now.values ≤ length marks.old.stamps }
    requires from_one { AreFromOne graph.now.trail }
    requires conflict { IsConflict graph.now.log.inputs graph.now.log.lines (literals_of graph.now.trail)
        conflict }
    ensures size { length marks.new.stamps ≡ length marks.old.stamps }
    ensures learnt { IfOk result (IsLearnt graph.now.log graph.now.trail) }
    ensures decided { IfOk result (λ learnt. cut ≡ Decisions
        → All (IsDecision graph.now.trail) learnt.places.items) }
{
    graph.invariant();
    marks.begin();
    let mut open: usize = 0;
    let mut learnt = blank(alloc)?;
    cite(&mut learnt, conflict)?;
    let clause = graph.clause(conflict);
    mark(graph, cut, &clause, marks, choices, &mut open)?;
    resolve(graph, cut, marks, choices, &mut open, &mut learnt)?;
    learnt.hints.reverse();
    Ok(learnt)
}

/// Explains by decisions why the literal at a place is true, as a conflict with the decision that it is
/// false.
pub fn explain_forced(
    alloc: Global,
    graph: &ImplicationGraph<'_>,
    marks: &mut Marks,
    choices: &mut Choices,
    place: usize,
    hint: Hint,
) -> Result<Learnt, AllocError>
    requires size { length graph.now.values ≤ length marks.old.stamps }
    requires from_one { AreFromOne graph.now.trail }
    requires place { place < length graph.now.trail }
    requires forced { (slice_index_or graph.now.trail place blank_entry).reason ≡ Some hint }
    ensures size { length marks.new.stamps ≡ length marks.old.stamps }
    ensures learnt { IfOk result (IsLearnt graph.now.log (refuted_at graph.now.trail place)) }
    ensures decided { IfOk result (λ learnt. All (IsDecision (refuted_at graph.now.trail place))
        learnt.places.items) }
{
    graph.invariant();
    marks.begin();
    let mut open: usize = 0;
    let mut learnt = blank(alloc)?;
    keep(&mut learnt, graph.entry(place).literal, place)?;
    cite(&mut learnt, hint)?;
    let clause = graph.clause(hint);
    mark(graph, Cut::Decisions, &clause, marks, choices, &mut open)?;
    walk(graph, place, marks, choices, &mut learnt)?;
    learnt.hints.reverse();
    Ok(learnt)
}
