// A learnt clause without what follows from the rest of it: a marked letter is left out where each other
// literal of its reason is marked, or on level 0, or follows from such ones in turn. The search goes down the
// reasons and comes back up: so what follows is found behind all that it follows from, which is the order in
// which hints have to stand, and no second walk is needed for them. What follows and what doesn't is
// remembered for one analysis, so that each letter is asked once but for those found on the way to one that
// does not follow: these are taken back, for no hint is to be there in vain. A letter on a level of which the
// clause has nothing is not asked at all. After Sorensson and Biere, Minimizing learned clauses (2009).
ghost use Rattle.std.specs.Prelude.{◌≡◌, ℕ, ◌<◌, ◌⊎◌, ◌↔◌, IsTrue, List, true, All, length, Some, None, IfOk};
ghost use Rattle.std.specs.Prelude.{OnOk};
ghost use Rattle.cnf_base.specs.declared.literal.Literal.{Literal};
ghost use Rattle.cnf_base.specs.Step.{named};
ghost use Rattle.cdcl_trail.specs.Trail.{literal_at};
ghost use Rattle.cdcl_analyze.specs.Marks.{outcome_of};
ghost use Rattle.cdcl_analyze.specs.Consequences.{StandsBelow, IsGiven, HasReason, Grows, CanAsk, GrowsBy};

use crate::graph::ImplicationGraph;
use crate::marks::Marks;
use cnf_base::Hint;
use std::alloc::AllocError;

/// How many reasons deep a letter may follow.
const STEPS: u32 = 1000;

/// Whether the letter's value follows from what the clause keeps and what is marked below the base, as far as
/// chains of at most `STEPS` reasons tell.
#[inline(always)]
pub(crate) fn follows(
    graph: &ImplicationGraph<'_>,
    base: usize,
    letter: u32,
    marks: &mut Marks,
) -> Result<bool, AllocError>
    requires can_ask { CanAsk graph.now base marks.old }
    requires stands { StandsBelow graph.now.trail (length graph.now.trail) letter }
    ensures size { length marks.new.stamps ≡ length marks.old.stamps }
    ensures outcome { IfOk result (λ follows. IsTrue follows ↔ (outcome_of marks.new letter ≡ Some true)) }
    ensures grows { OnOk result (GrowsBy graph.now base letter marks.old marks.new) }
{
    match marks.outcome(letter as usize) {
        Some(follows) => Ok(follows),
        None => {
            ask(graph, base, letter, marks, STEPS)?;
            Ok(marks.outcome(letter as usize) == Some(true))
        }
    }
}

/// Whether the letter, of which nothing is known, is marked, or stands below the base, or its value follows
/// from such ones. What is marked follows or stays in the clause, and its outcome tells; below the base the
/// letter is marked, and its place waits.
#[cycle(following)]
fn ask(
    graph: &ImplicationGraph<'_>,
    base: usize,
    letter: u32,
    marks: &mut Marks,
    steps: u32,
) -> Result<bool, AllocError>
    requires can_ask { CanAsk graph.now base marks.old }
    requires stands { StandsBelow graph.now.trail (length graph.now.trail) letter }
    requires unknown { outcome_of marks.old letter ≡ None }
    ensures size { length marks.new.stamps ≡ length marks.old.stamps }
    ensures given { IfOk result (λ is_given. is_given ≡ true
        → IsGiven graph.now.trail base marks.new letter) }
    ensures grows { OnOk result (GrowsBy graph.now base letter marks.old marks.new) }
{
    graph.invariant();
    marks.invariant();
    let place = graph.place_of(letter as usize);
    let marked = marks.has(letter as usize);
    if place < base {
        if !marked {
            marks.mark(letter as usize, place)?;
        }
        return Ok(true);
    }
    let entry = graph.entry(place);
    if !marked && !marks.may_have(entry.level) {
        return Ok(false);
    }
    match entry.reason {
        Some(reason) => {
            let follows = derive(graph, base, letter, reason, marks, steps)?;
            Ok(marked || follows)
        }
        None => {
            marks.deny(letter as usize);
            Ok(marked)
        }
    }
}

/// Whether the letter's value follows by this reason, in at most `steps` steps; remembers what it finds.
#[cycle(following)]
fn derive(
    graph: &ImplicationGraph<'_>,
    base: usize,
    letter: u32,
    reason: Hint,
    marks: &mut Marks,
    steps: u32,
) -> Result<bool, AllocError>
    requires can_ask { CanAsk graph.now base marks.old }
    requires reason { HasReason graph.now.trail base letter reason }
    requires unknown { outcome_of marks.old letter ≡ None }
    ensures size { length marks.new.stamps ≡ length marks.old.stamps }
    ensures outcome { IfOk result (λ follows. outcome_of marks.new letter ≡ Some follows) }
    ensures grows { OnOk result (GrowsBy graph.now base letter marks.old marks.new) }
{
    graph.invariant();
    let count = marks.consequences().len();
    if steps > 0 && are_given(graph, base, letter, reason, marks, steps - 1)? {
        marks.invariant();
        marks.conclude(letter, reason)?;
        return Ok(true);
    }
    marks.take_back(count);
    marks.invariant();
    marks.deny(letter as usize);
    Ok(false)
}

/// Whether each literal of the reason but that of the letter is given.
#[cycle(following)]
fn are_given(
    graph: &ImplicationGraph<'_>,
    base: usize,
    letter: u32,
    reason: Hint,
    marks: &mut Marks,
    steps: u32,
) -> Result<bool, AllocError>
    requires can_ask { CanAsk graph.now base marks.old }
    requires reason { HasReason graph.now.trail base letter reason }
    ensures size { length marks.new.stamps ≡ length marks.old.stamps }
    ensures given { IfOk result (λ are_given. are_given ≡ true → (clause : List Literal)
        → named graph.now.log.inputs graph.now.log.lines reason ≡ Some clause
        → All (λ l. (l.letter.0 ≡ letter) ⊎ IsGiven graph.now.trail base marks.new l.letter.0) clause) }
    ensures grows { OnOk result ((place : ℕ) → place < length graph.now.trail
        → (literal_at graph.now.trail place).letter.0 ≡ letter
        → Grows graph.now.log.inputs graph.now.log.lines graph.now.trail base place marks.old marks.new) }
{
    graph.invariant();
    let clause = graph.reason(letter, reason);
    'others: for place in 0..clause.len() {
        let other = clause.letter(place);
        if other == letter {
            continue 'others;
        }
        let is_given = match marks.given(other as usize) {
            Some(is_given) => is_given,
            None => ask(graph, base, other, marks, steps)?,
        };
        if !is_given {
            return Ok(false);
        }
    }
    Ok(true)
}
