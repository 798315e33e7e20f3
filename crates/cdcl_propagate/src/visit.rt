// A clause that watches a literal that became false, and whose blocker is not true: the other watched literal
// is true, or another literal is watched in its place, or the other is forced, or the clause is false.
// Wherever it stays in the list, its other watched literal becomes the blocker. After Moskewicz, Madigan,
// Zhao, Zhang and Malik, Chaff (2001).
ghost use Rattle.std.specs.Prelude.{◌≡◌, ℕ, ◌<◌, ◌≤◌, List, [], All, Contains, length, Option, Some, None};
ghost use Rattle.std.specs.Prelude.{MatchOption, IfOk, slice_index_or};
ghost use Rattle.cdcl_trail.specs.Trail.{literals_of, IsConflict};
ghost use Rattle.cdcl_watches.specs.Watching.{code, clause_of, IsWatch};
ghost use Rattle.cdcl_watches.specs.Watchers.{nobody, IsWalked, walk_in, walked};
ghost use Rattle.cdcl_watches.specs.Heads.{number_of};
ghost use Rattle.cdcl_propagate.specs.Lasting.{IsLasting};
ghost use Rattle.cdcl_propagate.specs.Visit.{IsVisiting, IsPassed, IsGrown, IsFaced, IsReplacement};
ghost use Rattle.cdcl_propagate.specs.Visit.{AreFalseFrom, false_at, watched_by};

use cdcl_trail::{Assigned, TrailEntry, decode_hint};
use cdcl_watches::{Arena, Clause, Walk, WatchLists, keep, number, rewatch};
use clause_log::Log;
use cnf_base::{Hint, Literal};
use std::alloc::AllocError;

/// The place of a literal behind the first two that is not false, looked for from the end: there a learnt
/// clause has what became false first. Such a literal keeps its value, or stays without one, for longer, and
/// so the clause is visited less often.
fn find(assigned: &Assigned, clause: &Clause<'_>) -> Option<usize>
    requires { All (λ l. l.letter.0 < length assigned.now.values) clause.now }
    ensures { MatchOption result (AreFalseFrom assigned.now.trail clause.now 2 (length clause.now))
        (IsReplacement assigned.now.trail clause.now) }
{
    let mut end = clause.len();
    'down: while end > 2 {
        let last = end - 1;
        if !assigned.holds(clause.get(last).opposite()) {
            return Some(last);
        }
        end = last;
    }
    None
}

/// Makes the literal, one of the first two of the clause of this head, its second.
fn face(arena: &mut Arena, head: u32, literal: Literal)
    requires known { Contains arena.old.heads head }
    requires low { number_of arena.old.heads head < length arena.old.clauses }
    requires watch { IsWatch (clause_of arena.old.clauses (number_of arena.old.heads head)) literal }
    ensures heads { arena.new.heads ≡ arena.old.heads }
    ensures names { arena.new.names ≡ arena.old.names }
    ensures faced { (lists : List (List ℕ)) → IsFaced (watched_by arena.old lists)
        (watched_by arena.new lists) (number_of arena.old.heads head) literal }
{
    if number(arena.clause(head).get(1)) == number(literal) {
        return;
    }
    arena.swap(head, 0, 1);
}

/// Visits the clause of the next watcher in the list of the literal that became false.
pub fn visit(
    assigned: &mut Assigned,
    arena: &mut Arena,
    lists: &mut WatchLists,
    log: &Log,
    place: usize,
    falsified: Literal,
    walk: &mut Walk,
    head: u32,
) -> Result<Option<Hint>, AllocError>
    requires falsified { falsified ≡ false_at assigned.old.trail place }
    requires walked { IsWalked (walk_in arena.old lists.old falsified walk.old) }
    requires there { walk.old.next < length (slice_index_or lists.old (code falsified) []) }
    requires head { head ≡ (slice_index_or (slice_index_or lists.old (code falsified) []) walk.old.next
        nobody).head }
    requires visiting { IsVisiting log.now.inputs log.now.lines place walk.old.kept assigned.old
        (walked (walk_in arena.old lists.old falsified walk.old)) }
    ensures grown { IsGrown assigned.old.trail assigned.new.trail }
    ensures letters { length assigned.new.values ≡ length assigned.old.values }
    ensures walked { IsWalked (walk_in arena.new lists.new falsified walk.new) }
    ensures kept { IsVisiting log.now.inputs log.now.lines place 0 assigned.new
        (walked (walk_in arena.new lists.new falsified walk.new)) }
    ensures names { arena.new.names ≡ arena.old.names }
    ensures lasting { (n : ℕ) → n ≤ place → IsLasting arena.old.clauses assigned.old.trail n
        → IsLasting arena.new.clauses assigned.new.trail n }
    ensures found { IfOk result (λ found. MatchOption found
        (IsPassed log.now.inputs log.now.lines place assigned.new
        (walk_in arena.old lists.old falsified walk.old) (walk_in arena.new lists.new falsified walk.new))
        (IsConflict log.now.inputs log.now.lines (literals_of assigned.new.trail))) }
{
    face(arena, head, falsified);
    let other = arena.clause(head).get(0);
    if assigned.holds(other) {
        keep(arena, lists, falsified, walk, head, other);
        return Ok(None);
    }
    match find(assigned, &arena.clause(head)) {
        Some(j) => {
            let replacement = arena.clause(head).get(j);
            rewatch(arena, lists, falsified, walk, head, replacement, j)?;
            return Ok(None);
        }
        None => {}
    }
    let hint = decode_hint(arena.name(head));
    keep(arena, lists, falsified, walk, head, other);
    if assigned.holds(other.opposite()) {
        return Ok(Some(hint));
    }
    let level = assigned.level();
    assigned.assign(TrailEntry {
        literal: other,
        level,
        reason: Some(hint),
    })?;
    arena.note(other.letter.0, head);
    Ok(None)
}
