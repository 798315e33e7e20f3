// Unit propagation: the literals that became false are taken in the order of the trail, and only the clauses
// that watch them are visited. A blocker is a literal of the clause that the list holds beside it: most
// clauses are true already, and a true blocker spares loading them. `lasting` marks the places whose visits a
// way back need not repeat. After Moskewicz, Madigan, Zhao, Zhang and Malik, Chaff (2001), and Sorensson and
// Een, MiniSat 2.1 (2008).
ghost use Rattle.std.specs.Prelude.{◌≡◌, ℕ, ◌+◌, ◌-◌, ◌*◌, ◌<◌, ◌≤◌, length, Option, Some, None, MatchOption};
ghost use Rattle.std.specs.Prelude.{IfOk};
ghost use Rattle.cdcl_trail.specs.Trail.{literals_of, IsConflict};
ghost use Rattle.cdcl_propagate.specs.Lasting.{IsLasting};
ghost use Rattle.cdcl_watches.specs.Watching.{code};
ghost use Rattle.cdcl_watches.specs.Watchers.{IsWalked, walk_in, walked};
ghost use Rattle.cdcl_propagate.specs.Visit.{IsGrown, IsReady, IsVisiting, false_at};

use crate::visit::visit;
use cdcl_trail::Assigned;
use cdcl_watches::{Arena, Walk, WatchLists, Watches, decode, number, pass};
use clause_log::Log;
use cnf_base::{Hint, Literal};
use std::alloc::AllocError;

/// Walks along the list of the literal that became false at the place, and visits the clauses whose blockers
/// are not true.
fn along(
    assigned: &mut Assigned,
    arena: &mut Arena,
    lists: &mut WatchLists,
    log: &Log,
    place: usize,
    falsified: Literal,
    walk: &mut Walk,
) -> Result<Option<Hint>, AllocError>
    requires falsified { falsified ≡ false_at assigned.old.trail place }
    requires walked { IsWalked (walk_in arena.old lists.old falsified walk.old) }
    requires visiting { IsVisiting log.now.inputs log.now.lines place walk.old.kept assigned.old
        (walked (walk_in arena.old lists.old falsified walk.old)) }
    ensures grown { IsGrown assigned.old.trail assigned.new.trail }
    ensures letters { length assigned.new.values ≡ length assigned.old.values }
    ensures walked { IsWalked (walk_in arena.new lists.new falsified walk.new) }
    ensures kept { IsReady log.now.inputs log.now.lines place assigned.new
        (walked (walk_in arena.new lists.new falsified walk.new)) }
    ensures names { arena.new.names ≡ arena.old.names }
    ensures lasting { (n : ℕ) → n ≤ place → IsLasting arena.old.clauses assigned.old.trail n
        → IsLasting arena.new.clauses assigned.new.trail n }
    ensures found { IfOk result (λ found. MatchOption found
        (IsReady log.now.inputs log.now.lines (place + 1) assigned.new
        (walked (walk_in arena.new lists.new falsified walk.new)))
        (IsConflict log.now.inputs log.now.lines (literals_of assigned.new.trail))) }
{
    let list = number(falsified);
    let count = lists.len(list);
    'along: while walk.next < count {
        let watcher = lists.get(list, walk.next);
        if assigned.holds(decode(watcher.blocker)) {
            pass(lists, list, walk, watcher);
            continue 'along;
        }
        match visit(
            assigned,
            arena,
            lists,
            log,
            place,
            falsified,
            walk,
            watcher.head,
        )? {
            Some(hint) => return Ok(Some(hint)),
            None => {}
        }
    }
    Ok(None)
}

/// Visits all clauses that watch the literal that became false at the place.
fn visit_list(
    assigned: &mut Assigned,
    watches: &mut Watches,
    log: &Log,
    place: usize,
) -> Result<Option<Hint>, AllocError>
    requires ready { IsReady log.now.inputs log.now.lines place assigned.old watches.old }
    requires there { place < length assigned.old.trail }
    ensures grown { IsGrown assigned.old.trail assigned.new.trail }
    ensures letters { length assigned.new.values ≡ length assigned.old.values }
    ensures kept { IsReady log.now.inputs log.now.lines place assigned.new watches.new }
    ensures names { watches.new.names ≡ watches.old.names }
    ensures lasting { (n : ℕ) → n ≤ place → IsLasting watches.old.clauses assigned.old.trail n
        → IsLasting watches.new.clauses assigned.new.trail n }
    ensures found { IfOk result (λ found. MatchOption found
        (IsReady log.now.inputs log.now.lines (place + 1) assigned.new watches.new)
        (IsConflict log.now.inputs log.now.lines (literals_of assigned.new.trail))) }
{
    assigned.invariant();
    let falsified = assigned.entry(place).literal.opposite();
    let mut walk = Walk { kept: 0, next: 0 };
    let found = along(
        assigned,
        &mut watches.arena,
        &mut watches.lists,
        log,
        place,
        falsified,
        &mut walk,
    );
    watches.lists.close(number(falsified), walk.kept, walk.next);
    found
}

/// Counts the place as lasting, if its level is the last one.
fn extend(assigned: &Assigned, watches: &Watches, log: &Log, propagated: usize, lasting: &mut usize)
    requires ready { IsReady log.now.inputs log.now.lines (propagated + 1) assigned.now watches.now }
    requires low { lasting.old ≤ propagated }
    requires lasting { IsLasting watches.now.clauses assigned.now.trail lasting.old }
    ensures low { lasting.new ≤ propagated + 1 }
    ensures lasting { IsLasting watches.now.clauses assigned.now.trail lasting.new }
{
    if *lasting < propagated {
        return;
    }
    let _count = assigned.len();
    if assigned.entry(propagated).level == assigned.level() {
        *lasting = propagated + 1;
        return;
    }
}

/// Visits the lists of all literals that became false from the place `propagated` on.
pub fn propagate(
    assigned: &mut Assigned,
    watches: &mut Watches,
    log: &Log,
    propagated: &mut usize,
    lasting: &mut usize,
) -> Result<Option<Hint>, AllocError>
    requires low { lasting.old ≤ propagated.old }
    requires lasting { IsLasting watches.old.clauses assigned.old.trail lasting.old }
    requires ready { IsReady log.now.inputs log.now.lines propagated.old assigned.old watches.old }
    ensures grown { IsGrown assigned.old.trail assigned.new.trail }
    ensures letters { length assigned.new.values ≡ length assigned.old.values }
    ensures kept { IsReady log.now.inputs log.now.lines propagated.new assigned.new watches.new }
    ensures names { watches.new.names ≡ watches.old.names }
    ensures low { lasting.new ≤ propagated.new }
    ensures lasting { IsLasting watches.new.clauses assigned.new.trail lasting.new }
    ensures found { IfOk result (λ found. MatchOption found (propagated.new ≡ length assigned.new.trail)
        (IsConflict log.now.inputs log.now.lines (literals_of assigned.new.trail))) }
{
    'up: while *propagated < assigned.len() {
        assigned.invariant();
        match visit_list(assigned, watches, log, *propagated)? {
            Some(hint) => return Ok(Some(hint)),
            None => {}
        }
        extend(assigned, watches, log, *propagated, lasting);
        *propagated += 1;
    }
    Ok(None)
}
