// A walk along the list of a literal, in order. Watchers that are taken off leave a gap, which goes along
// with the walk: so each watcher is read once and moves at most once, and the others keep their order. After
// Sorensson and Een, MiniSat 2.1 (2008).
ghost use Rattle.std.specs.Prelude.{◌≡◌, ◌+◌, ◌<◌, ◌≤◌, [], ◌∷◌, ◌++◌, length, if◌then◌else◌, is_ok};
ghost use Rattle.std.specs.Prelude.{slice_index_or, slice_set};
ghost use Rattle.std.specs.List.{remove, swap};
ghost use Rattle.cdcl_watches.specs.Watching.{code, list_of, clause_of};
ghost use Rattle.cdcl_watches.specs.Watchers.{nobody, IsWalked, walk_in, walked};
ghost use Rattle.cdcl_watches.specs.Heads.{number_of};

use crate::arena::Arena;
use crate::watch_lists::WatchLists;
use crate::watcher::{Watcher, watch};
use crate::watches::number;
use cnf_base::Literal;
use std::alloc::AllocError;

/// Where a walk stands: the watchers before `kept` stay in the list, those from `next` on are still to come,
/// and what is between counts for nothing.
#[derive(Clone, Copy, Drop)]
pub struct Walk {
    pub kept: usize,
    pub next: usize,
}

/// The watcher stays in the list, in place of the next one, and the walk goes on.
pub fn pass(lists: &mut WatchLists, list: usize, walk: &mut Walk, watcher: Watcher)
    requires known { list < length lists.old }
    requires order { walk.old.kept ≤ walk.old.next }
    requires there { walk.old.next < length (slice_index_or lists.old list []) }
    ensures kept { walk.new.kept ≡ walk.old.kept + 1 }
    ensures next { walk.new.next ≡ walk.old.next + 1 }
    ensures lists { lists.new ≡ slice_set lists.old list (slice_set (slice_index_or lists.old list [])
        walk.old.kept watcher) }
{
    let _count = lists.len(list);
    lists.set(list, walk.kept, watcher);
    walk.kept += 1;
    walk.next += 1;
}

/// The next watcher stays in the literal's list, with its clause's first literal as the blocker.
#[inline(always)]
pub fn keep(
    arena: &Arena,
    lists: &mut WatchLists,
    literal: Literal,
    walk: &mut Walk,
    head: u32,
    first: Literal,
)
    requires walked { IsWalked (walk_in arena.now lists.old literal walk.old) }
    requires there { walk.old.next < length (slice_index_or lists.old (code literal) []) }
    requires head { head ≡ (slice_index_or (slice_index_or lists.old (code literal) []) walk.old.next
        nobody).head }
    requires first { first ≡ slice_index_or (clause_of arena.now.clauses
        (number_of arena.now.heads head)) 0 first }
    ensures kept { walk.new.kept ≡ walk.old.kept + 1 }
    ensures next { walk.new.next ≡ walk.old.next + 1 }
    ensures walked { IsWalked (walk_in arena.now lists.new literal walk.new) }
    ensures length { length (slice_index_or lists.new (code literal) [])
        ≡ length (slice_index_or lists.old (code literal) []) }
    ensures same { walked (walk_in arena.now lists.new literal walk.new)
        ≡ walked (walk_in arena.now lists.old literal walk.old) }
{
    arena.invariant();
    lists.invariant();
    pass(lists, number(literal), walk, watch(head, first));
}

/// Watches the literal at `j` in place of the second, in whose list the clause is the next one.
pub fn rewatch(
    arena: &mut Arena,
    lists: &mut WatchLists,
    second: Literal,
    walk: &mut Walk,
    head: u32,
    other: Literal,
    j: usize,
) -> Result<(), AllocError>
    requires walked { IsWalked (walk_in arena.old lists.old second walk.old) }
    requires there { walk.old.next < length (slice_index_or lists.old (code second) []) }
    requires head { head ≡ (slice_index_or (slice_index_or lists.old (code second) []) walk.old.next
        nobody).head }
    requires high { 2 ≤ j }
    requires within { j < length (clause_of arena.old.clauses (number_of arena.old.heads head)) }
    requires second { second ≡ slice_index_or (clause_of arena.old.clauses
        (number_of arena.old.heads head)) 1 second }
    requires other { other ≡ slice_index_or (clause_of arena.old.clauses
        (number_of arena.old.heads head)) j other }
    ensures kept { walk.new.kept ≡ walk.old.kept }
    ensures next { walk.new.next ≡ (if is_ok result then walk.old.next + 1 else walk.old.next) }
    ensures walked { IsWalked (walk_in arena.new lists.new second walk.new) }
    ensures length { length (slice_index_or lists.new (code second) [])
        ≡ length (slice_index_or lists.old (code second) []) }
    ensures clauses { arena.new.clauses ≡ (if is_ok result then slice_set arena.old.clauses
        (number_of arena.old.heads head)
        (swap (clause_of arena.old.clauses (number_of arena.old.heads head)) 1 j)
        else arena.old.clauses) }
    ensures names { arena.new.names ≡ arena.old.names }
    ensures lists { let before = (walked (walk_in arena.old lists.old second walk.old)).lists in
        (walked (walk_in arena.new lists.new second walk.new)).lists ≡ (if is_ok result then
        slice_set (slice_set before (code other) (list_of before other
        ++ number_of arena.old.heads head ∷ [])) (code second)
        (remove (list_of before second) walk.old.kept) else before) }
{
    lists.invariant();
    let _count = lists.len(number(second));
    let blocker = arena.clause(head).get(0);
    lists.push(number(other), watch(head, blocker))?;
    walk.next += 1;
    arena.swap(head, 1, j);
    Ok(())
}
