// Two watched literals: a clause stands in the lists of its first two literals and in no other, and the type
// keeps it so. As long as neither is false, nothing else of the clause matters. After Moskewicz, Madigan,
// Zhao, Zhang and Malik, Chaff (2001). Each place of a list also gives a literal of its clause; contracts
// promise no more of which one it is.
ghost use Rattle.std.specs.Prelude.{◌≡◌, suc, ◌+◌, ◌-◌, ◌<◌, ◌≤◌, [], ◌∷◌, ◌++◌, length, replicate, All};
ghost use Rattle.std.specs.Prelude.{Contains, IfOk, OnOk, OnErr, if◌then◌else◌, is_ok, slice_index_or};
ghost use Rattle.cdcl_watches.specs.Heads.{number_of, without_last};
ghost use Rattle.cdcl_watches.specs.Watchers.{IsLinked};
ghost use Rattle.cdcl_watches.specs.Watching.{code, clause_of, IsWatching, AreApart, IsWidened, WatchValue};
ghost use Rattle.cdcl_watches.specs.Watching.{with_clause, with_lists};

use crate::arena::Arena;
use crate::watch_lists::WatchLists;
use crate::watcher::watch;
use cnf_base::Literal;
use std::alloc::{AllocError, Global};
use std::marker::Model;

/// Clauses, each with a name, and for each literal the list of those that watch it.
#[derive(Drop)]
pub struct Watches {
    pub arena: Arena,
    pub lists: WatchLists,
}

impl Model for Watches {
    ghost use Rattle.cdcl_watches.specs.Watching.{WatchValue};
    ghost use Rattle.cdcl_watches.specs.Watchers.{numbers, AreWatchers};

    ghost Value = { WatchValue };

    ghost view = { λ a. record {
      clauses = a.arena.clauses;
      lists = numbers a.arena.heads a.lists;
      names = a.arena.names;
    } };

    ghost invariant = { λ a. AreWatchers a.arena.heads a.arena.clauses a.lists };
}

/// The number of a literal.
pub fn number(literal: Literal) -> usize
    ensures { result ≡ code literal }
{
    2 * literal.letter.0 as usize + literal.negated as usize
}

impl Watches {
    /// Each clause of at least two literals is in the lists of its first two, and each has a name.
    pub fn invariant(&self)
        ensures watched { IsWatching self.now.clauses self.now.lists }
        ensures named { length self.now.names ≡ length self.now.clauses }
    {
        self.arena.invariant();
    }

    /// The clauses and their names, for reading.
    pub fn arena(&self) -> &Arena
        ensures clauses { result.now.clauses ≡ self.now.clauses }
        ensures names { result.now.names ≡ self.now.names }
    {
        &self.arena
    }

    /// Puts the clause behind the others by this name, and watches its first two literals.
    pub fn add(&mut self, name: u32, clause: &[Literal]) -> Result<(), AllocError>
        requires long { 2 ≤ length clause.now }
        requires apart { AreApart clause.now }
        requires fits { All (λ l. code l < length self.old.lists) clause.now }
        ensures { self.new ≡ (if is_ok result then with_clause self.old clause.now name else self.old) }
    {
        let first = clause[0];
        let second = clause[1];
        self.lists.invariant();
        let head = self.arena.push(name, clause)?;
        self.arena.invariant();
        link(&mut self.arena, &mut self.lists, head, first, second)?;
        self.arena.note(first.letter.0, head);
        Ok(())
    }

    /// Puts the clause that has this head in another buffer behind the others, as it stands there and by its
    /// name, and watches its first two literals.
    pub fn add_from(&mut self, other: &Arena, head: u32) -> Result<(), AllocError>
        requires head { Contains other.now.heads head }
        requires long { 2 ≤ length (clause_of other.now.clauses (number_of other.now.heads head)) }
        requires apart { AreApart (clause_of other.now.clauses (number_of other.now.heads head)) }
        requires fits { All (λ l. code l < length self.old.lists)
            (clause_of other.now.clauses (number_of other.now.heads head)) }
        ensures { self.new ≡ (if is_ok result then with_clause self.old
            (clause_of other.now.clauses (number_of other.now.heads head))
            (slice_index_or other.now.names (number_of other.now.heads head) 0) else self.old) }
    {
        let clause = other.clause(head);
        let first = clause.get(0);
        let second = clause.get(1);
        let here = self.arena.push_from(other, head)?;
        self.arena.invariant();
        link(&mut self.arena, &mut self.lists, here, first, second)?;
        Ok(())
    }

    /// Makes one more letter known: two literals that nothing watches.
    pub fn letter(&mut self) -> Result<(), AllocError>
        ensures { self.new ≡ (if is_ok result then with_lists self.old
            (self.old.lists ++ [] ∷ [] ∷ []) else self.old) }
    {
        self.lists.grow()?;
        match self.lists.grow() {
            Ok(()) => {
                return Ok(());
            }
            Err(_) => {
                self.lists.shrink();
                return Err(AllocError);
            }
        }
    }

    /// Takes back the letter that was made known last.
    pub fn forget_letter(&mut self)
        requires { (before : WatchValue) × IsWidened before self.old }
        ensures { (before : WatchValue) → IsWidened before self.old → self.new ≡ before }
    {
        self.lists.shrink();
        self.lists.shrink();
    }

    /// No clauses, and as many lists as here, all empty. There is room beforehand for what stands here.
    pub fn emptied(&self, alloc: Global) -> Result<Watches, AllocError>
        ensures { IfOk result (λ w. w ≡ record {
          clauses = [];
          lists = replicate (length self.now.lists) [];
          names = [];
        }) }
    {
        let arena = self.arena.emptied(alloc)?;
        let lists = self.lists.emptied(alloc)?;
        Ok(Watches { arena, lists })
    }

    /// No clauses, and no lists.
    pub fn new(alloc: Global) -> Self
        ensures { result ≡ record { clauses = []; lists = []; names = [] } }
    {
        Watches {
            arena: Arena::new(alloc),
            lists: WatchLists::new(alloc),
        }
    }
}

/// Lets the clause of this head, which is the last one, be watched by its first two literals. Where there is
/// no memory for that the clause is taken off.
fn link(
    arena: &mut Arena,
    lists: &mut WatchLists,
    head: u32,
    first: Literal,
    second: Literal,
) -> Result<(), AllocError>
    requires known { Contains arena.old.heads head }
    requires last { suc (number_of arena.old.heads head) ≡ length arena.old.clauses }
    requires first { code first < length lists.old }
    requires second { code second < length lists.old }
    ensures arena { OnOk result (arena.new ≡ arena.old) }
    ensures linked { OnOk result (IsLinked lists.old lists.new head first second) }
    ensures popped { OnErr result (arena.new ≡ without_last arena.old) }
    ensures refused { OnErr result (lists.new ≡ lists.old) }
{
    lists.invariant();
    let first_watcher = watch(head, second);
    let second_watcher = watch(head, first);
    match lists.push(number(first), first_watcher) {
        Ok(()) => {}
        Err(_) => {
            arena.pop(head);
            return Err(AllocError);
        }
    }
    match lists.push(number(second), second_watcher) {
        Ok(()) => {
            return Ok(());
        }
        Err(_) => {
            lists.pop(number(first));
            arena.pop(head);
            return Err(AllocError);
        }
    }
}
