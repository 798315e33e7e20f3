// The clauses in one buffer of numbers, one behind the other: the head of a clause is its length and its
// name, and the codes of its literals follow. Who has the place of a head comes to the clause and to its
// name by one read, with no table between. Where the heads are follows from the lengths, so no list of them
// is kept. After Een and Sorensson, An extensible SAT-solver (2003).
//
// The codes behind the first two stand from the last down. Propagation looks at the first two literals and
// then from the end of the clause on: so what it looks at first stands beside the head, and a long clause
// costs one read of memory far away in place of two. Callers see each clause in its own order.
ghost use Rattle.std.specs.Prelude.{◌≡◌, ℕ, suc, ◌+◌, ◌-◌, ◌<◌, ◌^◌, [], ◌∷◌, ◌++◌, length, map, take};
ghost use Rattle.std.specs.Prelude.{replicate, All, Contains, IfSome, IfOk, OnOk, OnErr, MatchOption};
ghost use Rattle.std.specs.Prelude.{slice_index_or, slice_set};
ghost use Rattle.std.specs.List.{swap};
ghost use Rattle.cdcl_watches.specs.Watching.{code, clause_of, AreApart};
ghost use Rattle.cdcl_watches.specs.Turned.{turned};
ghost use Rattle.cdcl_watches.specs.Heads.{number_of};

use crate::clause::{Clause, place_of};
use crate::coded::encode;
use cnf_base::Literal;
use std::alloc::{AllocError, Global};
use std::marker::Model;

/// The greatest number of 32 bits.
const MAX_ITEMS: usize = 4294967295;

/// The place of no head.
const NO_HEAD: u32 = 4294967295;

/// Clauses, each at the place of its head and with a name that the caller gave it; two literals of a clause
/// can change places. There is room for 4,294,967,295 numbers, two of them a head: their places are numbers
/// of 32 bits.
#[derive(Drop)]
pub struct Arena {
    items: Vec<u32>,
    /// Under the number of a letter, the head of the clause that forced it last, or no head.
    reasons: Vec<u32>,
}

impl Model for Arena {
    ghost use Rattle.cdcl_watches.specs.Heads.{ArenaValue, clauses_at, heads_of, names_at, AreHeads};
    ghost use Rattle.cdcl_watches.specs.Heads.{AreNoted};

    ghost Value = { ArenaValue };

    ghost view = { λ a. record {
      clauses = clauses_at a.items.items (heads_of a.items.items);
      heads = heads_of a.items.items;
      names = names_at a.items.items (heads_of a.items.items);
    } };

    ghost invariant = { λ a. AreHeads a.items.items (heads_of a.items.items)
        × AreNoted (heads_of a.items.items) a.reasons.items };
}

impl Arena {
    /// No clauses.
    pub fn new(alloc: Global) -> Self
        ensures { result ≡ record { clauses = []; heads = []; names = [] } }
    {
        Arena {
            items: Vec::new(alloc),
            reasons: Vec::new(alloc),
        }
    }

    /// No clauses, and room beforehand for as many items as stand here.
    pub fn emptied(&self, alloc: Global) -> Result<Arena, AllocError>
        ensures { IfOk result (λ arena. arena ≡ record { clauses = []; heads = []; names = [] }) }
    {
        let items = Vec::with_capacity(alloc, self.items.len())?;
        Ok(Arena {
            items,
            reasons: Vec::new(alloc),
        })
    }

    /// Each clause has one head, the first of them 0, and one name.
    pub fn invariant(&self)
        ensures paired { length self.now.heads ≡ length self.now.clauses }
        ensures named { length self.now.names ≡ length self.now.clauses }
        ensures apart { AreApart self.now.heads }
        ensures first { number_of self.now.heads 0 ≡ 0 }
    {
        let _ = &self.items;
    }

    /// The clause of this head.
    pub fn clause(&self, head: u32) -> Clause<'_>
        requires { Contains self.now.heads head }
        ensures { result ≡ clause_of self.now.clauses (number_of self.now.heads head) }
    {
        let from = head as usize + 2;
        let to = from + self.items[head as usize] as usize;
        Clause::new(&self.items[from..to])
    }

    /// The name of the clause of this head.
    pub fn name(&self, head: u32) -> u32
        requires { Contains self.now.heads head }
        ensures { result ≡ slice_index_or self.now.names (number_of self.now.heads head) 0 }
    {
        self.items[head as usize + 1]
    }

    /// The head of the first clause, if there is one.
    pub fn first(&self) -> Option<u32>
        ensures { MatchOption result (self.now.heads ≡ [])
            (λ head. (0 < length self.now.heads) × (head ≡ slice_index_or self.now.heads 0 0)) }
    {
        if self.items.is_empty() {
            return None;
        }
        Some(0)
    }

    /// The head of the clause behind the one of this head, if there is one.
    pub fn after(&self, head: u32) -> Option<u32>
        requires { Contains self.now.heads head }
        ensures { MatchOption result (suc (number_of self.now.heads head) ≡ length self.now.heads)
            (λ next. (suc (number_of self.now.heads head) < length self.now.heads)
            × (next ≡ slice_index_or self.now.heads (suc (number_of self.now.heads head)) 0)) }
    {
        let next = head as usize + 2 + self.items[head as usize] as usize;
        if next >= self.items.len() {
            return None;
        }
        Some(next as u32)
    }

    /// Puts the clause behind the others by this name, and answers its head. Want of room is told as want of
    /// memory.
    pub fn push(&mut self, name: u32, row: &[Literal]) -> Result<u32, AllocError>
        requires { All (λ l. code l < 2 ^ 32) row.now }
        ensures pushed { IfOk result (λ head. self.new ≡ record {
          clauses = self.old.clauses ++ row.now ∷ [];
          heads = self.old.heads ++ head ∷ [];
          names = self.old.names ++ name ∷ [];
        }) }
        ensures refused { OnErr result (self.new ≡ self.old) }
    {
        let from = self.items.len();
        if from + 2 + row.len() > MAX_ITEMS {
            return Err(AllocError);
        }
        match put_row(&mut self.items, name, row) {
            Ok(()) => {
                return Ok(from as u32);
            }
            Err(_) => {
                self.items.truncate(from);
                return Err(AllocError);
            }
        }
    }

    /// Puts the clause that has this head in another buffer behind the others, as it stands there and by its
    /// name, and answers its head here. Want of room is told as want of memory.
    pub fn push_from(&mut self, other: &Arena, head: u32) -> Result<u32, AllocError>
        requires { Contains other.now.heads head }
        ensures pushed { IfOk result (λ here. self.new ≡ record {
          clauses = self.old.clauses ++ clause_of other.now.clauses (number_of other.now.heads head) ∷ [];
          heads = self.old.heads ++ here ∷ [];
          names = self.old.names ++ slice_index_or other.now.names (number_of other.now.heads head) 0 ∷ [];
        }) }
        ensures refused { OnErr result (self.new ≡ self.old) }
    {
        let from = head as usize;
        let to = from + 2 + other.items[from] as usize;
        let place = self.items.len();
        if place + (to - from) > MAX_ITEMS {
            return Err(AllocError);
        }
        self.items.extend_from_slice(&other.items[from..to])?;
        Ok(place as u32)
    }

    /// Takes the last clause off, which is the one of this head.
    pub fn pop(&mut self, head: u32)
        requires known { Contains self.old.heads head }
        requires last { suc (number_of self.old.heads head) ≡ length self.old.clauses }
        ensures { self.new ≡ record {
          clauses = take (length self.old.clauses - 1) self.old.clauses;
          heads = take (length self.old.clauses - 1) self.old.heads;
          names = take (length self.old.clauses - 1) self.old.names;
        } }
    {
        self.items.truncate(head as usize);
        self.reasons.truncate(0);
    }

    /// Notes that the clause of this head forced the letter last. Where memory is wanting it is not noted.
    #[inline(always)]
    pub fn note(&mut self, letter: u32, head: u32)
        requires { Contains self.old.heads head }
        ensures { self.new ≡ self.old }
    {
        if letter as usize >= self.reasons.len() {
            make_room(&mut self.reasons, letter);
        }
        if (letter as usize) < self.reasons.len() {
            self.reasons[letter as usize] = head;
        }
    }

    /// The clause that forced the letter last, if it is noted and has this name.
    #[inline(always)]
    pub fn reason(&self, letter: u32, name: u32) -> Option<Clause<'_>>
        ensures { IfSome result (λ clause. (c : ℕ) × (c < length self.now.clauses)
            × (slice_index_or self.now.names c 0 ≡ name) × (clause ≡ clause_of self.now.clauses c)) }
    {
        match self.reasons.get(letter as usize) {
            None => None,
            Some(head) => {
                if *head == NO_HEAD || self.name(*head) != name {
                    return None;
                }
                Some(self.clause(*head))
            }
        }
    }

    /// Lets two literals of a clause change places.
    pub fn swap(&mut self, head: u32, i: usize, j: usize)
        requires known { Contains self.old.heads head }
        requires first { i < length (clause_of self.old.clauses (number_of self.old.heads head)) }
        requires second { j < length (clause_of self.old.clauses (number_of self.old.heads head)) }
        ensures clauses { self.new.clauses ≡ slice_set self.old.clauses (number_of self.old.heads head)
            (swap (clause_of self.old.clauses (number_of self.old.heads head)) i j) }
        ensures heads { self.new.heads ≡ self.old.heads }
        ensures names { self.new.names ≡ self.old.names }
    {
        let from = head as usize + 2;
        let len = self.items[head as usize] as usize;
        let first = from + place_of(len, i);
        let second = from + place_of(len, j);
        let a = self.items[first];
        let b = self.items[second];
        self.items[first] = b;
        self.items[second] = a;
    }
}

/// Makes room for the letter, where there is memory.
fn make_room(reasons: &mut Vec<u32>, letter: u32)
    ensures { (n : ℕ) × (reasons.new.items ≡ reasons.old.items ++ replicate n 4294967295) }
{
    let count = (letter as usize + 1).max(reasons.len());
    match reasons.resize(count, NO_HEAD) {
        Ok(()) => return,
        Err(_) => return,
    }
}

/// Puts the codes of the literals behind the items, as a clause has them: the first two, and then the others
/// from the last down.
fn put_codes(items: &mut Vec<u32>, row: &[Literal]) -> Result<(), AllocError>
    requires { All (λ l. code l < 2 ^ 32) row.now }
    ensures kept { take (length items.old.items) items.new.items ≡ items.old.items }
    ensures put { OnOk result (items.new.items ≡ items.old.items ++ map code (turned row.now)) }
{
    let len = row.len();
    for place in 0..len {
        let next = place_of(len, place);
        items.push(encode(row[next]).0)?;
    }
    Ok(())
}

/// Puts a clause's length, its name and the codes of its literals behind the items.
fn put_row(items: &mut Vec<u32>, name: u32, row: &[Literal]) -> Result<(), AllocError>
    requires fits { All (λ l. code l < 2 ^ 32) row.now }
    requires short { length row.now < 2 ^ 32 }
    ensures kept { take (length items.old.items) items.new.items ≡ items.old.items }
    ensures put { OnOk result (items.new.items ≡ items.old.items ++ length row.now ∷ name
        ∷ map code (turned row.now)) }
{
    items.push(row.len() as u32)?;
    items.push(name)?;
    put_codes(items, row)
}
