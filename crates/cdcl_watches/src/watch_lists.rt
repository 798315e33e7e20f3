// For each literal the list of the clauses that watch it. The lists stand in one pool, each in a block of its
// own whose room is a power of two or one and a half of it: so lists of a watcher or two cost little, a list
// that grows moves seldom, and at most a third of a block is empty behind a list that grew, or half of it
// behind a single watcher. A block that a list has outgrown serves another list.
ghost use Rattle.std.specs.Prelude.{◌≡◌, ◌+◌, ◌-◌, ◌<◌, ◌≤◌, ◌^◌, List, [], ◌∷◌, ◌++◌, length, take};
ghost use Rattle.std.specs.Prelude.{replicate, IfOk, if◌then◌else◌, is_ok, slice_index_or, slice_set};
ghost use Rattle.cdcl_watches.specs.Watchers.{nobody, without};

use crate::pool::{put, widen};
use crate::span::{NOWHERE, Span, room};
use crate::spare::Spare;
use crate::watcher::Watcher;
use std::alloc::{AllocError, Global};
use std::marker::Model;

/// As many lists as there are numbers of 32 bits.
const MAX_LISTS: usize = 4294967296;

/// Lists of watchers, one for each literal. There is room for 4,294,967,296 of them, the number of codes that
/// there are, and for 4,294,967,295 places in the pool, spare ones among them: places are numbers of 32 bits.
#[derive(Drop)]
pub struct WatchLists {
    spans: Vec<Span>,
    /// The blocks of the lists, the spare ones, and what counts for nothing.
    pool: Vec<Watcher>,
    spare: Spare,
}

impl Model for WatchLists {
    ghost use Rattle.std.specs.Prelude.{List};
    ghost use Rattle.cdcl_watches.specs.declared.watcher.Watcher.{Watcher};
    ghost use Rattle.cdcl_watches.specs.Pool.{contents, IsPool};

    ghost Value = { List (List Watcher) };

    ghost view = { λ a. contents a.pool.items a.spans.items };

    ghost invariant = { λ a. IsPool a.pool.items a.spans.items a.spare };
}

impl WatchLists {
    /// No lists.
    pub fn new(alloc: Global) -> Self
        ensures { result ≡ [] }
    {
        WatchLists {
            spans: Vec::new(alloc),
            pool: Vec::new(alloc),
            spare: Spare::new(alloc),
        }
    }

    /// As many lists as here, all empty, and room beforehand for as many watchers as have a place here.
    pub fn emptied(&self, alloc: Global) -> Result<WatchLists, AllocError>
        ensures { IfOk result (λ lists. lists ≡ replicate (length self.now) []) }
    {
        let spans = Vec::from_elem(alloc, NOWHERE, self.spans.len())?;
        let pool = Vec::with_capacity(alloc, self.pool.len())?;
        Ok(WatchLists {
            spans,
            pool,
            spare: Spare::new(alloc),
        })
    }

    /// Puts an empty list behind the others.
    pub fn grow(&mut self) -> Result<(), AllocError>
        ensures { self.new ≡ (if is_ok result then self.old ++ [] ∷ [] else self.old) }
    {
        if self.spans.len() >= MAX_LISTS {
            return Err(AllocError);
        }
        match self.spans.push(NOWHERE) {
            Ok(()) => return Ok(()),
            Err(_) => return Err(AllocError),
        }
    }

    /// Each list has a number of 32 bits.
    pub fn invariant(&self)
        ensures { length self.now ≤ 2 ^ 32 }
    {
        let _ = &self.spans;
    }

    /// Takes the last list off. Its block stays in the pool: this is done where a letter that was just added could
    /// not be kept for want of memory, so the list is empty.
    pub fn shrink(&mut self)
        requires { 0 < length self.old }
        ensures { self.new ≡ take (length self.old - 1) self.old }
    {
        let count = self.spans.len() - 1;
        self.spans.truncate(count);
    }

    /// The length of a list.
    pub fn len(&self, list: usize) -> usize
        requires { list < length self.now }
        ensures { result ≡ length (slice_index_or self.now list []) }
    {
        self.spans[list].len as usize
    }

    /// The watcher at a place of a list.
    pub fn get(&self, list: usize, place: usize) -> Watcher
        requires list { list < length self.now }
        requires place { place < length (slice_index_or self.now list []) }
        ensures { result ≡ slice_index_or (slice_index_or self.now list []) place nobody }
    {
        self.pool[self.spans[list].from as usize + place]
    }

    /// Puts the watcher at a place of a list.
    pub fn set(&mut self, list: usize, place: usize, watcher: Watcher)
        requires list { list < length self.old }
        requires place { place < length (slice_index_or self.old list []) }
        ensures { self.new ≡ slice_set self.old list (slice_set
            (slice_index_or self.old list []) place watcher) }
    {
        let from = self.spans[list].from as usize;
        self.pool[from + place] = watcher;
    }

    /// Puts the watcher behind a list. Want of room is told as want of memory.
    #[inline(always)]
    pub fn push(&mut self, list: usize, watcher: Watcher) -> Result<(), AllocError>
        requires { list < length self.old }
        ensures { self.new ≡ (if is_ok result then slice_set self.old list
            (slice_index_or self.old list [] ++ watcher ∷ []) else self.old) }
    {
        let span = self.spans[list];
        if span.len < room(span.class) {
            put(&mut self.spans, &mut self.pool, list, watcher);
            return Ok(());
        }
        widen(&mut self.spans, &mut self.pool, &mut self.spare, list)?;
        put(&mut self.spans, &mut self.pool, list, watcher);
        Ok(())
    }

    /// Takes the last watcher off a list.
    pub fn pop(&mut self, list: usize)
        requires list { list < length self.old }
        requires some { 0 < length (slice_index_or self.old list []) }
        ensures { self.new ≡ slice_set self.old list (take (length (slice_index_or self.old list []) - 1)
            (slice_index_or self.old list [])) }
    {
        self.spans[list].len -= 1;
    }

    /// Takes the watchers from `kept` to `next` out of a list; the others keep their order.
    #[inline(always)]
    pub fn close(&mut self, list: usize, kept: usize, next: usize)
        requires list { list < length self.old }
        requires order { kept ≤ next }
        requires within { next ≤ length (slice_index_or self.old list []) }
        ensures { self.new ≡ without self.old list kept next }
    {
        if kept == next {
            return;
        }
        let span = self.spans[list];
        let from = span.from as usize;
        let len = span.len as usize;
        self.pool.copy_within(from + next..from + len, from + kept);
        self.spans[list] = Span {
            from: span.from,
            len: (kept + (len - next)) as u32,
            class: span.class,
        };
    }
}
