// Blocks of the pool: a list that has no room left moves to a block of half as much room again, or of a
// third, the first one of two watchers: 2, 3, 4, 6, 8, 12 and so on. Its old block is spare then, and serves
// the next list that wants one of that room, so that the pool stays small.
ghost use Rattle.std.specs.Prelude.{◌≡◌, ◌+◌, ◌<◌, ◌≤◌, ◌^◌, List, ℕ, length, IfOk, OnOk, slice_set};
ghost use Rattle.std.specs.List.{SameBelow};
ghost use Rattle.cdcl_watches.specs.declared.span.Span.{Span};
ghost use Rattle.cdcl_watches.specs.Pool.{room_of, counted, contents, span_at, IsFree, AreBlocks, IsPool};

use crate::coded::Code;
use crate::span::{Span, room};
use crate::spare::Spare;
use crate::watcher::Watcher;
use std::alloc::AllocError;

/// The greatest number of 32 bits.
const MAX_WATCHERS: usize = 4294967295;

/// As many classes as there are: a block of the greatest has room for 3 * 2 ^ 30 watchers.
const CLASSES: u32 = 63;

/// Lengthens the pool by a block of the class, and answers where it begins.
fn lengthen(pool: &mut Vec<Watcher>, class: u32) -> Result<u32, AllocError>
    requires class { class < 63 }
    requires few { length pool.old.items < 2 ^ 32 }
    ensures few { length pool.new.items < 2 ^ 32 }
    ensures from { IfOk result (λ from. (from ≡ length pool.old.items)
        × (length pool.new.items ≡ from + room_of class)) }
    ensures up { length pool.old.items ≤ length pool.new.items }
    ensures same { SameBelow pool.old.items pool.new.items (length pool.old.items) }
{
    let from = pool.len();
    let count = from + room(class) as usize;
    if count > MAX_WATCHERS {
        return Err(AllocError);
    }
    let filler = Watcher {
        head: 0,
        blocker: Code(0),
    };
    match pool.resize(count, filler) {
        Ok(()) => return Ok(from as u32),
        Err(_) => return Err(AllocError),
    }
}

/// A block of the class that no list has: a spare one, or one behind the others.
fn free_block(pool: &mut Vec<Watcher>, spare: &mut Spare, class: u32) -> Result<u32, AllocError>
    requires class { class < 63 }
    requires few { length pool.old.items < 2 ^ 32 }
    ensures few { length pool.new.items < 2 ^ 32 }
    ensures long { length pool.old.items ≤ length pool.new.items }
    ensures same { SameBelow pool.old.items pool.new.items (length pool.old.items) }
    ensures blocks { (spans : List Span) → AreBlocks (length pool.old.items) spans spare.old
        → AreBlocks (length pool.new.items) spans spare.new }
    ensures free { IfOk result (λ from. (spans : List Span)
        → AreBlocks (length pool.old.items) spans spare.old
        → IsFree (length pool.new.items) spans spare.new from (room_of class)) }
{
    match spare.take(class) {
        Some(from) => return Ok(from),
        None => return lengthen(pool, class),
    }
}

/// The block of a list that has moved is spare. Where there is no memory to note it, it is lost, and no more.
fn leave(spare: &mut Spare, span: Span)
    ensures { (size : ℕ) (spans : List Span) → AreBlocks size spans spare.old
        → IsFree size spans spare.old span.from (room_of span.class) → AreBlocks size spans spare.new }
{
    if span.class == 0 {
        return;
    }
    match spare.give(span.class, span.from) {
        Ok(()) => return,
        Err(_) => return,
    }
}

/// Moves a list to a block of the next class, so of two watchers where it has none.
pub fn widen(
    spans: &mut Vec<Span>,
    pool: &mut Vec<Watcher>,
    spare: &mut Spare,
    list: usize,
) -> Result<(), AllocError>
    requires list { list < length spans.old.items }
    requires pool { IsPool pool.old.items spans.old.items spare.old }
    ensures pool { IsPool pool.new.items spans.new.items spare.new }
    ensures same { contents pool.new.items spans.new.items ≡ contents pool.old.items spans.old.items }
    ensures lists { length spans.new.items ≡ length spans.old.items }
    ensures room { OnOk result ((span_at spans.new.items list).len
        < room_of (span_at spans.new.items list).class) }
{
    let span = spans[list];
    let class = span.class + 1;
    if class >= CLASSES {
        return Err(AllocError);
    }
    let from = free_block(pool, spare, class)?;
    let start = span.from as usize;
    pool.copy_within(start..start + span.len as usize, from as usize);
    spans[list] = Span {
        from,
        len: span.len,
        class,
    };
    leave(spare, span);
    Ok(())
}

/// Puts the watcher behind a list that has room for it.
#[inline(always)]
pub fn put(spans: &mut Vec<Span>, pool: &mut Vec<Watcher>, list: usize, watcher: Watcher)
    requires list { list < length spans.old.items }
    requires inside { (span_at spans.old.items list).from + (span_at spans.old.items list).len
        < length pool.old.items }
    requires few { length pool.old.items < 2 ^ 32 }
    ensures pool { pool.new.items ≡ slice_set pool.old.items ((span_at spans.old.items list).from
        + (span_at spans.old.items list).len) watcher }
    ensures spans { spans.new.items ≡ slice_set spans.old.items list
        (counted (span_at spans.old.items list) ((span_at spans.old.items list).len + 1)) }
{
    let span = spans[list];
    pool[span.from as usize + span.len as usize] = watcher;
    spans[list] = Span {
        from: span.from,
        len: span.len + 1,
        class: span.class,
    };
}
