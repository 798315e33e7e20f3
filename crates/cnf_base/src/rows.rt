// Lists of rows of any length over two buffers: the items of all rows one after another, and where each row
// ends, by four bytes a row. A row begins where the one before it ends, costs no allocation of its own, and
// is lent as a slice. Clause lists and logs stand on it.
ghost use Rattle.std.specs.Prelude.{◌≡◌, ◌<◌, ◌≤◌, [], ◌∷◌, ◌++◌, length, take, if◌then◌else◌, is_ok};
ghost use Rattle.std.specs.Prelude.{slice_index_or};
ghost use Rattle.cnf_base.specs.RowPieces.{lengthened, start_of};

use std::alloc::{AllocError, Global};
use std::marker::Model;

/// The greatest number of 32 bits.
const MAX_ITEMS: usize = 4294967295;

/// Where the row of this index begins: where the one before it ends, the first at the start.
#[inline(always)]
fn start(ends: &Vec<u32>, index: usize) -> usize
    requires { index ≤ length ends.now.items }
    ensures { result ≡ start_of 0 ends.now.items index }
{
    if index == 0 {
        return 0;
    }
    ends[index - 1] as usize
}

/// Puts where a row ends behind the other ends. Want of room is told as want of memory.
fn put_end(ends: &mut Vec<u32>, end: usize) -> Result<(), AllocError>
    ensures { ends.new.items ≡ (if is_ok result then ends.old.items ++ end ∷ [] else ends.old.items) }
{
    if end > MAX_ITEMS {
        return Err(AllocError);
    }
    match ends.push(end as u32) {
        Ok(()) => Ok(()),
        Err(_) => Err(AllocError),
    }
}

/// A list of rows, each a list of items. There is room for 4,294,967,295 items: where a row ends is a number
/// of 32 bits.
#[derive(Drop)]
pub struct Rows<T: Copy + Drop> {
    items: Vec<T>,
    ends: Vec<u32>,
}

impl<T: Copy + Drop> Model for Rows<T> {
    ghost use Rattle.std.specs.Prelude.{List, length};
    ghost use Rattle.cnf_base.specs.RowPieces.{row_pieces, places_of, AreTiles};

    ghost Value = { List (List T) };

    ghost view = { λ a. row_pieces a.items.items (places_of 0 a.ends.items) };

    ghost invariant = { λ a. AreTiles 0 (places_of 0 a.ends.items) (length a.items.items) };
}

impl<T: Copy + Drop> Rows<T> {
    /// No rows.
    pub fn new(alloc: Global) -> Self
        ensures { result ≡ [] }
    {
        Rows {
            items: Vec::new(alloc),
            ends: Vec::new(alloc),
        }
    }

    /// The number of rows.
    pub fn len(&self) -> usize
        ensures { result ≡ length self.now }
    {
        self.ends.len()
    }

    /// The row of this index, from 0.
    pub fn row(&self, index: usize) -> &[T]
        requires { index < length self.now }
        ensures { result.now ≡ slice_index_or self.now index [] }
    {
        let from = start(&self.ends, index);
        &self.items[from..self.ends[index] as usize]
    }

    /// Puts the row behind the others. After want of memory or of room, which is told as want of memory, the
    /// rows are as before.
    pub fn push(&mut self, row: &[T]) -> Result<(), AllocError>
        ensures { self.new ≡ (if is_ok result then self.old ++ row.now ∷ [] else self.old) }
    {
        let from = self.items.len();
        self.items.extend_from_slice(row)?;
        match put_end(&mut self.ends, self.items.len()) {
            Ok(()) => Ok(()),
            Err(_) => {
                // The items are there already: without this cut they would stay, and belong to no row.
                self.items.truncate(from);
                Err(AllocError)
            }
        }
    }

    /// Puts the item behind the others of the last row. After want of memory or of room, which is told as
    /// want of memory, the rows are as before.
    pub fn lengthen(&mut self, item: T) -> Result<(), AllocError>
        requires { 0 < length self.old }
        ensures { self.new ≡ (if is_ok result then lengthened self.old item else self.old) }
    {
        if self.items.len() >= MAX_ITEMS {
            return Err(AllocError);
        }
        let last = self.ends.len() - 1;
        self.items.push(item)?;
        self.ends[last] = self.items.len() as u32;
        Ok(())
    }

    /// Keeps the first `count` rows, or all where there are no more.
    pub fn truncate(&mut self, count: usize)
        ensures { self.new ≡ take count self.old }
    {
        if count >= self.ends.len() {
            return;
        }
        let end = start(&self.ends, count);
        self.ends.truncate(count);
        self.items.truncate(end);
    }
}
