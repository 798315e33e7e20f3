// The blocks of the pool that no list has, by their class: a row for each class has the places where its
// blocks begin. The block that was given back last is taken first.
ghost use Rattle.std.specs.Prelude.{◌≡◌, ◌≢◌, ℕ, ◌+◌, ◌-◌, ◌<◌, ◌≤◌, [], ◌∷◌, ◌++◌, map, take, length};
ghost use Rattle.std.specs.Prelude.{IfSome, IsSome, OnOk, OnErr};
ghost use Rattle.cdcl_watches.specs.Pool.{row_at, spare_at};

use std::alloc::{AllocError, Global};
use std::marker::Model;

/// Where spare blocks begin, a row for each class. A class without a row has no spare block.
#[derive(Drop)]
pub struct Spare {
    rows: Vec<Vec<u32>>,
}

impl Model for Spare {
    ghost use Rattle.std.specs.Prelude.{ℕ, List, map};

    ghost Value = { List (List ℕ) };

    ghost view = { λ a. map (λ v. v.items) a.rows.items };
}

impl Spare {
    /// No blocks.
    pub fn new(alloc: Global) -> Self
        ensures { result ≡ [] }
    {
        Spare {
            rows: Vec::new(alloc),
        }
    }

    /// Takes the last block of a class, if there is one.
    pub fn take(&mut self, class: u32) -> Option<u32>
        ensures row { row_at self.new class ≡ take (length (row_at self.old class) - 1)
            (row_at self.old class) }
        ensures others { (d : ℕ) → d ≢ class → row_at self.new d ≡ row_at self.old d }
        ensures some { IfSome result (λ from. 0 < length (row_at self.old class)) }
        ensures from { IfSome result (λ from. from ≡ spare_at self.old class
            (length (row_at self.old class) - 1)) }
        ensures none { 0 < length (row_at self.old class) → IsSome result }
    {
        if class as usize >= self.rows.len() {
            return None;
        }
        self.rows[class as usize].pop()
    }

    /// Puts the block that begins at `from` behind the others of its class.
    pub fn give(&mut self, class: u32, from: u32) -> Result<(), AllocError>
        ensures ok { OnOk result (row_at self.new class ≡ row_at self.old class ++ from ∷ []) }
        ensures err { OnErr result (row_at self.new class ≡ row_at self.old class) }
        ensures others { (d : ℕ) → d ≢ class → row_at self.new d ≡ row_at self.old d }
    {
        lengthen(&mut self.rows, class as usize + 1)?;
        match self.rows[class as usize].push(from) {
            Ok(()) => return Ok(()),
            Err(_) => return Err(AllocError),
        }
    }
}

/// Puts empty rows behind the others until there are `count` of them.
fn lengthen(rows: &mut Vec<Vec<u32>>, count: usize) -> Result<(), AllocError>
    ensures same { (d : ℕ) → row_at (map (λ v. v.items) rows.new.items) d
        ≡ row_at (map (λ v. v.items) rows.old.items) d }
    ensures long { OnOk result (count ≤ length rows.new.items) }
{
    'more: while rows.len() < count {
        let alloc = *rows.allocator();
        rows.push(Vec::new(alloc))?;
    }
    Ok(())
}
