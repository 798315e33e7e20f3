// The entries of a closure as it grows. An entry that is there already is found by its key, so each stands
// once.
ghost use Rattle.std.specs.Prelude.{◌≡◌, ◌≤◌, [], length, IfOk};
ghost use Rattle.ltl_closure.specs.Keys.{Enters};

use crate::Entry;
use crate::key::Key;
use indexmap::IndexSet;
use std::alloc::{AllocError, Global};

#[derive(Drop)]
pub struct Shared {
    pub keys: IndexSet<Key>,
    pub entries: Vec<Entry>,
}

impl Shared {
    pub fn new(alloc: Global) -> Shared
        ensures keys { result.keys.keys ≡ [] }
        ensures entries { result.entries.items ≡ [] }
    {
        Shared {
            keys: IndexSet::new(alloc),
            entries: Vec::new(alloc),
        }
    }

    /// The number of the entry with this key. A new one is put last, and its request right after it.
    pub fn enter(&mut self, key: Key) -> Result<u32, AllocError>
        requires { length self.old.keys.keys ≤ 98306 }
        ensures { IfOk result (λ number. Enters self.old.keys.keys self.old.entries.items key
            self.new.keys.keys self.new.entries.items number) }
    {
        let (index, added) = self.keys.insert_full(key)?;
        let number = index as u32 + 1;
        if !added {
            return Ok(number);
        }
        self.entries.push(key.entry(number))?;
        let Some(request) = key.request() else {
            return Ok(number);
        };
        let asks = Key::Asks(request, number);
        self.keys.insert(asks)?;
        self.entries.push(asks.entry(number + 1))?;
        Ok(number)
    }
}
