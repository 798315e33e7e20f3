// The groups of entries that runs speak of, as lists of entry numbers.
ghost use Rattle.std.specs.Prelude.{◌≡◌, ◌<◌, ◌^◌, length, IfOk};
ghost use Rattle.ltl_closure.specs.Groups.{in_group, group_numbers};

use crate::Entry;
use std::alloc::{AllocError, Global};

#[derive(Clone, Copy, Debug)]
pub enum Group {
    Nexts,
    Yesterdays,
    Eventualities,
}

impl Group {
    fn has(self, entry: Entry) -> bool
        ensures { result ≡ in_group self entry }
    {
        match (self, entry) {
            (Group::Nexts, Entry::Next { .. }) => true,
            (Group::Yesterdays, Entry::Yesterday { .. }) => true,
            (Group::Eventualities, Entry::Until { .. }) => true,
            _ => false,
        }
    }

    /// The numbers of the group's entries, from 1.
    pub fn numbers(self, alloc: Global, entries: &[Entry]) -> Result<Vec<u32>, AllocError>
        requires { length entries.now < 2 ^ 31 }
        ensures { IfOk result (λ numbers. numbers.items ≡ group_numbers self 1 entries.now) }
    {
        let mut numbers = Vec::new(alloc);
        for (i, entry) in entries.iter().enumerate() {
            if !self.has(*entry) {
                continue;
            }
            numbers.push(i as u32 + 1)?;
        }
        Ok(numbers)
    }
}
