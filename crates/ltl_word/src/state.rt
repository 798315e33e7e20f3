//! A state: the names that are true in it.
ghost use Rattle.std.specs.Prelude.{◌≡◌, ◌↔◌, ℕ, List, IfOk, IsTrue, Contains};
ghost use Rattle.ltl_word.specs.State.{IsAscending};

use crate::Name;
use std::alloc::AllocError;
use std::marker::Model;

/// A set of names, which contracts see as their list in ascending order of bytes.
#[derive(Drop)]
pub struct StateSet {
    names: Vec<Name>,
}

impl Model for StateSet {
    ghost use Rattle.std.specs.Prelude.{ℕ, List};
    ghost use Rattle.ltl_word.specs.State.{IsAscending};

    ghost Value = { List (List ℕ) };

    ghost view = { λ s. s.names.items };

    ghost invariant = { λ s. IsAscending s.names.items };
}

impl StateSet {
    /// The set of the names, which may repeat and stand in any order. They are dropped where memory is
    /// wanting.
    pub fn from_names(names: Vec<Name>) -> Result<StateSet, AllocError>
        ensures ascending { IfOk result IsAscending }
        ensures members { IfOk result (λ state. (name : List ℕ)
            → Contains state name ↔ Contains names.items name) }
    {
        let mut names = names;
        names.sort()?;
        names.dedup();
        Ok(StateSet { names })
    }

    /// The names, each once and in ascending order of their bytes.
    pub fn names(&self) -> &[Name]
        ensures names { result.now ≡ self.now }
        ensures ascending { IsAscending result.now }
    {
        let _ = &self.names;
        &self.names
    }

    /// The list of the names, which takes no memory.
    pub fn into_vec(self) -> Vec<Name>
        ensures names { result.items ≡ self }
        ensures ascending { IsAscending result.items }
    {
        self.names
    }

    /// Whether the name is among them, by a binary search.
    pub fn has(&self, name: &str) -> bool
        ensures { IsTrue result ↔ Contains self.now name.now }
    {
        self.names
            .binary_search_by(|known| known.text().cmp(name))
            .is_ok()
    }
}
