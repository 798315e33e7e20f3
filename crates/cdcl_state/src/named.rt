// The letters that inputs name, each once, in the order in which they came. A letter may be known and stand
// in no input, as most letters of pairs of steps do: none of those has to be decided.
ghost use Rattle.std.specs.Prelude.{◌≡◌, ℕ, ◌<◌, [], length, true, false, All, Contains, IfOk, OnOk};
ghost use Rattle.std.specs.Prelude.{slice_index_or};

use std::alloc::{AllocError, Global};
use std::marker::Model;

/// Letters, and a flag for each of them.
#[derive(Drop)]
pub struct Named {
    letters: Vec<u32>,
    /// Whether a letter is among them. One behind the last flag isn't.
    flags: Vec<bool>,
}

impl Model for Named {
    ghost use Rattle.std.specs.Prelude.{ℕ, List};
    ghost use Rattle.cdcl_state.specs.Named.{AreListed};

    ghost Value = { List ℕ };

    ghost view = { λ a. a.letters.items };

    ghost invariant = { λ a. AreListed a.flags.items a.letters.items };
}

impl Named {
    /// No letters.
    pub fn new(alloc: Global) -> Self
        ensures { result ≡ [] }
    {
        Named {
            letters: Vec::new(alloc),
            flags: Vec::new(alloc),
        }
    }

    /// Whether the letter is among them.
    pub fn has(&self, letter: u32) -> bool
        ensures { result ≡ true → Contains self.now letter }
    {
        match self.flags.get(letter as usize) {
            Some(flag) => *flag,
            None => false,
        }
    }

    /// Puts the letter behind the others, if it is not among them, and answers whether it is new.
    pub fn name(&mut self, letter: u32) -> Result<bool, AllocError>
        ensures there { OnOk result (Contains self.new letter) }
        ensures kept { All (Contains self.new) self.old }
    {
        if self.has(letter) {
            return Ok(false);
        }
        lengthen_flags(&mut self.flags, letter as usize)?;
        self.letters.push(letter)?;
        self.flags[letter as usize] = true;
        Ok(true)
    }

    /// The letters.
    pub fn letters(&self) -> &[u32]
        ensures { result.now ≡ self.now }
    {
        &self.letters
    }
}

/// Puts flags that are not set behind the others, until the letter has one.
fn lengthen_flags(flags: &mut Vec<bool>, letter: usize) -> Result<(), AllocError>
    ensures kept { (x : ℕ) → slice_index_or flags.new.items x false ≡ true
        → slice_index_or flags.old.items x false ≡ true }
    ensures there { OnOk result (letter < length flags.new.items) }
{
    'more: while flags.len() <= letter {
        flags.push(false)?;
    }
    Ok(())
}
