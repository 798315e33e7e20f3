//! Traces: a stem and a loop that repeats for ever, or a finite list of states.
ghost use Rattle.std.specs.Prelude.{◌≡◌, ◌↔◌, [], IsTrue, length};

use crate::StateSet;
use std::marker::Model;

/// States in a row, which contracts see as the list of them.
#[derive(Drop)]
pub struct States {
    states: Vec<StateSet>,
}

impl Model for States {
    ghost use Rattle.std.specs.Prelude.{ℕ, List};

    ghost Value = { List (List (List ℕ)) };

    ghost view = { λ s. s.states.items };
}

impl States {
    pub fn new(states: Vec<StateSet>) -> States
        ensures { result ≡ states.items }
    {
        States { states }
    }

    pub fn as_slice(&self) -> &[StateSet]
        ensures { result.now ≡ self.now }
    {
        &self.states
    }

    /// The list of the states, which takes no memory.
    pub fn into_vec(self) -> Vec<StateSet>
        ensures { result.items ≡ self }
    {
        self.states
    }

    /// The number of states.
    pub fn len(&self) -> usize
        ensures { result ≡ length self.now }
    {
        self.states.len()
    }

    pub fn is_empty(&self) -> bool
        ensures { IsTrue result ↔ (self.now ≡ []) }
    {
        self.states.is_empty()
    }
}

/// A trace. It is one of `IsTrace` where the loop, or the finite list, is not empty; the stem may be empty.
#[derive(Drop)]
pub enum Trace {
    /// The stem, and then the loop again and again.
    Infinite { stem: States, loop_part: States },
    Finite { states: States },
}
