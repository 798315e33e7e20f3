// Obligations: cubes whose states would lead from a first state to the end, each with the one that it comes
// from, and so all the way back to a first state. The one nearest the end is taken first (Een, Mishchenko
// and Brayton, Efficient implementation of property directed reachability, 2011). Each keeps the state that
// was found beside its cube, which has less of it.

use crate::cube::as_number;
use crate::frames::Standing;
use cnf_base::{Literal, Rows};
use std::alloc::{AllocError, Global};

/// An obligation, and the one that it comes from. The first comes from none.
#[derive(Clone, Copy, Drop)]
pub struct Obligation {
    pub at: Standing,
    pub before: Option<u32>,
    pub open: bool,
}

/// The obligations from one first state on.
#[derive(Drop)]
pub struct Obligations {
    cubes: Rows<Literal>,
    states: Rows<bool>,
    list: Vec<Obligation>,
}

/// The obligation in the frame above, or closed where there is none up to `top`.
fn risen(own: Obligation, top: u32) -> Obligation {
    let at = Standing {
        frame: own.at.frame.saturating_add(1),
        level: own.at.level,
    };
    Obligation {
        at,
        before: own.before,
        open: at.frame <= top,
    }
}

impl Obligations {
    /// No obligations.
    pub fn new(alloc: Global) -> Obligations {
        Obligations {
            cubes: Rows::new(alloc),
            states: Rows::new(alloc),
            list: Vec::new(alloc),
        }
    }

    /// Forgets all.
    pub fn clear(&mut self) {
        self.cubes.truncate(0);
        self.states.truncate(0);
        self.list.clear();
    }

    /// Puts an open obligation behind the others: a cube, the state of it that was found, where it stands,
    /// and the index of the one that it comes from.
    pub fn push(
        &mut self,
        cube: &[Literal],
        state: &[bool],
        at: Standing,
        before: Option<u32>,
    ) -> Result<(), AllocError> {
        self.cubes.push(cube)?;
        self.states.push(state)?;
        self.list.push(Obligation {
            at,
            before,
            open: true,
        })?;
        Ok(())
    }

    /// The open obligation in the lowest frame, and of these the one that came last.
    pub fn next(&self) -> Option<u32> {
        let mut best = None;
        let mut lowest = u32::MAX;
        for (index, own) in self.list.iter().enumerate() {
            if own.open && own.at.frame <= lowest {
                lowest = own.at.frame;
                best = Some(as_number(index));
            }
        }
        best
    }

    /// The obligation of this index from 0 on.
    pub fn get(&self, index: u32) -> Option<Obligation> {
        let index = index as usize;
        if index < self.list.len() {
            return Some(self.list[index]);
        }
        None
    }

    /// Moves the obligation to the frame above, or closes it where there is none up to `top`.
    pub fn rise(&mut self, index: u32, top: u32) {
        let index = index as usize;
        if index < self.list.len() {
            let own = self.list[index];
            self.list[index] = risen(own, top);
        }
    }

    /// Its cube.
    pub fn cube(&self, index: u32) -> &[Literal] {
        let index = index as usize;
        if index < self.cubes.len() {
            return self.cubes.row(index);
        }
        &[]
    }

    /// The values of the entries of its state, by their numbers.
    pub fn state(&self, index: u32) -> &[bool] {
        let index = index as usize;
        if index < self.states.len() {
            return self.states.row(index);
        }
        &[]
    }

    /// The obligation and those that it comes from, back to the first.
    pub fn chain_to(&self, alloc: Global, index: u32) -> Result<Vec<u32>, AllocError> {
        let mut chain = Vec::new(alloc);
        let mut place = Some(index);
        for _ in 0..self.list.len() {
            if let Some(own) = place {
                chain.push(own)?;
                place = match self.get(own) {
                    Some(obligation) => obligation.before,
                    None => None,
                };
            }
        }
        Ok(chain)
    }
}
