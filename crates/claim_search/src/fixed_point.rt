// The claims of a fixed point, by levels: the lowest level first, since each may use those below it.

use crate::backward::Backward;
use cnf_base::{Literal, Rows};
use std::alloc::AllocError;

/// Cubes that are claims, and their levels, the lowest level first.
#[derive(Drop)]
pub struct Claims {
    pub cubes: Rows<Literal>,
    pub levels: Vec<u32>,
}

impl Claims {
    /// The cube of the claim at this index from 0 on, or none.
    pub fn cube(&self, index: usize) -> &[Literal] {
        if index < self.cubes.len() {
            return self.cubes.row(index);
        }
        &[]
    }

    /// Its level, or 0.
    pub fn level(&self, index: usize) -> u32 {
        if index < self.levels.len() {
            return self.levels[index];
        }
        0
    }

    /// How many claims there are.
    pub fn len(&self) -> usize {
        self.levels.len()
    }

    /// Where the claims of the level end that begins here.
    pub fn end_from(&self, from: usize) -> usize {
        let level = self.level(from);
        for index in from..self.levels.len() {
            if self.level(index) != level {
                return index;
            }
        }
        self.levels.len()
    }

    fn push(&mut self, cube: &[Literal], level: u32) -> Result<(), AllocError> {
        self.cubes.push(cube)?;
        self.levels.push(level)?;
        Ok(())
    }

    /// The claims whose places are marked.
    pub fn marked(&self, backward: &Backward<'_>, marks: &Vec<bool>) -> Result<Claims, AllocError> {
        let mut kept = no_claims(backward);
        for (index, is_marked) in marks.iter().enumerate() {
            if *is_marked {
                kept.push(self.cube(index), self.level(index))?;
            }
        }
        Ok(kept)
    }
}

fn no_claims(backward: &Backward<'_>) -> Claims {
    Claims {
        cubes: Rows::new(backward.alloc),
        levels: Vec::new(backward.alloc),
    }
}

/// Puts the cubes of the level that stand above the frame behind the others.
fn push_level(
    backward: &Backward<'_>,
    frame: u32,
    level: u32,
    out: &mut Claims,
) -> Result<(), AllocError> {
    for index in 0..backward.frames.len() {
        let at = backward.frames.standing(index);
        if at.frame > frame && at.level == level {
            out.push(backward.frames.cube(index), level)?;
        }
    }
    Ok(())
}

/// The cubes that stand above the frame.
pub fn claims_above(backward: &Backward<'_>, frame: u32) -> Result<Claims, AllocError> {
    let mut claims = no_claims(backward);
    for level in 0..backward.top().saturating_add(1) {
        push_level(backward, frame, level, &mut claims)?;
    }
    Ok(claims)
}
