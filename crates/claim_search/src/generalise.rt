// Smaller cubes: what refuted a cube mostly refutes more states. First only the literals stay that the
// refutation used, then each is left out where that is refuted too (Bradley 2011); then the level is lowered
// and the frame raised as far as the claim holds. Each try is a call of its own, so that the search can stop
// between them.

use crate::backward::{Backward, Reach};
use crate::cube::without;
use crate::frames::Standing;
use cnf_base::Literal;
use std::alloc::AllocError;

/// A cube that is blocked where it stands. The first literals of it are still to be tried.
#[derive(Drop)]
pub struct Blocked {
    cube: Vec<Literal>,
    at: Standing,
    untried: usize,
}

impl Blocked {
    /// A cube of which nothing is tried yet.
    pub fn new(cube: Vec<Literal>, at: Standing) -> Blocked {
        let untried = cube.len();
        Blocked { cube, at, untried }
    }

    /// Tries to leave out the last literal that is untried. False where there is none.
    pub fn shrink(&mut self, backward: &mut Backward<'_>) -> Result<bool, AllocError> {
        if self.untried > self.cube.len() {
            self.untried = self.cube.len();
        }
        if self.untried == 0 {
            return Ok(false);
        }
        self.untried -= 1;
        let smaller = without(backward.alloc, &self.cube, self.untried)?;
        if let Reach::Blocked(core) = backward.reach(&smaller, self.at)? {
            self.cube = core;
        }
        Ok(true)
    }

    /// Lowers the level by one. False where the cube is not blocked there.
    pub fn lower(&mut self, backward: &mut Backward<'_>) -> Result<bool, AllocError> {
        if self.at.level < 2 {
            return Ok(false);
        }
        let lower = Standing {
            frame: self.at.frame,
            level: self.at.level - 1,
        };
        self.move_to(lower, backward)
    }

    /// Raises the frame by one. False where that is above `top`, or the cube is not blocked there.
    pub fn raise(&mut self, top: u32, backward: &mut Backward<'_>) -> Result<bool, AllocError> {
        if self.at.frame >= top {
            return Ok(false);
        }
        let higher = Standing {
            frame: self.at.frame.saturating_add(1),
            level: self.at.level,
        };
        self.move_to(higher, backward)
    }

    /// Moves the cube where it is blocked there too.
    fn move_to(&mut self, at: Standing, backward: &mut Backward<'_>) -> Result<bool, AllocError> {
        if let Reach::Blocked(_) = backward.reach(&self.cube, at)? {
            self.at = at;
            return Ok(true);
        }
        Ok(false)
    }

    /// Puts the cube into its frame.
    pub fn learn(&self, backward: &mut Backward<'_>) -> Result<(), AllocError> {
        backward.learn(&self.cube, self.at)
    }
}
