// Frames of cubes, as in IC3 (Bradley, SAT-based model checking without unrolling, 2011): a cube stands in
// frame i where no state of it reaches the end in i steps. Here steps are counted backwards, from a state to
// the one before it, and each cube also has a level: how many eventualities are met on the way. What stands
// in a frame stands in those before it, and what is out of reach of a level is out of reach of those above
// it. In the solver each frame and each level has a letter; a question assumes one of each.

use crate::asker::Asker;
use crate::cube::{is_within, push_next_claim};
use cnf_base::{Literal, Rows};
use std::alloc::{AllocError, Global};

/// Where a cube stands. A cube that is in no frame is in frame 0.
#[derive(Clone, Copy, Drop)]
pub struct Standing {
    pub frame: u32,
    pub level: u32,
}

/// The cubes, and the letters that frames and levels have in the solver.
#[derive(Drop)]
pub struct Frames {
    cubes: Rows<Literal>,
    standings: Vec<Standing>,
    frames: Vec<Literal>,
    levels: Vec<Literal>,
}

/// The letter at the place, which is made where it is the next one. Letters imply one another in this order,
/// or in the other one.
fn letter_at(
    letters: &mut Vec<Literal>,
    place: u32,
    rises: bool,
    asker: &mut Asker,
) -> Result<Literal, AllocError> {
    let place = place as usize;
    for _ in letters.len()..place.saturating_add(1) {
        let letter = asker.fresh()?;
        let count = letters.len();
        if 0 < count {
            let before = letters[count - 1];
            let (from, to) = if rises {
                (before, letter)
            } else {
                (letter, before)
            };
            asker.add(&[from.opposite(), to])?;
        }
        letters.push(letter)?;
    }
    if place < letters.len() {
        return Ok(letters[place]);
    }
    Err(AllocError)
}

impl Frames {
    /// No cubes, and no letters.
    pub fn new(alloc: Global) -> Frames {
        Frames {
            cubes: Rows::new(alloc),
            standings: Vec::new(alloc),
            frames: Vec::new(alloc),
            levels: Vec::new(alloc),
        }
    }

    /// The letter that is true where the cubes of this frame and of those above it are forbidden.
    pub fn frame_letter(&mut self, asker: &mut Asker, frame: u32) -> Result<Literal, AllocError> {
        letter_at(&mut self.frames, frame, true, asker)
    }

    /// The letter that is true where the cubes of this level and of those below it are forbidden.
    pub fn level_letter(&mut self, asker: &mut Asker, level: u32) -> Result<Literal, AllocError> {
        letter_at(&mut self.levels, level, false, asker)
    }

    /// How many cubes there are, with those that are in no frame any more.
    pub fn len(&self) -> usize {
        self.standings.len()
    }

    /// How many cubes stand in frames.
    pub fn standing_count(&self) -> u64 {
        let mut count = 0u64;
        for standing in &self.standings {
            if standing.frame > 0 {
                count = count.saturating_add(1);
            }
        }
        count
    }

    /// Where the cube at this index from 0 on stands.
    pub fn standing(&self, index: usize) -> Standing {
        if index < self.standings.len() {
            return self.standings[index];
        }
        Standing { frame: 0, level: 0 }
    }

    /// The cube at this index, or none.
    pub fn cube(&self, index: usize) -> &[Literal] {
        if index < self.cubes.len() {
            return self.cubes.row(index);
        }
        &[]
    }

    /// The next cube from the index on that stands in exactly this frame.
    pub fn next_of(&self, frame: u32, from: usize) -> Option<usize> {
        for index in from..self.standings.len() {
            if self.standing(index).frame == frame {
                return Some(index);
            }
        }
        None
    }

    /// Whether some cube stands in exactly this frame.
    pub fn is_used(&self, frame: u32) -> bool {
        self.next_of(frame, 0).is_some()
    }

    /// Whether a cube of the frame and the level, or one that says more, has all states of this one.
    pub fn covers(&self, cube: &[Literal], at: Standing) -> bool {
        if at.frame == 0 {
            return false;
        }
        for index in 0..self.standings.len() {
            let other = self.standing(index);
            if other.frame >= at.frame && other.level <= at.level {
                if is_within(self.cube(index), cube) {
                    return true;
                }
            }
        }
        false
    }

    /// Whether the cube has all states of the one at this index, which says no more than it.
    fn is_covered(&self, index: usize, cube: &[Literal], at: Standing) -> bool {
        let other = self.standing(index);
        if other.frame > at.frame || other.level < at.level {
            return false;
        }
        is_within(cube, self.cube(index))
    }

    /// Takes the cubes that this one covers out of their frames.
    fn take_out(&mut self, cube: &[Literal], at: Standing) {
        for index in 0..self.standings.len() {
            if self.is_covered(index, cube, at) && index < self.standings.len() {
                self.standings[index] = Standing { frame: 0, level: 0 };
            }
        }
    }

    /// Puts the cube into the frame, and takes out those that it covers.
    pub fn learn(
        &mut self,
        alloc: Global,
        asker: &mut Asker,
        cube: &[Literal],
        at: Standing,
        width: u32,
    ) -> Result<(), AllocError> {
        self.take_out(cube, at);
        self.cubes.push(cube)?;
        self.standings.push(at)?;
        let index = self.standings.len().saturating_sub(1);
        self.load_one(alloc, asker, index, width)
    }

    /// Puts the claim of the cube into the solver, under the letters of its frame and level.
    fn load_one(
        &mut self,
        alloc: Global,
        asker: &mut Asker,
        index: usize,
        width: u32,
    ) -> Result<(), AllocError> {
        let at = self.standing(index);
        if at.frame == 0 {
            return Ok(());
        }
        let mut clause = Vec::new(alloc);
        clause.push(self.frame_letter(asker, at.frame)?.opposite())?;
        clause.push(self.level_letter(asker, at.level)?.opposite())?;
        push_next_claim(self.cube(index), width, &mut clause)?;
        asker.add(&clause)
    }

    /// Puts all claims into a new solver.
    pub fn load(&mut self, alloc: Global, asker: &mut Asker, width: u32) -> Result<(), AllocError> {
        self.frames.clear();
        self.levels.clear();
        for index in 0..self.standings.len() {
            self.load_one(alloc, asker, index, width)?;
        }
        Ok(())
    }

    /// The cubes that are in frames.
    fn standing_cubes(&self, alloc: Global) -> Result<Rows<Literal>, AllocError> {
        let mut cubes = Rows::new(alloc);
        for index in 0..self.standings.len() {
            if self.standing(index).frame > 0 {
                cubes.push(self.cube(index))?;
            }
        }
        Ok(cubes)
    }

    /// Forgets the cubes that are in no frame. Others get other indices.
    pub fn compact(&mut self, alloc: Global) -> Result<(), AllocError> {
        let cubes = self.standing_cubes(alloc)?;
        self.cubes = cubes;
        self.standings.retain(|at| at.frame > 0);
        Ok(())
    }
}
