// Relative questions, one step backwards: has a state of the cube a next state in a frame? Beside the
// claims of the frame the next state may be told not to be in the cube itself, since what blocks the cube
// blocks it at the next state too (relative induction: Bradley, SAT-based model checking without unrolling,
// 2011). That clause has a letter of its own, which is given up after the question; after many of them the
// solver is made anew (Een, Mishchenko and Brayton, Efficient implementation of property directed
// reachability, 2011). That steps are taken backwards, over what neighbours have to know of one another, is
// ours.
//
// Frame 0 is the end. On finite traces it has the last states. On infinite ones it has all states at level
// 0, and none above: a level counts eventualities still to be met, each in a later state, so the levels are
// k-liveness (Claessen and Sorensson, A liveness checking algorithm that counts, 2012) without a counter.

use crate::asker::Asker;
use crate::cube::{as_number, marked, push_next_claim};
use crate::frames::{Frames, Standing};
use crate::state::{Mark, carry, mark_of, marked_asker, width};
use cnf_base::Literal;
use ltl_closure::Closure;
use ltl_syntax::Kind;
use std::alloc::{AllocError, Global};

/// The number of clauses of single questions after which the solver is made anew.
const MANY_GATES: u32 = 1500;

/// How a next state is reached: on the same level, or on the one below it by meeting the level's
/// eventuality.
#[derive(Clone, Copy, PartialEq, Eq, Drop)]
pub enum Way {
    Staying,
    Meeting,
}

/// What is found of a cube, one step backwards.
#[derive(Drop)]
pub enum Reach {
    /// Some state of it is in frame 0.
    End,
    /// Some state of it has a next state in the frame below, which the last question shows.
    Next(Way),
    /// Neither, and no state with these literals of it has.
    Blocked(Vec<Literal>),
}

/// The solver with the list of a step, the cubes in their frames, and the eventualities of the levels.
#[derive(Drop)]
pub struct Backward<'c> {
    pub alloc: Global,
    pub closure: &'c Closure<'c>,
    pub kind: Kind,
    pub asker: Asker,
    pub frames: Frames,
    /// The numbers of the entries that neighbours have to know of one another.
    pub carry: Vec<u32>,
    /// The eventuality of each level from 1 on; none where any state will do.
    pub sequence: Vec<Option<u32>>,
    /// How many questions were asked, those of other solvers too.
    pub asked: u64,
    gates: u32,
}

impl<'c> Backward<'c> {
    /// A solver with no cubes and no levels. No question is asked.
    pub fn new(
        alloc: Global,
        closure: &'c Closure<'c>,
        kind: Kind,
    ) -> Result<Backward<'c>, AllocError> {
        let carry = carry(alloc, closure)?;
        let asker = marked_asker(alloc, closure, shown(closure))?;
        Ok(Backward {
            alloc,
            closure,
            kind,
            asker,
            frames: Frames::new(alloc),
            carry,
            sequence: Vec::new(alloc),
            asked: 0,
            gates: 0,
        })
    }

    /// The highest level.
    pub fn top(&self) -> u32 {
        as_number(self.sequence.len())
    }

    /// The eventuality of a level from 1 on.
    pub fn eventuality_of(&self, level: u32) -> Option<u32> {
        let index = (level as usize).saturating_sub(1);
        if level > 0 && index < self.sequence.len() {
            return self.sequence[index];
        }
        None
    }

    /// Takes note of a question.
    pub fn count(&mut self) {
        self.asked = self.asked.saturating_add(1);
    }

    /// Whether some first state is in the frame, at the highest level. The question shows it as a next
    /// state.
    pub fn has_first(&mut self, frame: u32) -> Result<bool, AllocError> {
        let mut assumptions = Vec::new(self.alloc);
        let level = self.top();
        assumptions.push(self.frames.frame_letter(&mut self.asker, frame)?)?;
        assumptions.push(self.frames.level_letter(&mut self.asker, level)?)?;
        assumptions.push(mark_of(self.closure, Mark::NextFirst))?;
        self.count();
        self.asker.ask(&assumptions)
    }

    /// What is found of the cube, which stands here. It asks two questions at most.
    pub fn reach(&mut self, cube: &[Literal], at: Standing) -> Result<Reach, AllocError> {
        let mut used = self.unused(cube)?;
        if self.is_at_end(cube, at.level, &mut used)? {
            return Ok(Reach::End);
        }
        if at.level > 0 {
            if self.leads(cube, at, Way::Meeting, &mut used)? {
                return Ok(Reach::Next(Way::Meeting));
            }
        }
        if self.leads(cube, at, Way::Staying, &mut used)? {
            return Ok(Reach::Next(Way::Staying));
        }
        Ok(Reach::Blocked(marked(self.alloc, cube, &used)?))
    }

    /// A mark for each literal of the cube, none of which is set.
    fn unused(&self, cube: &[Literal]) -> Result<Vec<bool>, AllocError> {
        let mut used = Vec::new(self.alloc);
        used.resize(cube.len(), false)?;
        Ok(used)
    }

    /// Whether some state of the cube is in frame 0 at the level. Where none is, the literals are marked by
    /// which that is so.
    fn is_at_end(
        &mut self,
        cube: &[Literal],
        level: u32,
        used: &mut Vec<bool>,
    ) -> Result<bool, AllocError> {
        if self.kind == Kind::Infinite {
            return Ok(level == 0);
        }
        let mut assumptions = Vec::new(self.alloc);
        assumptions.push(mark_of(self.closure, Mark::Last))?;
        self.ask_of(cube, assumptions, used)
    }

    /// Whether some state of the cube has a next state in the frame below, by this way. Where none has, the
    /// literals are marked by which that is so.
    fn leads(
        &mut self,
        cube: &[Literal],
        at: Standing,
        way: Way,
        used: &mut Vec<bool>,
    ) -> Result<bool, AllocError> {
        let into = after(at, way);
        if into.frame == 0 && into.level > 0 && self.kind == Kind::Infinite {
            return Ok(false);
        }
        self.refresh()?;
        let assumptions = self.target(into)?;
        match way {
            Way::Staying => self.leads_by_staying(cube, assumptions, used),
            Way::Meeting => self.leads_by_meeting(cube, at.level, assumptions, used),
        }
    }

    /// Whether one has, where the next state is not in the cube itself.
    fn leads_by_staying(
        &mut self,
        cube: &[Literal],
        into: Vec<Literal>,
        used: &mut Vec<bool>,
    ) -> Result<bool, AllocError> {
        let mut assumptions = into;
        let gate = self.forbid(cube)?;
        assumptions.push(gate)?;
        let found = self.ask_of(cube, assumptions, used)?;
        self.asker.add(&[gate.opposite()])?;
        Ok(found)
    }

    /// Whether one has, where the next state meets the eventuality of the level.
    fn leads_by_meeting(
        &mut self,
        cube: &[Literal],
        level: u32,
        into: Vec<Literal>,
        used: &mut Vec<bool>,
    ) -> Result<bool, AllocError> {
        let mut assumptions = into;
        if let Some(index) = self.eventuality_of(level) {
            assumptions.push(mark_of(self.closure, Mark::Meets(index)))?;
        }
        self.ask_of(cube, assumptions, used)
    }

    /// What a next state that stands here is assumed to be.
    fn target(&mut self, into: Standing) -> Result<Vec<Literal>, AllocError> {
        let mut assumptions = Vec::new(self.alloc);
        assumptions.push(mark_of(self.closure, Mark::After))?;
        assumptions.push(self.frames.frame_letter(&mut self.asker, into.frame)?)?;
        assumptions.push(self.frames.level_letter(&mut self.asker, into.level)?)?;
        if into.frame == 0 && self.kind == Kind::Finite {
            assumptions.push(mark_of(self.closure, Mark::NextLast))?;
        }
        Ok(assumptions)
    }

    /// A letter that is true only where the next state is not in the cube.
    fn forbid(&mut self, cube: &[Literal]) -> Result<Literal, AllocError> {
        let gate = self.asker.fresh()?;
        self.gates = self.gates.saturating_add(1);
        let mut clause = Vec::new(self.alloc);
        clause.push(gate.opposite())?;
        push_next_claim(cube, width(self.closure), &mut clause)?;
        self.asker.add(&clause)?;
        Ok(gate)
    }

    /// Asks for a state of the cube under the assumptions. Where there is none, the literals of the cube are
    /// marked that the refutation used.
    fn ask_of(
        &mut self,
        cube: &[Literal],
        assumptions: Vec<Literal>,
        used: &mut Vec<bool>,
    ) -> Result<bool, AllocError> {
        let mut assumptions = assumptions;
        assumptions.extend_from_slice(cube)?;
        self.count();
        let found = self.asker.ask(&assumptions)?;
        if !found {
            mark_core(&self.asker, cube, used);
        }
        Ok(found)
    }

    /// Puts the cube into the frame.
    pub fn learn(&mut self, cube: &[Literal], at: Standing) -> Result<(), AllocError> {
        let width = width(self.closure);
        self.frames
            .learn(self.alloc, &mut self.asker, cube, at, width)
    }

    /// Carries the cube at this index into the frame above its own, where it is blocked there.
    pub fn carry_up(&mut self, index: usize) -> Result<(), AllocError> {
        let at = self.frames.standing(index);
        let higher = Standing {
            frame: at.frame.saturating_add(1),
            level: at.level,
        };
        let mut cube = Vec::new(self.alloc);
        cube.extend_from_slice(self.frames.cube(index))?;
        if let Reach::Blocked(core) = self.reach(&cube, higher)? {
            self.learn(&core, higher)?;
        }
        Ok(())
    }

    /// Makes the solver anew where it has many clauses of single questions.
    fn refresh(&mut self) -> Result<(), AllocError> {
        if self.gates < MANY_GATES {
            return Ok(());
        }
        self.gates = 0;
        self.asker = marked_asker(self.alloc, self.closure, shown(self.closure))?;
        let width = width(self.closure);
        self.frames.load(self.alloc, &mut self.asker, width)
    }
}

/// Marks the literals of the cube that the last refutation used.
fn mark_core(asker: &Asker, cube: &[Literal], used: &mut Vec<bool>) {
    for (index, own) in cube.iter().enumerate() {
        if index < used.len() && asker.is_in_core(*own) {
            used[index] = true;
        }
    }
}

/// Where a step by this way arrives.
pub fn after(at: Standing, way: Way) -> Standing {
    Standing {
        frame: at.frame.saturating_sub(1),
        level: match way {
            Way::Staying => at.level,
            Way::Meeting => at.level.saturating_sub(1),
        },
    }
}

/// The letters whose values are shown: the entries of both states.
fn shown(closure: &Closure<'_>) -> u32 {
    width(closure).saturating_mul(2)
}
