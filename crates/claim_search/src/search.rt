// The search, turn by turn. It asks for a first state in the highest frame, blocks that state's carry by
// obligations, and where none is left carries cubes into higher frames. Where a frame has lost all its own
// cubes, those above it are claims that hold relative to one another, and no state that keeps them is a
// first one: a certificate is made of them. (Bradley, SAT-based model checking without unrolling, 2011,
// with time turned round.) A turn asks two questions at most, and all that it does beside is linear in what
// was learnt, in the obligations and in the formula, but for the one that gathers the claims of a fixed
// point, which goes through them once for each level. The search can stop behind each turn.

use crate::backward::Backward;
use crate::finish::Finish;
use crate::frames::Standing;
use crate::generalise::Blocked;
use crate::obligations::Obligations;
use claim_check::Certificate;
use cnf_base::Rows;
use ltl_closure::Closure;
use ltl_syntax::Kind;
use std::alloc::{AllocError, Global};
use std::mem::replace;

/// What a search came to.
#[derive(Drop)]
pub enum Progress {
    /// A certificate, to be judged by whoever gets it.
    Found(Certificate),
    /// It may go on.
    More,
    /// It cannot refute: whoever asked should look for a trace.
    Ended,
}

/// What the next turn does. Obligations are named by their index.
#[derive(Clone, Copy, Drop)]
pub enum Phase {
    /// Asks for a first state.
    Asking,
    /// Takes an obligation.
    Blocking,
    /// Looks whether the run closes at its state of this place.
    Closing { place: usize },
    /// Leaves literals out of the cube by which the obligation is blocked.
    Shrinking { obligation: u32 },
    /// Lowers the level of that cube.
    Lowering { obligation: u32 },
    /// Raises the frame of that cube.
    Raising { obligation: u32 },
    /// Carries the cubes of a frame into the next one, from this index on.
    Pushing { frame: u32, index: usize },
    /// Makes a certificate.
    Finishing,
    Over,
}

/// A search for claims that refute a formula, question by question.
#[derive(Drop)]
pub struct Search<'c> {
    pub(crate) backward: Backward<'c>,
    pub(crate) obligations: Obligations,
    /// The run that is looked at, from its last state back to its first.
    pub(crate) run: Rows<bool>,
    /// The cube that is being generalised.
    pub(crate) blocked: Blocked,
    pub(crate) phase: Phase,
    /// The highest frame.
    pub(crate) top: u32,
    finish: Option<Finish>,
}

impl<'c> Search<'c> {
    /// A search that has asked nothing yet. The closure has to be of the same kind.
    pub fn new(
        alloc: Global,
        closure: &'c Closure<'c>,
        kind: Kind,
    ) -> Result<Search<'c>, AllocError> {
        Ok(Search {
            backward: Backward::new(alloc, closure, kind)?,
            obligations: Obligations::new(alloc),
            run: Rows::new(alloc),
            blocked: Blocked::new(Vec::new(alloc), Standing { frame: 0, level: 0 }),
            phase: Phase::Asking,
            top: 1,
            finish: None,
        })
    }

    /// Goes on where it stood, for this number of questions of a solver, or one more, or for as many turns
    /// that ask none. What it comes to does not depend on how its questions are cut into calls. After a
    /// certificate, an end or an error it has ended: each further call says so.
    pub fn advance(&mut self, questions: u64) -> Result<Progress, AllocError> {
        let until = self.backward.asked.saturating_add(questions);
        for _ in 0..questions {
            if self.backward.asked >= until {
                return Ok(Progress::More);
            }
            match self.turn() {
                Ok(Progress::More) => {}
                last => {
                    self.phase = Phase::Over;
                    return last;
                }
            }
        }
        Ok(Progress::More)
    }

    /// How many questions it has asked, those by which a certificate is made too.
    pub fn asked(&self) -> u64 {
        self.backward.asked
    }

    /// How many levels it has: eventualities, with repeats, that a run has to meet one after the other.
    pub fn levels(&self) -> u32 {
        self.backward.top()
    }

    /// How many claims it has, each of some frame.
    pub fn claims(&self) -> u64 {
        self.backward.frames.standing_count()
    }

    fn turn(&mut self) -> Result<Progress, AllocError> {
        match self.phase {
            Phase::Asking => self.begin(),
            Phase::Blocking => self.block(),
            Phase::Closing { place } => self.close(place),
            Phase::Shrinking { obligation } => self.shrink(obligation),
            Phase::Lowering { obligation } => self.lower(obligation),
            Phase::Raising { obligation } => self.raise(obligation),
            Phase::Pushing { frame, index } => self.push(frame, index),
            Phase::Finishing => self.finish(),
            Phase::Over => Ok(Progress::Ended),
        }
    }

    /// Takes up a first state in the highest frame, if there is one.
    fn begin(&mut self) -> Result<Progress, AllocError> {
        self.obligations.clear();
        if self.backward.has_first(self.top)? {
            let at = Standing {
                frame: self.top,
                level: self.backward.top(),
            };
            self.phase = Phase::Blocking;
            let needs = self.backward.first_needs()?;
            return self.oblige(at, None, needs);
        }
        self.phase = Phase::Pushing { frame: 1, index: 0 };
        Ok(Progress::More)
    }

    /// Carries the next cube of the frame into the frame above it. Where the frame has no cubes of its own
    /// left, that is a fixed point.
    fn push(&mut self, frame: u32, index: usize) -> Result<Progress, AllocError> {
        if let Some(place) = self.backward.frames.next_of(frame, index) {
            self.phase = Phase::Pushing {
                frame,
                index: place.saturating_add(1),
            };
            self.backward.carry_up(place)?;
            return Ok(Progress::More);
        }
        if !self.backward.frames.is_used(frame) {
            self.finish = Some(Finish::new(&mut self.backward, frame)?);
            self.phase = Phase::Finishing;
            return Ok(Progress::More);
        }
        if frame < self.top {
            self.phase = Phase::Pushing {
                frame: frame.saturating_add(1),
                index: 0,
            };
            return Ok(Progress::More);
        }
        self.top = self.top.saturating_add(1);
        let alloc = self.backward.alloc;
        self.backward.frames.compact(alloc)?;
        self.phase = Phase::Asking;
        Ok(Progress::More)
    }

    /// Goes on with the certificate. Where it cannot be made, the search has ended.
    fn finish(&mut self) -> Result<Progress, AllocError> {
        let Some(mut finish) = replace(&mut self.finish, None) else {
            return Ok(Progress::Ended);
        };
        if finish.turn(&mut self.backward)? {
            self.finish = Some(finish);
            return Ok(Progress::More);
        }
        match finish.certificate(&self.backward)? {
            Some(found) => Ok(Progress::Found(found)),
            None => Ok(Progress::Ended),
        }
    }
}
