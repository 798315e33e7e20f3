// Turns that block an obligation: it leads on to one in a lower frame, or a cube that has its state is
// learnt, or it is at the end. Then it and those before it are a run; on finite traces the search is over,
// on infinite ones it goes on with one more level, unless the run closes.

use crate::backward::{Reach, Way, after};
use crate::frames::Standing;
use crate::generalise::Blocked;
use crate::levels::{asks_nothing, closes_at, next_eventuality};
use crate::run::run_to;
use crate::search::{Phase, Progress, Search};
use ltl_syntax::Kind;
use std::alloc::AllocError;

impl<'c> Search<'c> {
    /// Puts the next state that the last question found behind the obligations, with the cube of those that
    /// have what is needed.
    pub(crate) fn oblige(
        &mut self,
        at: Standing,
        before: Option<u32>,
        needs: Vec<bool>,
    ) -> Result<Progress, AllocError> {
        let state = self.backward.found_state()?;
        if self.backward.kind == Kind::Infinite && asks_nothing(&self.backward, &state) {
            return Ok(Progress::Ended);
        }
        let cube = self.backward.lifted(&state, needs)?;
        self.obligations.push(&cube, &state, at, before)?;
        Ok(Progress::More)
    }

    /// Puts the next state that the last question found behind the obligation that it was found for.
    fn follow(&mut self, index: u32, at: Standing, way: Way) -> Result<Progress, AllocError> {
        let cube = self.obligations.cube(index);
        let needs = self.backward.step_needs(cube, at.level, way)?;
        self.oblige(after(at, way), Some(index), needs)
    }

    /// Takes the next obligation.
    pub(crate) fn block(&mut self) -> Result<Progress, AllocError> {
        let Some(index) = self.obligations.next() else {
            self.phase = Phase::Asking;
            return Ok(Progress::More);
        };
        let Some(obligation) = self.obligations.get(index) else {
            return Ok(Progress::Ended);
        };
        let at = obligation.at;
        let cube = self.obligations.cube(index);
        if self.backward.frames.covers(cube, at) {
            self.obligations.rise(index, self.top);
            return Ok(Progress::More);
        }
        match self.backward.reach(cube, at)? {
            Reach::End => self.end_run(index),
            Reach::Next(way) => self.follow(index, at, way),
            Reach::Blocked(core) => {
                self.blocked = Blocked::new(core, at);
                self.phase = Phase::Shrinking { obligation: index };
                Ok(Progress::More)
            }
        }
    }

    /// The obligation is at the end: it and those before it are a run.
    fn end_run(&mut self, index: u32) -> Result<Progress, AllocError> {
        if self.backward.kind == Kind::Finite {
            return Ok(Progress::Ended);
        }
        self.run = run_to(&self.backward, &self.obligations, index)?;
        self.phase = Phase::Closing { place: 0 };
        Ok(Progress::More)
    }

    /// Looks whether the run closes at its state of this place. Where it closes nowhere, there is one more
    /// level.
    pub(crate) fn close(&mut self, place: usize) -> Result<Progress, AllocError> {
        if closes_at(&self.backward, &self.run, place)? {
            return Ok(Progress::Ended);
        }
        let later = place.saturating_add(1);
        if later < self.run.len() {
            self.phase = Phase::Closing { place: later };
            return Ok(Progress::More);
        }
        let next = next_eventuality(&self.backward, &self.run)?;
        self.backward.sequence.push(next)?;
        self.phase = Phase::Asking;
        Ok(Progress::More)
    }

    /// Tries to leave out one more literal of the cube that is blocked.
    pub(crate) fn shrink(&mut self, obligation: u32) -> Result<Progress, AllocError> {
        if !self.blocked.shrink(&mut self.backward)? {
            self.phase = Phase::Lowering { obligation };
        }
        Ok(Progress::More)
    }

    /// Tries to lower the level of the cube that is blocked.
    pub(crate) fn lower(&mut self, obligation: u32) -> Result<Progress, AllocError> {
        if !self.blocked.lower(&mut self.backward)? {
            self.phase = Phase::Raising { obligation };
        }
        Ok(Progress::More)
    }

    /// Tries to raise the frame of the cube that is blocked. Where it stays, it is learnt.
    pub(crate) fn raise(&mut self, obligation: u32) -> Result<Progress, AllocError> {
        if !self.blocked.raise(self.top, &mut self.backward)? {
            self.blocked.learn(&mut self.backward)?;
            self.obligations.rise(obligation, self.top);
            self.phase = Phase::Blocking;
        }
        Ok(Progress::More)
    }
}
