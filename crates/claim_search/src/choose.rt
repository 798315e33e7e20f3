// Fewer claims: each claim has a letter for its clause at the state and one for that at the next state, and
// questions assume them. From the question for a first state on, only claims stay whose letters a refutation
// used, and then those that refute theirs. Claims that are needed already are assumed first, since a
// refutation mostly uses what comes first.

use crate::asker::Asker;
use crate::backward::Backward;
use crate::cube::{push_claim, push_next_claim};
use crate::fixed_point::Claims;
use crate::state::{Mark, mark_of, marked_asker, width};
use cnf_base::Literal;
use ltl_syntax::Kind;
use std::alloc::{AllocError, Global};

/// The letters of a claim at both states, and whether the claim is needed.
#[derive(Clone, Copy, Drop)]
struct Letters {
    here: Literal,
    next: Literal,
    needed: bool,
}

/// The claims with their letters, and the indices of those that are needed while it is not yet known why they
/// hold.
#[derive(Drop)]
pub struct Choice {
    alloc: Global,
    claims: Claims,
    asker: Asker,
    letters: Vec<Letters>,
    open: Vec<usize>,
}

impl Choice {
    /// Puts all claims into a solver, and needs those by which no state is a first one. It asks one question.
    pub fn new(backward: &mut Backward<'_>, claims: Claims) -> Result<Choice, AllocError> {
        let asker = marked_asker(backward.alloc, backward.closure, 0)?;
        let mut choice = Choice::of(backward.alloc, claims, asker);
        choice.begin(backward)?;
        Ok(choice)
    }

    /// No claim has letters yet.
    fn of(alloc: Global, claims: Claims, asker: Asker) -> Choice {
        Choice {
            alloc,
            claims,
            asker,
            letters: Vec::new(alloc),
            open: Vec::new(alloc),
        }
    }

    fn begin(&mut self, backward: &mut Backward<'_>) -> Result<(), AllocError> {
        self.load(width(backward.closure))?;
        let mut close = Vec::new(self.alloc);
        close.push(mark_of(backward.closure, Mark::First))?;
        let above = backward.top().saturating_add(1);
        self.ask(backward, close, above, false)
    }

    /// Needs what the next open claim needs. It asks two questions. False where no claim is open.
    pub fn explain(&mut self, backward: &mut Backward<'_>) -> Result<bool, AllocError> {
        let Some(index) = self.open.pop() else {
            return Ok(false);
        };
        let level = self.claims.level(index);
        let step = self.step_of(backward, index)?;
        self.ask(backward, step, level, true)?;
        let base = self.base_of(backward, index)?;
        self.ask(backward, base, level, false)?;
        Ok(true)
    }

    /// The claims that are needed.
    pub fn kept(&self, backward: &Backward<'_>) -> Result<Claims, AllocError> {
        let needed = self.needed()?;
        self.claims.marked(backward, &needed)
    }

    /// Whether all claims are needed.
    pub fn needs_all(&self) -> bool {
        for of in &self.letters {
            if !of.needed {
                return false;
            }
        }
        true
    }

    /// Gives each claim its letters.
    fn load(&mut self, width: u32) -> Result<(), AllocError> {
        for index in 0..self.claims.len() {
            let here = self.asker.fresh()?;
            let next = self.asker.fresh()?;
            let mut clause = Vec::new(self.alloc);
            clause.push(here.opposite())?;
            push_claim(self.claims.cube(index), &mut clause)?;
            self.asker.add(&clause)?;
            clause.clear();
            clause.push(next.opposite())?;
            push_next_claim(self.claims.cube(index), width, &mut clause)?;
            self.asker.add(&clause)?;
            self.letters.push(Letters {
                here,
                next,
                needed: false,
            })?;
        }
        Ok(())
    }

    /// What is assumed against the claim's step.
    fn step_of(&self, backward: &Backward<'_>, index: usize) -> Result<Vec<Literal>, AllocError> {
        let mut step = Vec::new(self.alloc);
        step.push(mark_of(backward.closure, Mark::After))?;
        step.extend_from_slice(self.claims.cube(index))?;
        Ok(step)
    }

    /// What is assumed against the claim's base.
    fn base_of(&self, backward: &Backward<'_>, index: usize) -> Result<Vec<Literal>, AllocError> {
        let mut base = Vec::new(self.alloc);
        base.push(match backward.kind {
            Kind::Finite => mark_of(backward.closure, Mark::Last),
            Kind::Infinite => mark_of(backward.closure, Mark::After),
        })?;
        if let Some(met) = backward.eventuality_of(self.claims.level(index)) {
            base.push(mark_of(backward.closure, Mark::Meets(met)))?;
        }
        base.extend_from_slice(self.claims.cube(index))?;
        Ok(base)
    }

    /// Asks under these assumptions and those of the claims that may be named, and needs those that are
    /// used.
    fn ask(
        &mut self,
        backward: &mut Backward<'_>,
        fixed: Vec<Literal>,
        level: u32,
        own: bool,
    ) -> Result<(), AllocError> {
        let mut assumptions = fixed;
        self.push_letters(level, own, true, &mut assumptions)?;
        self.push_letters(level, own, false, &mut assumptions)?;
        backward.count();
        if !self.asker.ask(&assumptions)? {
            self.take_core()?;
        }
        Ok(())
    }

    /// Puts the letters of the claims that may be named behind the assumptions, of those that are needed or
    /// of the others: at both states below the level, and at the next state on the level itself, if `own`.
    fn push_letters(
        &self,
        level: u32,
        own: bool,
        needed: bool,
        out: &mut Vec<Literal>,
    ) -> Result<(), AllocError> {
        for (index, of) in self.letters.iter().enumerate() {
            if of.needed == needed {
                let is_below = self.claims.level(index) < level;
                if is_below || (own && self.claims.level(index) == level) {
                    out.push(of.next)?;
                }
                if is_below {
                    out.push(of.here)?;
                }
            }
        }
        Ok(())
    }

    /// Needs the claims whose letters refuted the last question.
    fn take_core(&mut self) -> Result<(), AllocError> {
        for index in 0..self.letters.len() {
            let of = self.letters[index];
            let is_used = self.asker.is_in_core(of.here) || self.asker.is_in_core(of.next);
            if is_used && !of.needed {
                self.letters[index] = Letters { needed: true, ..of };
                self.open.push(index)?;
            }
        }
        Ok(())
    }

    /// Which claims are needed, by their indices.
    fn needed(&self) -> Result<Vec<bool>, AllocError> {
        let mut needed = Vec::new(self.alloc);
        for of in &self.letters {
            needed.push(of.needed)?;
        }
        Ok(needed)
    }
}
