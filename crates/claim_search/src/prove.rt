// The proof of claims: one solver with the list of a step, into which each layer's claims are opened as a
// certificate opens them, at the next state before the layer's step and at the state behind it. So the
// numbers of its clauses are those of the certificate, and its log is the certificate's lines. Each target
// is the line that answers a question.

use crate::asker::Asker;
use crate::backward::Backward;
use crate::cube::{push_claim, push_next_claim, signed};
use crate::fixed_point::Claims;
use crate::state::{Mark, eventuality, list_asker, mark_of, width};
use clause_log::Log;
use cnf_base::Literal;
use ltl_syntax::Kind;
use std::alloc::{AllocError, Global};

/// The claims of one level, from one index to before another, and how many lines there are behind its base
/// and behind its step.
#[derive(Clone, Copy, Drop)]
pub struct Part {
    pub eventuality: Option<u32>,
    pub from: usize,
    pub to: usize,
    pub base_end: u64,
    pub step_end: u64,
}

/// The claims, the lines, and for each claim its targets: two of the base, of which the second may be 0, and
/// one of the step. A target is 0 where its question was not refuted.
#[derive(Drop)]
pub struct Proof {
    pub claims: Claims,
    pub log: Log,
    pub parts: Vec<Part>,
    pub bases: Vec<[u64; 2]>,
    pub steps: Vec<u64>,
    pub close: u64,
}

/// Which questions come next.
#[derive(Clone, Copy, Drop)]
enum Stage {
    Base,
    Step,
    Close,
    Done,
}

/// A proof in the making: the part that is proved, and the claim of it that is next.
#[derive(Drop)]
pub struct Prover {
    alloc: Global,
    claims: Claims,
    asker: Asker,
    parts: Vec<Part>,
    bases: Vec<[u64; 2]>,
    steps: Vec<u64>,
    close: u64,
    part: Part,
    index: usize,
    stage: Stage,
}

impl Prover {
    /// A solver with the list of a step, and nothing proved. No question is asked.
    pub fn new(backward: &Backward<'_>, claims: Claims) -> Result<Prover, AllocError> {
        let asker = list_asker(backward.alloc, backward.closure, 0)?;
        let part = part_from(backward, &claims, 0);
        Ok(Prover::of(backward.alloc, claims, asker, part))
    }

    fn of(alloc: Global, claims: Claims, asker: Asker, part: Part) -> Prover {
        let stage = stage_at(&claims, 0);
        Prover {
            alloc,
            claims,
            asker,
            parts: Vec::new(alloc),
            bases: Vec::new(alloc),
            steps: Vec::new(alloc),
            close: 0,
            part,
            index: 0,
            stage,
        }
    }

    /// Proves the next thing, by two questions at most. False where all is proved.
    pub fn turn(&mut self, backward: &mut Backward<'_>) -> Result<bool, AllocError> {
        match self.stage {
            Stage::Base => self.prove_base(backward)?,
            Stage::Step => self.prove_step(backward)?,
            Stage::Close => {
                self.close = self.target(backward, &[], Mark::First, None)?;
                self.stage = Stage::Done;
            }
            Stage::Done => return Ok(false),
        }
        Ok(true)
    }

    /// What is proved.
    pub fn finish(self) -> Proof {
        Proof {
            claims: self.claims,
            log: self.asker.into_log(),
            parts: self.parts,
            bases: self.bases,
            steps: self.steps,
            close: self.close,
        }
    }

    /// Proves the next claim of the part at its base. Behind the last the claims are opened at the next
    /// state.
    fn prove_base(&mut self, backward: &mut Backward<'_>) -> Result<(), AllocError> {
        if self.index < self.part.to {
            let targets = self.base(backward)?;
            self.bases.push(targets)?;
            self.index = self.index.saturating_add(1);
            return Ok(());
        }
        self.part.base_end = self.asker.lines();
        self.open(width(backward.closure), true)?;
        self.index = self.part.from;
        self.stage = Stage::Step;
        Ok(())
    }

    /// Proves the next claim of the part at its step. Behind the last the claims are opened at the state,
    /// and the next part begins.
    fn prove_step(&mut self, backward: &mut Backward<'_>) -> Result<(), AllocError> {
        if self.index < self.part.to {
            let cube = copy(self.alloc, self.claims.cube(self.index))?;
            let target = self.target(backward, &cube, Mark::After, None)?;
            self.steps.push(target)?;
            self.index = self.index.saturating_add(1);
            return Ok(());
        }
        self.part.step_end = self.asker.lines();
        self.open(width(backward.closure), false)?;
        self.parts.push(self.part)?;
        self.part = part_from(backward, &self.claims, self.part.to);
        self.stage = stage_at(&self.claims, self.index);
        Ok(())
    }

    /// The targets of the next claim at the base.
    fn base(&mut self, backward: &mut Backward<'_>) -> Result<[u64; 2], AllocError> {
        let cube = copy(self.alloc, self.claims.cube(self.index))?;
        if backward.kind == Kind::Finite {
            return Ok([self.target(backward, &cube, Mark::Last, None)?, 0]);
        }
        let pair = match self.part.eventuality {
            Some(index) => eventuality(backward.closure, index),
            None => None,
        };
        let Some((request, right)) = pair else {
            return Ok([self.target(backward, &cube, Mark::After, None)?, 0]);
        };
        self.base_of_two(backward, &cube, request, right)
    }

    /// The targets where the next state meets an eventuality: its request is not open, or its right operand
    /// holds.
    fn base_of_two(
        &mut self,
        backward: &mut Backward<'_>,
        cube: &[Literal],
        request: u32,
        right: u32,
    ) -> Result<[u64; 2], AllocError> {
        let width = width(backward.closure);
        let asked = signed(width.saturating_add(request), true);
        let first = self.target(backward, cube, Mark::After, Some(asked))?;
        let fulfilled = signed(width.saturating_add(right), false);
        let second = self.target(backward, cube, Mark::After, Some(fulfilled))?;
        Ok([first, second])
    }

    /// The line by which no state of the cube has the mark and the other, or 0 where one has.
    fn target(
        &mut self,
        backward: &mut Backward<'_>,
        cube: &[Literal],
        of: Mark,
        other: Option<Literal>,
    ) -> Result<u64, AllocError> {
        let mut assumptions = Vec::new(self.alloc);
        assumptions.push(mark_of(backward.closure, of))?;
        if let Some(other) = other {
            assumptions.push(other)?;
        }
        assumptions.extend_from_slice(cube)?;
        backward.count();
        if self.asker.ask(&assumptions)? {
            return Ok(0);
        }
        Ok(self.asker.line())
    }

    /// Opens the part's claims at the next state or at the state.
    fn open(&mut self, width: u32, next: bool) -> Result<(), AllocError> {
        let mut clause = Vec::new(self.alloc);
        for index in self.part.from..self.part.to {
            clause.clear();
            if next {
                push_next_claim(self.claims.cube(index), width, &mut clause)?;
            } else {
                push_claim(self.claims.cube(index), &mut clause)?;
            }
            self.asker.add(&clause)?;
        }
        Ok(())
    }
}

/// The part that begins here, of which nothing is proved.
fn part_from(backward: &Backward<'_>, claims: &Claims, from: usize) -> Part {
    Part {
        eventuality: backward.eventuality_of(claims.level(from)),
        from,
        to: claims.end_from(from),
        base_end: 0,
        step_end: 0,
    }
}

/// The stage in which the claims from this one on are proved, if there are any.
fn stage_at(claims: &Claims, index: usize) -> Stage {
    if index < claims.len() {
        return Stage::Base;
    }
    Stage::Close
}

fn copy(alloc: Global, cube: &[Literal]) -> Result<Vec<Literal>, AllocError> {
    let mut copy = Vec::new(alloc);
    copy.extend_from_slice(cube)?;
    Ok(copy)
}
