// From a fixed point to a certificate: its claims are made fewer, as long as that goes on for some rounds,
// and those that are left are proved. Each turn asks two questions at most.

use crate::backward::Backward;
use crate::choose::Choice;
use crate::fixed_point::{Claims, claims_above};
use crate::lay_out::lay_out;
use crate::prove::Prover;
use claim_check::Certificate;
use std::alloc::AllocError;

/// How often the claims that are left are gone through again.
const ROUNDS: u32 = 4;

/// A certificate in the making: the choice of claims, and behind it their proof.
#[derive(Drop)]
pub struct Finish {
    choice: Choice,
    rounds: u32,
    prover: Option<Prover>,
}

impl Finish {
    /// Begins with the cubes above the frame, and asks one question.
    pub fn new(backward: &mut Backward<'_>, frame: u32) -> Result<Finish, AllocError> {
        let claims = claims_above(backward, frame)?;
        let choice = Choice::new(backward, claims)?;
        Ok(Finish {
            choice,
            rounds: 1,
            prover: None,
        })
    }

    /// Goes on. False where all is proved.
    pub fn turn(&mut self, backward: &mut Backward<'_>) -> Result<bool, AllocError> {
        if let Some(prover) = &mut self.prover {
            return prover.turn(backward);
        }
        if !self.choice.explain(backward)? {
            self.go_on(backward)?;
        }
        Ok(true)
    }

    /// Chooses among the claims that are left, or begins to prove them.
    fn go_on(&mut self, backward: &mut Backward<'_>) -> Result<(), AllocError> {
        let claims = self.choice.kept(backward)?;
        if self.choice.needs_all() || self.rounds >= ROUNDS {
            return self.prove(backward, claims);
        }
        self.choose(backward, claims)
    }

    fn choose(&mut self, backward: &mut Backward<'_>, claims: Claims) -> Result<(), AllocError> {
        self.rounds = self.rounds.saturating_add(1);
        self.choice = Choice::new(backward, claims)?;
        Ok(())
    }

    fn prove(&mut self, backward: &mut Backward<'_>, claims: Claims) -> Result<(), AllocError> {
        self.prover = Some(Prover::new(backward, claims)?);
        Ok(())
    }

    /// The certificate, where all is proved and no state that keeps the claims is a first one.
    pub fn certificate(self, backward: &Backward<'_>) -> Result<Option<Certificate>, AllocError> {
        let Finish { prover, .. } = self;
        let Some(prover) = prover else {
            return Ok(None);
        };
        let proof = prover.finish();
        if proof.close == 0 {
            return Ok(None);
        }
        Ok(Some(lay_out(backward.alloc, backward.kind, &proof)?))
    }
}
