// The solver as its callers see it: inputs, lines, known letters, and the values that were found last. What
// was learnt in one question stays for the next. Its memory is that of one allocator, which it keeps.
ghost use Rattle.std.specs.Prelude.{◌≡◌, ◌↔◌, ◌⊎◌, ◌≤◌, ◌<◌, ◌+◌, List, [], length, All, IfOk, OnOk, OnErr};
ghost use Rattle.std.specs.Prelude.{false, slice_index_or};
ghost use Rattle.cnf_base.specs.declared.literal.Literal.{Literal};
ghost use Rattle.cnf_base.specs.declared.literal.Hint.{Hint};
ghost use Rattle.cnf_base.specs.Step.{IsHintedStep};
ghost use Rattle.cnf_base.specs.Known.{IsKnown, AreKnown};
ghost use Rattle.clause_log.specs.LogValue.{greatest_u32, with_input};
ghost use Rattle.cdcl.specs.Solving.{IsLonger, IsNegated, IsConsistent, IsSatisfiable};
ghost use Rattle.cdcl.specs.SolverValue.{IsAnswer};
ghost use Rattle.cdcl.specs.declared.solve.Answer.TheVariants.{Sat};

use crate::retention::Retention;
use crate::solve::{Answer, solve};
use cdcl_state::State;
use clause_log::Log;
use cnf_base::{Letter, Literal};
use std::alloc::{AllocError, Global};
use std::marker::Model;

/// Answers questions about clauses that are added one after another. Letters are numbered from 1.
#[derive(Drop)]
pub struct Solver {
    alloc: Global,
    state: State,
    model: Vec<bool>,
    retention: Retention,
}

impl Model for Solver {
    ghost use Rattle.cdcl.specs.SolverValue.{SolverValue};

    ghost Value = { SolverValue };

    ghost view = { λ a. record { letters = a.state.letters; log = a.state.log; model = a.model.items } };
}

impl Solver {
    /// No letters, no inputs and no lines.
    pub fn new(alloc: Global) -> Self
        ensures { result ≡ record {
          letters = 0;
          log = record { inputs = []; lines = []; hints = [] };
          model = [];
        } }
    {
        Solver {
            alloc,
            state: State::new(alloc),
            model: Vec::new(alloc),
            retention: Retention::new(alloc),
        }
    }

    /// Makes the letters from 1 to the count known.
    pub fn letters(&mut self, count: u32) -> Result<(), AllocError>
        requires { self.old.letters ≤ count }
        ensures known { OnOk result (self.new ≡ record { letters = count; log = self.old.log; model = [] }) }
        ensures refused { OnErr result (self.new ≡ self.old) }
    {
        self.state.letters(count)?;
        self.model.truncate(0);
        Ok(())
    }

    /// Puts the clause behind the inputs, and answers its number in the log. After a refusal all is as
    /// before.
    pub fn add(&mut self, clause: &[Literal]) -> Result<u64, AllocError>
        requires { All (IsKnown self.old.letters) clause.now }
        ensures added { IfOk result (λ number. (self.new
            ≡ record { letters = self.old.letters; log = with_input self.old.log clause.now; model = [] })
            × (number ≡ length self.new.log.inputs)) }
        ensures refused { OnErr result (self.new ≡ self.old) }
    {
        let number = self.state.add(self.alloc, clause)?;
        self.model.truncate(0);
        Ok(number)
    }

    /// Asks whether some assignment makes all inputs and assumptions true. The line that is answered
    /// otherwise has negations of assumptions alone. Lines that were learnt stay, also after a refusal.
    pub fn solve(&mut self, assumptions: &[Literal]) -> Result<Answer, AllocError>
        requires known { All (IsKnown self.old.letters) assumptions.now }
        requires consistent { IsConsistent assumptions.now }

        ensures sat { IfOk result (λ answer. (answer ≡ Sat)
            ↔ IsSatisfiable self.old.log.inputs assumptions.now) }
        ensures answer { IfOk result (IsAnswer self.new assumptions.now) }

        // Values are there after `Sat` alone.
        ensures unset { IfOk result (λ answer. (answer ≡ Sat) ⊎ (self.new.model ≡ [])) }
        ensures refused { OnErr result (self.new.model ≡ []) }

        // What stays, whatever is answered.
        ensures letters { self.new.letters ≡ self.old.letters }
        ensures log { IsLonger self.old.log self.new.log }

        // A question that the lines answer already adds at most one.
        ensures near { (clause : List Literal) (hints : List Hint) → IsNegated assumptions.now clause
            → IsHintedStep self.old.log.inputs self.old.log.lines greatest_u32 clause hints
            → length self.new.log.lines ≤ length self.old.log.lines + 1 }
    {
        self.model.truncate(0);
        let answer = solve(
            &mut self.state,
            self.alloc,
            assumptions,
            &mut self.retention,
        )?;
        self.state.invariant();
        match answer {
            Answer::Sat => {
                let model = self.state.model(self.alloc)?;
                self.model = model;
                return Ok(answer);
            }
            Answer::Unsat(_) => {
                return Ok(answer);
            }
        }
    }

    /// The value of a letter in the assignment that was found last: by the last call of `solve`, where that
    /// answered `Sat` and nothing was added since.
    pub fn value(&self, letter: Letter) -> bool
        requires { letter.0 < length self.now.model }
        ensures { result ≡ slice_index_or self.now.model letter.0 false }
    {
        self.model[letter.0 as usize]
    }

    /// Inputs and lines.
    pub fn log(&self) -> &Log
        ensures log { result.now ≡ self.now.log }
        ensures inputs { AreKnown self.now.letters self.now.log.inputs }
        ensures lines { AreKnown self.now.letters self.now.log.lines }
    {
        self.state.invariant();
        self.state.log()
    }

    /// Inputs and lines, and nothing else of the solver.
    pub fn into_log(self) -> Log
        ensures log { result ≡ self.log }
        ensures lines { AreKnown self.letters self.log.lines }
    {
        self.state.invariant();
        self.state.into_log()
    }
}
