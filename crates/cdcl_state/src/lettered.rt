// The log, and the letters that its inputs name. A letter that an input is the first to name waits for a
// decision from then on.
ghost use Rattle.std.specs.Prelude.{◌≡◌, [], length, All, Contains, IfOk, OnErr, OnOk};
ghost use Rattle.cnf_base.specs.Step.{IsHintedStep};
ghost use Rattle.clause_log.specs.LogValue.{LogValue, IsLog, IsInputAdded, IsLineAdded, with_input};
ghost use Rattle.clause_log.specs.LogValue.{with_line, greatest_u32};
ghost use Rattle.cdcl_state.specs.Named.{AreOf};

use crate::named::Named;
use cdcl_activity::Choices;
use clause_log::{Log, LogView};
use cnf_base::{Hint, Literal};
use std::alloc::{AllocError, Global};
use std::marker::Model;

/// A log, and the letters of its inputs.
#[derive(Drop)]
pub struct LetteredLog {
    log: Log,
    named: Named,
}

impl Model for LetteredLog {
    ghost use Rattle.std.specs.Prelude.{All};
    ghost use Rattle.clause_log.specs.LogValue.{LogValue};
    ghost use Rattle.cdcl_state.specs.Named.{AreOf};

    ghost Value = { LogValue };

    ghost view = { λ a. a.log };

    ghost invariant = { λ a. All (AreOf a.named) a.log.inputs };
}

impl LetteredLog {
    /// No inputs and no lines.
    pub fn new(alloc: Global) -> Self
        ensures { result ≡ record { inputs = []; lines = []; hints = [] } }
    {
        LetteredLog {
            log: Log::new(alloc),
            named: Named::new(alloc),
        }
    }

    /// The log.
    pub fn log(&self) -> &Log
        ensures { result.now ≡ self.now }
    {
        &self.log
    }

    /// The log alone.
    pub fn into_log(self) -> Log
        ensures { result ≡ self }
    {
        self.log
    }

    /// It does nothing: its clause says what every log keeps to.
    pub fn invariant(&self)
        ensures { IsLog self.now }
    {
        self.log.invariant();
    }

    /// Lends the log for reading.
    pub fn view(&self) -> LogView<'_>
        ensures same { result ≡ self.now }
        ensures steps { IsLog self.now }
    {
        self.log.view()
    }

    /// The letters that the inputs name.
    pub fn named(&self) -> &Named
        ensures { All (AreOf result.now) self.now.inputs }
    {
        &self.named
    }

    /// Puts the clause behind the inputs, and answers its number.
    pub fn add_input(
        &mut self,
        clause: &[Literal],
        choices: &mut Choices,
    ) -> Result<u64, AllocError>
        ensures added { IfOk result (λ number. (self.new ≡ with_input self.old clause.now)
            × (number ≡ length self.new.inputs)) }
        ensures refused { OnErr result (self.new ≡ self.old) }
    {
        name(clause, &mut self.named, choices)?;
        self.log.add_input(clause)
    }

    /// Takes back the input that was put behind the others last. Its letters stay named.
    pub fn take_back_input(&mut self)
        requires { (before : LogValue) × IsInputAdded before self.old }
        ensures { (before : LogValue) → IsInputAdded before self.old → self.new ≡ before }
    {
        self.log.take_back_input();
    }

    /// Puts the clause with its hints behind the lines, and answers its number.
    pub fn derive(&mut self, literals: &[Literal], hints: &[Hint]) -> Result<u64, AllocError>
        requires { IsHintedStep self.old.inputs self.old.lines greatest_u32 literals.now hints.now }
        ensures added { IfOk result (λ number. (self.new ≡ with_line self.old literals.now hints.now)
            × (number ≡ length self.new.lines)) }
        ensures refused { OnErr result (self.new ≡ self.old) }
    {
        self.log.derive(literals, hints)
    }

    /// Takes back the line that was put behind the others last.
    pub fn take_back_line(&mut self)
        requires { (before : LogValue) × IsLineAdded before self.old }
        ensures { (before : LogValue) → IsLineAdded before self.old → self.new ≡ before }
    {
        self.log.take_back_line();
    }
}

/// Names the clause's letters, and lets those that are new wait for a decision.
fn name(clause: &[Literal], named: &mut Named, choices: &mut Choices) -> Result<(), AllocError>
    ensures there { OnOk result (AreOf named.new clause.now) }
    ensures kept { All (Contains named.new) named.old }
{
    for literal in clause {
        let letter = literal.letter.0;
        if named.name(letter)? {
            choices.insert(letter);
        }
    }
    Ok(())
}
