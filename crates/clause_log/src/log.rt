// A log: input clauses, and lines that follow from them, each with the hints that show it. That a line
// follows shows by unit propagation over its hints alone (Goldberg and Novikov: proofs of unsatisfiability
// for CNF formulas); `derive` asks for it, so what a log says can be trusted whatever search produced it.
ghost use Rattle.std.specs.Prelude.{◌≡◌, ◌≤◌, [], length, IfOk, OnErr};
ghost use Rattle.cnf_base.specs.Step.{IsHintedStep, clause_at};
ghost use Rattle.clause_log.specs.LogValue.{LogValue, IsLog, IsInputAdded, IsLineAdded, with_input};
ghost use Rattle.clause_log.specs.LogValue.{with_line, greatest_u32, hints_at};

use cnf_base::{Hint, Literal, Rows};
use std::alloc::{AllocError, Global};
use std::marker::Model;

/// Input clauses, and lines that are hinted steps over them and the lines before. Both are numbered from 1.
#[derive(Drop)]
pub struct Log {
    inputs: Rows<Literal>,
    lines: Rows<Literal>,
    hints: Rows<Hint>,
}

impl Model for Log {
    ghost use Rattle.clause_log.specs.LogValue.{LogValue, IsLog};

    ghost Value = { LogValue };

    ghost view = { λ a. record { inputs = a.inputs; lines = a.lines; hints = a.hints } };

    ghost invariant = { λ a. IsLog (record { inputs = a.inputs; lines = a.lines; hints = a.hints }) };
}

impl Log {
    /// No inputs and no lines.
    pub fn new(alloc: Global) -> Self
        ensures { result ≡ record { inputs = []; lines = []; hints = [] } }
    {
        Log {
            inputs: Rows::new(alloc),
            lines: Rows::new(alloc),
            hints: Rows::new(alloc),
        }
    }

    /// Puts the clause behind the inputs, and answers its number.
    pub fn add_input(&mut self, clause: &[Literal]) -> Result<u64, AllocError>
        ensures added { IfOk result (λ number. (self.new ≡ with_input self.old clause.now)
            × (number ≡ length self.new.inputs)) }
        ensures refused { OnErr result (self.new ≡ self.old) }
    {
        self.inputs.push(clause)?;
        Ok(self.inputs.len() as u64)
    }

    /// Takes back the input that was put behind the others last.
    pub fn take_back_input(&mut self)
        requires { (before : LogValue) × IsInputAdded before self.old }
        ensures { (before : LogValue) → IsInputAdded before self.old → self.new ≡ before }
    {
        let count = self.inputs.len() - 1;
        self.inputs.truncate(count);
    }

    /// Puts the clause with its hints behind the lines, and answers its number.
    pub fn derive(&mut self, literals: &[Literal], hints: &[Hint]) -> Result<u64, AllocError>
        requires { IsHintedStep self.old.inputs self.old.lines greatest_u32 literals.now hints.now }
        ensures added { IfOk result (λ number. (self.new ≡ with_line self.old literals.now hints.now)
            × (number ≡ length self.new.lines)) }
        ensures refused { OnErr result (self.new ≡ self.old) }
    {
        let count = self.lines.len();
        self.lines.push(literals)?;
        match self.hints.push(hints) {
            Ok(()) => Ok(self.lines.len() as u64),
            Err(_) => {
                // The clause is there already: without this cut the next line would have these hints.
                self.lines.truncate(count);
                Err(AllocError)
            }
        }
    }

    /// Takes back the line that was put behind the others last.
    pub fn take_back_line(&mut self)
        requires { (before : LogValue) × IsLineAdded before self.old }
        ensures { (before : LogValue) → IsLineAdded before self.old → self.new ≡ before }
    {
        let count = self.lines.len() - 1;
        self.lines.truncate(count);
        self.hints.truncate(count);
    }

    /// It does nothing: its clause says what every log keeps to.
    pub fn invariant(&self)
        ensures { IsLog self.now }
    {
        let _ = &self.lines;
    }

    /// Lends the log for reading.
    pub fn view(&self) -> LogView<'_>
        ensures same { result ≡ self.now }
        ensures steps { IsLog self.now }
    {
        let _ = &self.lines;
        LogView { log: self }
    }
}

/// A log that is lent for reading. Inputs and lines are numbered from 1.
#[derive(Drop)]
pub struct LogView<'a> {
    log: &'a Log,
}

impl<'a> Model for LogView<'a> {
    ghost use Rattle.clause_log.specs.LogValue.{LogValue, IsLog};

    ghost Value = { LogValue };

    ghost view = { λ a. a.log.now };

    ghost invariant = { λ a. IsLog a.log.now };
}

impl<'a> LogView<'a> {
    /// It does nothing: its clause says what every view keeps to.
    pub fn invariant(&self)
        ensures { IsLog self.now }
    {
        let _ = &self.log;
    }

    /// The number of inputs.
    pub fn inputs(&self) -> u64
        ensures { result ≡ length self.now.inputs }
    {
        let log = self.log;
        log.inputs.len() as u64
    }

    /// The number of lines.
    pub fn lines(&self) -> u64
        ensures { result ≡ length self.now.lines }
    {
        let log = self.log;
        log.lines.len() as u64
    }

    /// The literals of an input.
    #[inline(always)]
    pub fn input(&self, number: u64) -> &'a [Literal]
        requires from_one { 1 ≤ number }
        requires in_list { number ≤ length self.now.inputs }
        ensures { result.now ≡ clause_at self.now.inputs number }
    {
        let log = self.log;
        log.inputs.row((number - 1) as usize)
    }

    /// The literals of a line.
    #[inline(always)]
    pub fn literals(&self, line: u64) -> &'a [Literal]
        requires from_one { 1 ≤ line }
        requires in_list { line ≤ length self.now.lines }
        ensures { result.now ≡ clause_at self.now.lines line }
    {
        let log = self.log;
        log.lines.row((line - 1) as usize)
    }

    /// The hints of a line, in the order in which they are read.
    pub fn hints(&self, line: u64) -> &'a [Hint]
        requires from_one { 1 ≤ line }
        requires in_list { line ≤ length self.now.lines }
        ensures { result.now ≡ hints_at self.now.hints line }
    {
        let log = self.log;
        log.hints.row((line - 1) as usize)
    }
}
