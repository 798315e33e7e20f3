// A log whose inputs are clauses of a list, with the number that each has there. What is derived in it is
// read as a derivation from the list: a hint that names an input is told as one that names the clause of the
// list.
ghost use Rattle.std.specs.Prelude.{◌≡◌, ◌<◌, ◌≤◌, ℕ, List, length, slice_get, Some};
ghost use Rattle.cnf_base.specs.declared.literal.Literal.{Literal as Signed};
ghost use Rattle.cnf_base.specs.Step.{clause_at};
ghost use Rattle.clause_log.specs.LogValue.{hints_at};
ghost use Rattle.derivation.specs.Steps.{IsDerivation};
ghost use Rattle.derivation.specs.Naming.{AreNamed, derived};

use clause_log::Log;
use cnf_base::{Hint, Literal};
use std::marker::Model;

/// The lines of a log as steps over a list of clauses. Input n of the log is the clause of the list whose
/// number is the n-th name.
#[derive(Drop)]
pub struct NamedLog {
    log: Log,
    names: Vec<u64>,
}

impl Model for NamedLog {
    ghost use Rattle.std.specs.Prelude.{List};
    ghost use Rattle.cnf_base.specs.declared.literal.Literal.{Literal as Signed};
    ghost use Rattle.derivation.specs.Steps.{DerivationValue};
    ghost use Rattle.derivation.specs.Naming.{AreNamed, derived};

    ghost Value = { DerivationValue };

    ghost view = { λ a. derived a.log a.names.items };

    ghost invariant = { λ a. (list : List (List Signed)) × AreNamed list a.log.inputs a.names.items };
}

impl NamedLog {
    /// The log's lines, with its inputs under these names.
    pub fn of(log: Log, names: Vec<u64>) -> NamedLog
        requires { (list : List (List Signed)) × AreNamed list log.inputs names.items }
        ensures { result ≡ derived log names.items }
    {
        NamedLog { log, names }
    }

    /// It does nothing: its clause says what every derivation keeps to.
    pub fn invariant(&self)
        ensures { IsDerivation self.now }
    {
        self.log.invariant();
    }

    /// The log itself: its hints name inputs by the order in which these were put in.
    pub fn log(&self) -> &Log
        ensures { (names : List ℕ) × (self.now ≡ derived result.now names) }
    {
        &self.log
    }

    /// The number of lines.
    pub fn lines(&self) -> u64
        ensures { result ≡ length self.now.lines }
    {
        self.log.view().lines()
    }

    /// The literals of a line.
    pub fn literals(&self, line: u64) -> &[Literal]
        requires from_one { 1 ≤ line }
        requires in_list { line ≤ length self.now.lines }
        ensures { result.now ≡ clause_at self.now.lines line }
    {
        self.log.view().literals(line)
    }

    /// The number of hints of a line.
    #[inline(always)]
    pub fn hints(&self, line: u64) -> usize
        requires from_one { 1 ≤ line }
        requires in_list { line ≤ length self.now.lines }
        ensures { result ≡ length (hints_at self.now.hints line) }
    {
        self.log.view().hints(line).len()
    }

    /// The hint at a place of a line, from 0.
    #[inline(always)]
    pub fn hint(&self, line: u64, place: usize) -> Hint
        requires from_one { 1 ≤ line }
        requires in_list { line ≤ length self.now.lines }
        requires in_line { place < length (hints_at self.now.hints line) }
        ensures { slice_get (hints_at self.now.hints line) place ≡ Some result }
    {
        let view = self.log.view();
        match view.hints(line)[place] {
            Hint::Clause(number) => Hint::Clause(self.names[(number - 1) as usize]),
            Hint::Line(earlier) => Hint::Line(earlier),
        }
    }
}
