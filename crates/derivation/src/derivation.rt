// Lines that follow from a list of clauses, each with the hints that show it. A hint names a clause of the
// list by its number there, so that whoever can find a clause by its number needs no list.
ghost use Rattle.std.specs.Prelude.{◌≡◌, ◌≤◌, length};
ghost use Rattle.cnf_base.specs.Step.{clause_at};
ghost use Rattle.clause_log.specs.LogValue.{hints_at};
ghost use Rattle.derivation.specs.Steps.{IsDerivation};

use cnf_base::{Hint, Literal, Rows};
use std::marker::Model;

/// Lines that are hinted steps over a list of clauses and the lines before. Lines are numbered from 1.
#[derive(Drop)]
pub struct Derivation {
    lines: Rows<Literal>,
    hints: Rows<Hint>,
}

impl Model for Derivation {
    ghost use Rattle.derivation.specs.Steps.{DerivationValue, IsDerivation};

    ghost Value = { DerivationValue };

    ghost view = { λ a. record { lines = a.lines; hints = a.hints } };

    ghost invariant = { λ a. IsDerivation (record { lines = a.lines; hints = a.hints }) };
}

impl Derivation {
    /// These lines with their hints.
    pub fn of(lines: Rows<Literal>, hints: Rows<Hint>) -> Derivation
        requires { IsDerivation (record { lines = lines; hints = hints }) }
        ensures { result ≡ record { lines = lines; hints = hints } }
    {
        Derivation { lines, hints }
    }

    /// It does nothing: its clause says what every derivation keeps to.
    pub fn invariant(&self)
        ensures { IsDerivation self.now }
    {
        let _ = &self.lines;
    }

    /// The number of lines.
    pub fn lines(&self) -> u64
        ensures { result ≡ length self.now.lines }
    {
        self.lines.len() as u64
    }

    /// The literals of a line.
    pub fn literals(&self, line: u64) -> &[Literal]
        requires from_one { 1 ≤ line }
        requires in_list { line ≤ length self.now.lines }
        ensures { result.now ≡ clause_at self.now.lines line }
    {
        self.lines.row((line - 1) as usize)
    }

    /// The hints of a line, in the order in which they are read.
    pub fn hints(&self, line: u64) -> &[Hint]
        requires from_one { 1 ≤ line }
        requires in_list { line ≤ length self.now.lines }
        ensures { result.now ≡ hints_at self.now.hints line }
    {
        self.hints.row((line - 1) as usize)
    }
}
