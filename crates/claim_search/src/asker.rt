// A solver whose questions can be asked without a condition. It keeps what the last one told: the values of
// the letters that are shown, or the line that refutes it, whose literals are opposites of assumptions (its
// core). What it does for a question beside solving is linear in the assumptions, in the letters shown and
// in the core.
ghost use Rattle.std.specs.Prelude.{◌≡◌, ◌<◌, ◌≤◌, All, length};
ghost use Rattle.cnf_base.specs.Known.{IsKnown};
ghost use Rattle.cdcl.specs.Solving.{IsConsistent};

use crate::consistent::is_consistent;
use crate::cube::{push_claim, signed};
use cdcl::{Answer, Solver, are_known};
use clause_log::Log;
use cnf_base::{Letter, Literal};
use std::alloc::{AllocError, Global};
use std::marker::Model;

/// The most letters that a solver is given.
const MAX_LETTERS: u32 = 16_777_216;

/// A solver, and what its last question told. Vectors of booleans have a place for each letter.
#[derive(Drop)]
pub struct Asker {
    solver: Box<Solver>,
    letters: u32,
    shown: u32,
    values: Vec<bool>,
    core: Vec<Literal>,
    /// Letters that are in the core.
    is_used: Vec<bool>,
    /// Room to tell whether assumptions contradict one another.
    signs: Vec<bool>,
    line: u64,
}

impl Model for Asker {
    ghost use Rattle.std.specs.Prelude.{◌≡◌};
    ghost use Rattle.cdcl.specs.SolverValue.{SolverValue};

    ghost Value = { SolverValue };

    ghost view = { λ a. a.solver.value };

    ghost invariant = { λ a. a.letters ≡ a.solver.value.letters };
}

impl Asker {
    /// A solver with no clauses, which shows the values of the first letters.
    pub fn new(alloc: Global, shown: u32) -> Result<Asker, AllocError> {
        let solver = Box::new(alloc, Solver::new(alloc))?;
        Ok(Asker {
            solver,
            letters: 0,
            shown,
            values: Vec::new(alloc),
            core: Vec::new(alloc),
            is_used: Vec::new(alloc),
            signs: Vec::new(alloc),
            line: 0,
        })
    }

    /// Makes the letters up to this one known. Want of room for them is told as want of memory.
    pub fn grow(&mut self, letters: u32) -> Result<(), AllocError> {
        if letters > MAX_LETTERS {
            return Err(AllocError);
        }
        if letters > self.letters {
            self.solver.letters(letters)?;
            self.letters = letters;
            self.is_used.resize(letters as usize + 1, false)?;
            self.signs.resize(letters as usize + 1, false)?;
        }
        Ok(())
    }

    /// A new letter. Want of room for it is told as want of memory.
    pub fn fresh(&mut self) -> Result<Literal, AllocError> {
        let letter = self.letters.saturating_add(1);
        self.grow(letter)?;
        Ok(signed(letter, false))
    }

    /// Puts the clause behind the others. Its letters have to be known: one that has others is left out.
    pub fn add(&mut self, clause: &[Literal]) -> Result<(), AllocError> {
        if are_known(self.letters, clause) {
            self.solver.add(clause)?;
        }
        Ok(())
    }

    /// Whether all clauses and the assumptions can be true together. Assumptions that contradict one another
    /// or have letters that are not known cannot, and all of them are the core then.
    pub fn ask(&mut self, assumptions: &[Literal]) -> Result<bool, AllocError> {
        mark(&self.core, false, &mut self.is_used);
        self.core.clear();
        self.values.clear();
        self.line = 0;
        let is_found = self.solve(assumptions)?;
        mark(&self.core, true, &mut self.is_used);
        Ok(is_found)
    }

    /// Asks, and puts what is told behind the values or the core.
    fn solve(&mut self, assumptions: &[Literal]) -> Result<bool, AllocError> {
        if !are_known(self.letters, assumptions) {
            push_claim(assumptions, &mut self.core)?;
            return Ok(false);
        }
        if !is_consistent(assumptions, &mut self.signs) {
            push_claim(assumptions, &mut self.core)?;
            return Ok(false);
        }
        let count = if self.shown < self.letters {
            self.shown
        } else {
            self.letters
        };
        let (values, core) = (&mut self.values, &mut self.core);
        let line = put(&mut *self.solver, assumptions, count, values, core)?;
        self.line = line;
        Ok(line == 0)
    }

    /// Whether the last question was refuted by this assumption of it, among others.
    pub fn is_in_core(&self, assumption: Literal) -> bool {
        let letter = assumption.letter.0 as usize;
        letter < self.is_used.len() && self.is_used[letter]
    }

    /// The value of a letter that is shown, after a question whose answer was yes.
    pub fn value(&self, letter: u32) -> bool {
        let index = letter as usize;
        index < self.values.len() && self.values[index]
    }

    /// The line that refuted the last question, or 0.
    pub fn line(&self) -> u64 {
        self.line
    }

    /// How many lines there are.
    pub fn lines(&self) -> u64 {
        self.solver.log().view().lines()
    }

    /// Clauses and lines, and nothing else.
    pub fn into_log(self) -> Log {
        let Asker { solver, .. } = self;
        Box::into_inner(solver).into_log()
    }
}

/// Marks the letters of the literals, or takes their marks away.
fn mark(literals: &[Literal], is_marked: bool, marks: &mut Vec<bool>) {
    for own in literals {
        let letter = own.letter.0 as usize;
        if letter < marks.len() {
            marks[letter] = is_marked;
        }
    }
}

/// Asks, and puts what is told behind the values or the core. Answers the line that refutes the question, or
/// 0 where none does.
fn put(
    solver: &mut Solver,
    assumptions: &[Literal],
    count: u32,
    values: &mut Vec<bool>,
    core: &mut Vec<Literal>,
) -> Result<u64, AllocError>
    requires known { All (IsKnown solver.old.letters) assumptions.now }
    requires consistent { IsConsistent assumptions.now }
    requires count { count ≤ solver.old.letters }
    ensures letters { solver.new.letters ≡ solver.old.letters }
{
    match solver.solve(assumptions)? {
        Answer::Sat => {
            push_values(solver, count, values)?;
            Ok(0)
        }
        Answer::Unsat(line) => {
            let view = solver.log().view();
            core.extend_from_slice(view.literals(line))?;
            Ok(line)
        }
    }
}

/// Puts the values of the first letters behind the others, and before them one for letter 0.
fn push_values(solver: &Solver, count: u32, values: &mut Vec<bool>) -> Result<(), AllocError>
    requires { count < length solver.now.model }
{
    values.push(false)?;
    for number in 0..count {
        values.push(solver.value(Letter(number + 1)))?;
    }
    Ok(())
}
