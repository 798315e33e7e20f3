// Clauses that are stored, their literals one after another in one buffer.
ghost use Rattle.std.specs.Prelude.{◌≡◌, ◌<◌, ◌≤◌, ◌-◌, ◌^◌, [], ◌∷◌, ◌++◌, length, take, if◌then◌else◌};
ghost use Rattle.std.specs.Prelude.{is_ok, slice_index_or};
ghost use Rattle.cnf_base.specs.RowPieces.{lengthened};
ghost use Rattle.cnf_base.specs.Step.{clause_at};

use crate::{Clauses, Literal, Rows};
use std::alloc::{AllocError, Global};
use std::marker::Model;

/// A list of clauses, each of at most 4,294,967,295 literals.
#[derive(Drop)]
pub struct ClauseList {
    rows: Rows<Literal>,
}

impl Model for ClauseList {
    ghost use Rattle.std.specs.Prelude.{◌<◌, ◌^◌, List, All, length};
    ghost use Rattle.cnf_base.specs.declared.literal.Literal.{Literal};

    ghost Value = { List (List Literal) };

    ghost view = { λ a. a.rows };

    ghost invariant = { λ a. All (λ clause. length clause < 2 ^ 32) a.rows };
}

impl ClauseList {
    /// No clauses.
    pub fn new(alloc: Global) -> Self
        ensures { result ≡ [] }
    {
        ClauseList {
            rows: Rows::new(alloc),
        }
    }

    /// Puts the clause behind the others. After want of memory the list is as before.
    pub fn push(&mut self, clause: &[Literal]) -> Result<(), AllocError>
        requires { length clause.now < 2 ^ 32 }
        ensures { self.new ≡ (if is_ok result then self.old ++ clause.now ∷ [] else self.old) }
    {
        self.rows.push(clause)
    }

    /// The literals of a clause. Clauses are numbered from 1.
    pub fn clause(&self, number: u64) -> &[Literal]
        requires from_one { 1 ≤ number }
        requires in_list { number ≤ length self.now }
        ensures { result.now ≡ clause_at self.now number }
    {
        let index = (number - 1) as usize;
        self.rows.row(index)
    }

    /// Puts the literal behind the others of the last clause. After want of memory the list is as before.
    pub fn lengthen(&mut self, literal: Literal) -> Result<(), AllocError>
        requires some { 0 < length self.old }
        requires short { length (slice_index_or self.old (length self.old - 1) []) < 2 ^ 32 - 1 }
        ensures { self.new ≡ (if is_ok result then lengthened self.old literal else self.old) }
    {
        self.rows.lengthen(literal)
    }

    /// Keeps the first `count` clauses, or all where there are no more.
    pub fn truncate(&mut self, count: u64)
        ensures { self.new ≡ take count self.old }
    {
        if count < self.rows.len() as u64 {
            self.rows.truncate(count as usize);
        }
    }
}

impl Clauses for ClauseList {
    ghost clauses = { λ list. list };

    fn count(&self) -> u64 {
        self.rows.len() as u64
    }

    fn len(&self, number: u64) -> u32 {
        self.rows.row((number - 1) as usize).len() as u32
    }

    fn literal(&self, number: u64, place: u32) -> Literal {
        self.rows.row((number - 1) as usize)[place as usize]
    }
}
